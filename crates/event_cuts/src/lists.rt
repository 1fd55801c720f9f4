//! The rows and the map at a cut.
ghost use Rattle.std.specs.Prelude.{◌≡◌, IfOk};
ghost use Rattle.key_model.specs.Cuts.{of_vector};
ghost use Rattle.event_cuts.specs.Lists.{AreRowsAt, IsMapAt};

use crate::ended::ended_in;
use crate::last_puts::last_puts;
use key_model::{Entry, EntryList, EventList, RowList, TableRow};
use tm_base::{ByteList, ItemList, Mem, TryCopy, Vector};

/// The rows at the cut of a vector: of each key on which the cut has a put the transaction and the value of the
/// last one, and the value before that transaction's first. They ascend by table and key.
pub fn rows_at(events: &EventList, cut: &Vector) -> Mem<RowList>
    ensures { IfOk result (λ rows. AreRowsAt events.now (of_vector cut.now) rows) }
{
    let puts = last_puts(events, cut)?;
    let mut rows = ItemList::new(events.allocator());
    for (key, put) in puts.iter() {
        rows.push(TableRow {
            table: key.table,
            row: put.row()?,
        })?;
    }
    Ok(rows)
}

/// The map at the cut of a vector: of each key the value of its row there if the end of the row's transaction
/// is in the cut, else the value before that transaction. Keys without a value are left out, and the
/// entries ascend by table and key.
pub fn map_at(events: &EventList, cut: &Vector) -> Mem<EntryList>
    ensures { IfOk result (λ entries. IsMapAt events.now (of_vector cut.now) entries) }
{
    let puts = last_puts(events, cut)?;
    let ended = ended_in(events, cut)?;
    let mut entries = ItemList::new(events.allocator());
    for (key, put) in puts.iter() {
        if let Some(value) = put.value(&ended) {
            entries.push(Entry {
                table: key.table,
                key: key.key.copy()?,
                value: ByteList::from_slice(events.allocator(), value.as_slice())?,
            })?;
        }
    }
    Ok(entries)
}
