//! The full vector of an event.
ghost use Rattle.std.specs.Prelude.{◌≡◌, ◌<◌, length, IfOk};
ghost use Rattle.event_cuts.specs.Counts.{AreCounts, vector_at};

use crate::reached::reached_by;
use key_model::{Count, CountList, EventList};
use tm_base::{ItemList, Mem};

/// Of each actor the number of its logged events among the event at this place, counted from 0, and all before
/// it that reach it, ascending by writer and without zeros.
///
/// It costs a look at each event, and at those of a transaction again for each of its ends before the event.
pub fn full_vector(events: &EventList, j: usize) -> Mem<CountList>
    requires { j < length events.now }
    ensures { IfOk result (λ counts. AreCounts (vector_at events.now j) counts) }
{
    let alloc = events.allocator();
    let items = events.as_slice();
    let (before, rest) = items.split_at(j);
    let reached = reached_by(alloc, items, before, &rest[0])?;
    let mut counts = ItemList::new(alloc);
    for (writer, number) in reached.numbers.iter() {
        if *number > 0 {
            counts.push(Count {
                writer: *writer,
                number: *number,
            })?;
        }
    }
    Ok(counts)
}
