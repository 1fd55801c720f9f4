//! What the close of a writer's log changes, found before anything changes.
ghost use Rattle.std.specs.Prelude.{◌≡◌, OnOk, IfOk};
ghost use Rattle.std.specs.FinMap as fin;
ghost use Rattle.key_model.specs.Inside.{no_ending, with_ending, all_ending, is_left, rows_left, over};

use crate::closed::{DyingList, DyingRow};
use crate::values::Places;
use crate::{EndList, Ended, PutList};
use key_index::{Open, OpenMap};
use std::alloc::Global;
use tm_base::{ItemList, Mem, RowKey, RowMap, TryCopy, Txn, TxnMap, Writer};

/// The open transactions that have their end in a closed log.
#[derive(Drop)]
pub struct Ending {
    /// How each of them ends.
    pub outcomes: TxnMap<bool>,
    /// What the committed ones leave in the map: none where they delete.
    pub writes: Places,
}

impl Ending {
    // Adds what a transaction has written.
    fn write(&mut self, writes: &Places) -> Mem<()>
        ensures ok { OnOk result (self.new.writes ≡ over self.old.writes (fin.entries writes.now)) }
        ensures outcomes { self.new.outcomes ≡ self.old.outcomes }
    {
        for (key, value) in writes.iter() {
            self.writes.insert(key.copy()?, value.copy()?)?;
        }
        Ok(())
    }

    // Adds a transaction that has its end in the log.
    fn add(&mut self, end: &Ended, touched: &Open) -> Mem<()>
        ensures { OnOk result (self.new ≡ with_ending self.old end.now touched.now) }
    {
        self.outcomes.insert(end.txn, end.committed)?;
        if end.committed {
            self.write(&touched.writes)?;
        }
        Ok(())
    }
}

/// The transactions that the ends settle: those that are open, each by its first end.
pub fn ending_of(alloc: Global, opened: &OpenMap, ends: &EndList) -> Mem<Ending>
    ensures { IfOk result (λ ending. ending ≡ all_ending opened.now no_ending ends.now) }
{
    let mut ending = Ending {
        outcomes: TxnMap::new(alloc),
        writes: RowMap::new(alloc),
    };
    for end in ends.as_slice().iter() {
        if let Some(touched) = opened.get(&end.txn)
            && ending.outcomes.get(&end.txn).is_none()
        {
            ending.add(end, touched)?;
        }
    }
    Ok(ending)
}

// Whether the transaction is the writer's and open, and has no end in the log.
fn is_left(opened: &OpenMap, outcomes: &TxnMap<bool>, writer: Writer, txn: &Txn) -> bool
    ensures { result ≡ is_left opened.now outcomes.now writer txn.now }
{
    txn.writer == writer && opened.get(txn).is_some() && outcomes.get(txn).is_none()
}

/// The rows that stay locked: of these puts those of the writer's open transactions without an end.
pub fn rows_of(
    alloc: Global,
    opened: &OpenMap,
    outcomes: &TxnMap<bool>,
    writer: Writer,
    puts: &PutList,
) -> Mem<DyingList>
    ensures { IfOk result (λ rows. rows ≡ rows_left opened.now outcomes.now writer puts.now) }
{
    let mut rows = ItemList::new(alloc);
    for put in puts.as_slice().iter() {
        if is_left(opened, outcomes, writer, &put.txn) {
            rows.push(DyingRow {
                row: RowKey {
                    table: put.table,
                    key: put.key.copy()?,
                },
                txn: put.txn,
            })?;
        }
    }
    Ok(rows)
}
