//! What is kept of writers that are closed.
ghost use Rattle.std.specs.Prelude.{◌≡◌, not, OnOk, OnErr, None, Some, IsSome};
ghost use Rattle.tm_data.specs.Maps.{as_map};
ghost use Rattle.std.specs.FinMap as fin;
ghost use Rattle.std.specs.FinSet as sets;
ghost use Rattle.key_model.specs.After.{same_writer, locks};
ghost use Rattle.key_model.specs.Inside.{there, with_rows, HasAll, no_txn, without_own};

use crate::owned::OwnedRows;
use std::alloc::Global;
use std::collections::BTreeMap;
use std::marker::Model;
use std::ops::Bound;
use tm_base::{ItemList, Mem, NoMemory, RowKey, TryCopy, Txn, Writer};

/// A row that a transaction had written when its writer was closed, and that stays locked until the
/// writer is recovered.
#[derive(Debug, Drop, PartialEq, Eq, PartialOrd, Ord)]
pub struct DyingRow {
    pub row: RowKey,
    pub txn: Txn,
}

impl DyingRow {
    /// The place before those of each transaction at the row: transactions are numbered from 1.
    pub fn first(row: RowKey) -> DyingRow
        ensures { result ≡ record { row = row; txn = no_txn } }
    {
        let txn = Txn {
            writer: Writer(0),
            number: 0,
        };
        DyingRow { row, txn }
    }
}

impl TryCopy for DyingRow {
    fn copy(&self) -> Mem<DyingRow> {
        Ok(DyingRow {
            row: self.row.copy()?,
            txn: self.txn,
        })
    }
}

/// Rows that stay locked.
pub type DyingList = ItemList<DyingRow>;

/// A place for each row that may be locked by a transaction of a closed writer: an empty place counts as
/// no row. So rows can be locked without memory once there are places for them. Contracts see the finite
/// map of the places.
#[derive(Drop)]
pub struct DyingMap {
    places: BTreeMap<DyingRow, Option<()>>,
    // By writer, the rows that may have a place: at least those that have.
    owned: OwnedRows,
}

impl Model for DyingMap {
    ghost use Rattle.std.specs.Coded.{coded_option};
    ghost use base.Stored.{coded_unit};
    ghost use Rattle.std.specs.FinMap as fin;
    ghost use Rattle.std.specs.declared.option.Option.{Option};
    ghost use Rattle.tm_data.specs.Maps.{as_map};
    ghost use Rattle.key_model.specs.State.{dying_cmp, coded_dying};

    ghost Value = { fin.FinMap dying_cmp (Option (Unit {0})) };

    ghost coded = { fin.code coded_dying (coded_option coded_unit) };

    ghost view = { λ m. as_map m.places };

    ghost use Rattle.key_model.specs.Inside.{CoversPlaces};

    ghost invariant = { λ m. CoversPlaces (as_map m.places) m.owned };
}

impl DyingMap {
    /// No row is locked.
    pub fn new(alloc: Global) -> DyingMap
        ensures { result ≡ fin.empty }
    {
        DyingMap {
            places: BTreeMap::new(alloc),
            owned: OwnedRows::new(alloc),
        }
    }

    // Makes an empty place for a row.
    fn open(&mut self, dying: &DyingRow) -> Mem<()>
        ensures ok { OnOk result (self.new ≡ fin.insert self.old dying.now None) }
        ensures err { OnErr result (self.new ≡ self.old) }
    {
        self.owned.add(dying.copy()?)?;
        let dying = dying.copy()?;
        let Ok(_) = self.places.insert(dying, None) else {
            return Err(NoMemory);
        };
        Ok(())
    }

    // Locks a row that has a place.
    fn lock(&mut self, dying: DyingRow)
        requires { IsSome (fin.get self.old dying) }
        ensures { self.new ≡ fin.insert self.old dying (Some tt) }
    {
        let _ = self.places.insert(dying, Some(()));
    }

    // Whether the row has a place.
    fn has(&self, dying: &DyingRow) -> bool
        ensures { result ≡ fin.contains_key self.now dying.now }
    {
        self.places.contains_key(dying)
    }

    /// Makes an empty place for each row that has none. No row is locked by it, also where memory is
    /// wanting.
    pub fn reserve(&mut self, rows: &DyingList) -> Mem<()>
        ensures same { there self.new ≡ there self.old }
        ensures ready { OnOk result (HasAll self.new rows.now) }
    {
        for dying in rows.as_slice().iter() {
            if !self.has(dying) {
                self.open(dying)?;
            }
        }
        Ok(())
    }

    /// Locks the rows.
    pub fn enter(&mut self, rows: DyingList)
        requires { HasAll self.old rows }
        ensures { there self.new ≡ with_rows (there self.old) rows }
    {
        for dying in rows.into_vec() {
            self.lock(dying);
        }
    }

    /// Whether a transaction has locked the row whose first place is `first`: a look at the places of
    /// that row alone.
    pub fn locks(&self, first: &DyingRow) -> bool
        requires { first.now.txn ≡ no_txn }
        ensures { result ≡ locks (sets.items (there self.now)) first.now.row }
    {
        let onwards = (Bound::Included(first), Bound::Unbounded);
        for (dying, place) in self.places.range(onwards) {
            if dying.row != first.row {
                return false;
            }
            if place.is_some() {
                return true;
            }
        }
        false
    }

    /// Frees the rows that transactions of this writer have locked.
    pub fn free(&mut self, writer: Writer)
        ensures { self.new ≡ fin.retain_keys self.old (λ d. not (same_writer d.txn.writer writer)) }
    {
        if let Some(rows) = self.owned.take(writer) {
            take_out(&mut self.places, writer, rows);
        }
    }
}

// Takes out the places of these rows, as far as they are the writer's.
fn take_out(places: &mut BTreeMap<DyingRow, Option<()>>, writer: Writer, rows: DyingList)
    ensures { as_map places.new ≡ without_own writer (as_map places.old) rows }
{
    for dying in rows.into_vec() {
        if dying.txn.writer == writer {
            let _ = places.remove(&dying);
        }
    }
}
