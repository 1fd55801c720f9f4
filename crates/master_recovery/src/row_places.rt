//! The rows that were written, with places that are made before they are needed.
ghost use Rattle.std.specs.Prelude.{◌≡◌, not, None, Some, IsSome, OnOk, OnErr, drop, length, slice_get};
ghost use Rattle.std.specs.FinMap as fin;
ghost use Rattle.std.specs.Option.{option_copied};
ghost use Rattle.master_recovery.specs.Places.{HasAll, itself, nothing, valued, with_items};

use crate::WrittenRow;
use crate::txn_places::{TxnPlaces, has_end};
use std::alloc::Global;
use std::collections::BTreeMap;
use std::marker::Model;
use tm_base::{ItemList, Mem, NoMemory, TryCopy};

/// Written rows.
pub(crate) type WrittenRowList = ItemList<WrittenRow>;

/// A place for each of some written rows, ascending; an empty place counts as none. So rows can be noted without memory
/// once there are places for them. Contracts see the finite map of the places.
#[derive(Drop)]
pub(crate) struct RowPlaces {
    places: BTreeMap<WrittenRow, Option<()>>,
}

impl Model for RowPlaces {
    ghost use base.Stored.{coded_unit};
    ghost use Rattle.std.specs.Coded.{coded_option};
    ghost use Rattle.std.specs.FinMap as fin;
    ghost use Rattle.std.specs.declared.option.Option.{Option};
    ghost use Rattle.tm_data.specs.Maps.{as_map};
    ghost use Rattle.master_model.specs.Recovery.{written_cmp};
    ghost use Rattle.master_recovery.specs.Rows.{coded_written};

    ghost Value = { fin.FinMap written_cmp (Option (Unit {0})) };

    ghost coded = { fin.code coded_written (coded_option coded_unit) };

    ghost view = { λ m. as_map m.places };

    ghost use Rattle.std.specs.BTreeMap.{IsOrdered};

    ghost invariant = { λ m. IsOrdered written_cmp m.places };
}

impl RowPlaces {
    /// No rows.
    pub(crate) fn new(alloc: Global) -> RowPlaces
        ensures { result ≡ fin.empty }
    {
        RowPlaces {
            places: BTreeMap::new(alloc),
        }
    }

    /// Whether the row has a place.
    fn has(&self, row: &WrittenRow) -> bool
        ensures { result ≡ fin.contains_key self.now row.now }
    {
        self.places.contains_key(row)
    }

    /// Makes an empty place for a row. With want of memory nothing changes.
    fn open(&mut self, row: &WrittenRow) -> Mem<()>
        ensures ok { OnOk result (self.new ≡ fin.insert self.old row.now None) }
        ensures err { OnErr result (self.new ≡ self.old) }
    {
        let row = row.copy()?;
        let Ok(_) = self.places.insert(row, None) else {
            return Err(NoMemory);
        };
        Ok(())
    }

    /// Notes a row that has a place. It takes no memory.
    fn set(&mut self, row: WrittenRow)
        requires { IsSome (fin.get self.old row) }
        ensures { self.new ≡ fin.insert self.old row (Some tt) }
    {
        let _ = self.places.insert(row, Some(()));
    }

    /// Makes an empty place for each row that has none. No row is noted by it, also where memory is wanting.
    pub(crate) fn reserve(&mut self, rows: &WrittenRowList) -> Mem<()>
        ensures same { valued self.new ≡ valued self.old }
        ensures ready { OnOk result (HasAll itself self.new rows.now) }
    {
        for written in rows.as_slice().iter() {
            if !self.has(written) {
                self.open(written)?;
            }
        }
        Ok(())
    }

    /// Notes the rows, which have places. It takes no memory.
    pub(crate) fn enter(&mut self, rows: WrittenRowList)
        requires { HasAll itself self.old rows }
        ensures { valued self.new ≡ with_items itself nothing (valued self.old) rows }
    {
        for written in rows.into_vec() {
            self.set(written);
        }
    }

    /// Leaves the noted rows alone whose transactions haven't ended. It takes no memory.
    pub(crate) fn keep_open(&mut self, ended: &TxnPlaces)
        ensures { fin.keys self.new ≡ fin.keys (fin.retain_keys (valued self.old) (λ r. not (fin.contains_key (valued ended.now) r.txn))) }
    {
        self.places.retain(|written, place| place.is_some() && !has_end(ended, written.txn()));
    }

    /// How many rows have places.
    pub(crate) fn len(&self) -> usize
        ensures { result ≡ length (fin.keys self.now) }
    {
        self.places.len()
    }

    /// The first row that has a place.
    pub(crate) fn first(&self) -> Option<&WrittenRow>
        ensures { option_copied result ≡ slice_get (fin.keys self.now) 0 }
    {
        match self.places.first_key_value() {
            Some((written, _)) => Some(written),
            None => None,
        }
    }

    /// Takes out the first row that has a place. It takes no memory.
    pub(crate) fn drop_first(&mut self)
        ensures { fin.keys self.new ≡ drop 1 (fin.keys self.old) }
    {
        let _ = self.places.pop_first();
    }
}
