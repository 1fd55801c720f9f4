//! A set of rows of all tables.
ghost use Rattle.std.specs.Prelude.{◌≡◌, OnOk, OnErr};
ghost use Rattle.std.specs.FinMap as fin;

use crate::{Mem, RowKey};
use std::alloc::Global;
use std::collections::BTreeSet;
use std::collections::btree_set::Iter;
use std::marker::Model;

/// Some rows, ascending by table and key. Contracts see the finite map from each of them to nothing, whose keys are
/// listed in their order.
#[derive(Drop)]
pub struct RowSet {
    rows: BTreeSet<RowKey>,
}

impl Model for RowSet {
    ghost use Rattle.std.specs.FinSet as sets;
    ghost use Rattle.std.specs.FinMap.{FinMap};
    ghost use Rattle.tm_data.specs.Maps.{as_keys};
    ghost use Rattle.tm_data.specs.Orders.{row_cmp, coded_row};

    ghost Value = { FinMap row_cmp (Unit {0}) };

    ghost coded = { sets.code coded_row };

    ghost view = { λ s. as_keys s.rows };
}

impl RowSet {
    /// No rows.
    pub fn new(alloc: Global) -> RowSet
        ensures { result ≡ fin.empty }
    {
        RowSet {
            rows: BTreeSet::new(alloc),
        }
    }

    /// Whether the row is one of these.
    pub fn contains(&self, key: &RowKey) -> bool
        ensures { result ≡ fin.contains_key self.now key.now }
    {
        self.rows.contains(key)
    }

    /// Adds a row, unless it is one of these.
    pub fn insert(&mut self, key: RowKey) -> Mem<()>
        ensures ok { OnOk result (self.new ≡ fin.insert self.old key tt) }
        ensures err { OnErr result (self.new ≡ self.old) }
    {
        self.rows.insert(key)?;
        Ok(())
    }

    /// Takes a row out, if it is one of these. It takes no memory.
    pub fn remove(&mut self, key: &RowKey)
        ensures { self.new ≡ fin.remove self.old key.now }
    {
        self.rows.remove(key);
    }

    /// The rows, ascending by table and key.
    pub fn iter(&self) -> Iter<'_, RowKey>
        ensures { result ≡ fin.keys self.now }
    {
        self.rows.iter()
    }
}
