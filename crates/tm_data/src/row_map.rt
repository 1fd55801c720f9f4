//! Rows of all tables under one ordered map.
ghost use Rattle.std.specs.Prelude.{◌≡◌, OnOk, OnErr, None};
ghost use Rattle.std.specs.FinMap as fin;
ghost use Rattle.std.specs.Option.{option_copied};
ghost use Rattle.std.specs.Map.Iter.{ShowsInOrder, GivesInOrder, deref_pair};

use crate::{ByteList, Mem, NoMemory, TryCopy};
use std::alloc::Global;
use std::collections::BTreeMap;
use std::collections::btree_map::{IntoIter, Iter};
use std::marker::Model;

/// A key of a table: any bytes, ordered by table and then byte by byte.
#[derive(Debug, Drop, PartialEq, Eq, PartialOrd, Ord)]
pub struct RowKey {
    pub table: u16,
    pub key: ByteList,
}

impl TryCopy for RowKey {
    fn copy(&self) -> Mem<RowKey> {
        Ok(RowKey {
            table: self.table,
            key: self.key.copy()?,
        })
    }
}

/// A value for each of some rows, ascending by table and key. Contracts see the finite map.
#[derive(Drop)]
pub struct RowMap<V> {
    rows: BTreeMap<RowKey, V>,
}

impl<V> Model for RowMap<V> {
    ghost use Rattle.std.specs.FinMap as fin;
    ghost use Rattle.tm_data.specs.Maps.{as_map};
    ghost use Rattle.tm_data.specs.Orders.{row_cmp, coded_row};

    ghost Value = { fin.FinMap row_cmp V };

    ghost coded = { fin.code coded_row V.code };

    ghost view = { λ m. as_map m.rows };
}

impl<V> RowMap<V> {
    /// No rows.
    pub fn new(alloc: Global) -> RowMap<V>
        ensures { result ≡ fin.empty }
    {
        RowMap {
            rows: BTreeMap::new(alloc),
        }
    }

    /// The value of a row.
    pub fn get(&self, key: &RowKey) -> Option<&V>
        ensures { option_copied result ≡ fin.get self.now key.now }
    {
        self.rows.get(key)
    }

    /// The rows with their values, ascending by table and key.
    pub fn iter(&self) -> Iter<'_, RowKey, V>
        ensures rest { result ≡ fin.entries self.now }
        ensures runs { ShowsInOrder (deref_pair {K = RowKey} {X = V}) }
    {
        self.rows.iter()
    }
}

impl<V: Drop> RowMap<V> {
    /// Sets the value of a row. Only a new row may want memory.
    pub fn insert(&mut self, key: RowKey, value: V) -> Mem<()>
        ensures ok { OnOk result (self.new ≡ fin.insert self.old key value) }
        ensures err { OnErr result (self.new ≡ self.old) }
        ensures absent { OnErr result (fin.get self.old key ≡ None) }
    {
        let Ok(_) = self.rows.insert(key, value) else {
            return Err(NoMemory);
        };
        Ok(())
    }

    /// Takes a row away, and gives its value.
    pub fn remove(&mut self, key: &RowKey) -> Option<V>
        ensures value { result ≡ fin.get self.old key.now }
        ensures removed { self.new ≡ fin.remove self.old key.now }
    {
        self.rows.remove(key)
    }

    /// The rows with their values, ascending by table and key, moved out.
    pub fn into_rows(self) -> IntoIter<RowKey, V>
        ensures rest { result ≡ fin.entries self }
        ensures runs { GivesInOrder (RowKey × V) }
    {
        let RowMap { rows } = self;
        rows.into_iter()
    }
}
