//! Transactions under one ordered map.
ghost use Rattle.std.specs.Prelude.{◌≡◌, OnOk, OnErr, None};
ghost use Rattle.std.specs.FinMap as fin;
ghost use Rattle.std.specs.Option.{option_copied};
ghost use Rattle.std.specs.Map.Iter.{ShowsInOrder, deref_pair};

use crate::{Mem, NoMemory, Txn};
use std::alloc::Global;
use std::collections::BTreeMap;
use std::collections::btree_map::Iter;
use std::marker::Model;

/// A value for each of some transactions, ascending by writer and number. Contracts see the finite map.
#[derive(Drop)]
pub struct TxnMap<V> {
    values: BTreeMap<Txn, V>,
}

impl<V> Model for TxnMap<V> {
    ghost use Rattle.std.specs.FinMap as fin;
    ghost use Rattle.tm_data.specs.Maps.{as_map};
    ghost use Rattle.tm_data.specs.Orders.{txn_cmp, coded_txn};

    ghost Value = { fin.FinMap txn_cmp V };

    ghost coded = { fin.code coded_txn V.code };

    ghost view = { λ m. as_map m.values };
}

impl<V> TxnMap<V> {
    /// No transactions.
    pub fn new(alloc: Global) -> TxnMap<V>
        ensures { result ≡ fin.empty }
    {
        TxnMap {
            values: BTreeMap::new(alloc),
        }
    }

    /// The value of a transaction.
    pub fn get(&self, txn: &Txn) -> Option<&V>
        ensures { option_copied result ≡ fin.get self.now txn.now }
    {
        self.values.get(txn)
    }

    /// The transactions with their values, ascending by writer and number.
    pub fn iter(&self) -> Iter<'_, Txn, V>
        ensures rest { result ≡ fin.entries self.now }
        ensures runs { ShowsInOrder (deref_pair {K = Txn} {X = V}) }
    {
        self.values.iter()
    }
}

impl<V: Drop> TxnMap<V> {
    /// Sets the value of a transaction. Only a new transaction may want memory.
    pub fn insert(&mut self, txn: Txn, value: V) -> Mem<()>
        ensures ok { OnOk result (self.new ≡ fin.insert self.old txn value) }
        ensures err { OnErr result (self.new ≡ self.old) }
        ensures absent { OnErr result (fin.get self.old txn ≡ None) }
    {
        let Ok(_) = self.values.insert(txn, value) else {
            return Err(NoMemory);
        };
        Ok(())
    }

    /// Takes a transaction away, and gives its value.
    pub fn remove(&mut self, txn: &Txn) -> Option<V>
        ensures value { result ≡ fin.get self.old txn.now }
        ensures removed { self.new ≡ fin.remove self.old txn.now }
    {
        self.values.remove(txn)
    }
}
