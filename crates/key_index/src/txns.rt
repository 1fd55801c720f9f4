//! A few transactions.
ghost use Rattle.std.specs.Prelude.{◌≡◌, [], OnOk, OnErr, IsTrue, length};
ghost use Rattle.std.specs.BTreeSet.{insert_key};
ghost use Rattle.std.specs.Set.{remove_key};
ghost use Rattle.std.specs.BTreeMap.{is_at};
ghost use Rattle.std.specs.Map.Iter.{ShowsInOrder};
ghost use Rattle.tm_data.specs.Orders.{txn_cmp};
ghost use Rattle.key_index.specs.Holders.{is_nil};

use std::alloc::Global;
use std::collections::BTreeSet;
use std::collections::btree_set::Iter;
use std::marker::Model;
use tm_data::{Mem, Txn};

/// Transactions without doubles. Contracts see the list of them, ascending.
#[derive(Drop)]
pub struct TxnSet {
    txns: BTreeSet<Txn>,
}

impl Model for TxnSet {
    ghost use Rattle.std.specs.Prelude.{List};
    ghost use Rattle.std.specs.Coded.{coded_list};
    ghost use Rattle.tm_data.specs.Orders.{coded_txn};
    ghost use Rattle.tm_data.specs.declared.transaction.Txn.{Txn};

    ghost Value = { List Txn };

    ghost coded = { coded_list coded_txn };

    ghost view = { λ s. s.txns.keys };
}

impl TxnSet {
    /// No transactions.
    pub fn new(alloc: Global) -> TxnSet
        ensures { result ≡ [] }
    {
        TxnSet {
            txns: BTreeSet::new(alloc),
        }
    }

    /// Adds a transaction, unless it is one of these. With want of memory nothing changes.
    pub fn insert(&mut self, txn: Txn) -> Mem<()>
        ensures ok { OnOk result (self.new ≡ insert_key txn_cmp self.old txn) }
        ensures err { OnErr result (self.new ≡ self.old) }
    {
        self.txns.insert(txn)?;
        Ok(())
    }

    /// Takes a transaction out, if it is one of these.
    pub fn remove(&mut self, txn: &Txn)
        ensures { self.new ≡ remove_key (is_at (txn_cmp txn.now)) self.old }
    {
        let _ = self.txns.remove(txn);
    }

    /// Whether there are none.
    pub fn is_empty(&self) -> bool
        ensures { result ≡ is_nil self.now }
    {
        self.txns.is_empty()
    }

    /// The transactions, ascending.
    pub fn iter(&self) -> Iter<'_, Txn>
        ensures rest { result ≡ self.now }
    {
        self.txns.iter()
    }
}
