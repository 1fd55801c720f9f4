//! A set of transactions.
ghost use Rattle.std.specs.Prelude.{◌≡◌, OnOk, OnErr};
ghost use Rattle.std.specs.FinSet as sets;

use std::alloc::Global;
use std::collections::BTreeSet;
use std::marker::Model;
use tm_base::{Mem, Txn};

/// Some transactions, which are found by halving. Contracts see the finite set.
#[derive(Drop)]
pub struct TxnSet {
    txns: BTreeSet<Txn>,
}

impl Model for TxnSet {
    ghost use Rattle.std.specs.FinSet as sets;
    ghost use Rattle.tm_data.specs.Maps.{as_set};
    ghost use Rattle.tm_data.specs.Orders.{txn_cmp, coded_txn};

    ghost Value = { sets.FinSet txn_cmp };

    ghost coded = { sets.code coded_txn };

    ghost view = { λ s. as_set s.txns };
}

impl TxnSet {
    /// No transactions.
    pub fn new(alloc: Global) -> TxnSet
        ensures { result ≡ sets.empty }
    {
        TxnSet {
            txns: BTreeSet::new(alloc),
        }
    }

    /// Whether the transaction is one of these.
    pub fn contains(&self, txn: Txn) -> bool
        ensures { result ≡ sets.contains self.now txn }
    {
        self.txns.contains(&txn)
    }

    /// Adds a transaction, unless it is one of these. With want of memory nothing changes.
    pub fn insert(&mut self, txn: Txn) -> Mem<()>
        ensures ok { OnOk result (self.new ≡ sets.insert self.old txn) }
        ensures err { OnErr result (self.new ≡ self.old) }
    {
        self.txns.insert(txn)?;
        Ok(())
    }

    /// Takes a transaction out, if it is one of these. It takes no memory.
    pub fn remove(&mut self, txn: Txn)
        ensures { self.new ≡ sets.remove self.old txn }
    {
        self.txns.remove(&txn);
    }
}
