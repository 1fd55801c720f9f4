//! Which transactions hold a row.
ghost use Rattle.std.specs.Prelude.{◌≡◌, OnOk, OnErr};
ghost use Rattle.std.specs.FinMap as fin;
ghost use Rattle.std.specs.Option.{option_copied};
ghost use Rattle.key_index.specs.Holders.{with_holder, struck, is_bare, without_holder};

use crate::TxnSet;
use std::alloc::Global;
use std::collections::BTreeMap;
use std::marker::Model;
use tm_data::{Mem, RowKey, Txn};

/// The transactions that hold each row. A row that none holds takes no room. Contracts see the finite map
/// from rows to lists of transactions, ascending.
#[derive(Drop)]
pub struct KeyIndex {
    alloc: Global,
    rows: BTreeMap<RowKey, TxnSet>,
}

impl Model for KeyIndex {
    ghost use Rattle.std.specs.Prelude.{List};
    ghost use Rattle.std.specs.Coded.{coded_list};
    ghost use Rattle.std.specs.FinMap as fin;
    ghost use Rattle.tm_data.specs.Maps.{as_map};
    ghost use Rattle.tm_data.specs.Orders.{row_cmp, coded_row, coded_txn};
    ghost use Rattle.tm_data.specs.declared.transaction.Txn.{Txn};

    ghost Value = { fin.FinMap row_cmp (List Txn) };

    ghost coded = { fin.code coded_row (coded_list coded_txn) };

    ghost view = { λ m. as_map m.rows };
}

impl KeyIndex {
    /// No row is held.
    pub fn new(alloc: Global) -> KeyIndex
        ensures { result ≡ fin.empty }
    {
        KeyIndex {
            alloc,
            rows: BTreeMap::new(alloc),
        }
    }

    /// The transactions that hold the row.
    pub fn holders(&self, key: &RowKey) -> Option<&TxnSet>
        ensures { option_copied result ≡ fin.get self.now key.now }
    {
        self.rows.get(key)
    }

    /// Lets the transaction hold the row. With want of memory nothing changes.
    pub fn add(&mut self, key: RowKey, txn: Txn) -> Mem<()>
        ensures ok { OnOk result (self.new ≡ with_holder self.old key txn (fin.get self.old key)) }
        ensures err { OnErr result (self.new ≡ self.old) }
    {
        if let Some(txns) = self.rows.get_mut(&key) {
            return txns.insert(txn);
        }
        let mut txns = TxnSet::new(self.alloc);
        txns.insert(txn)?;
        self.rows.insert(key, txns)?;
        Ok(())
    }

    // Takes the transaction from those of a row, and says whether none is left.
    fn strike(&mut self, key: &RowKey, txn: &Txn) -> bool
        ensures struck { self.new ≡ struck self.old key.now txn.now (fin.get self.old key.now) }
        ensures bare { result ≡ is_bare (fin.get self.new key.now) }
    {
        let Some(txns) = self.rows.get_mut(key) else {
            return false;
        };
        txns.remove(txn);
        txns.is_empty()
    }

    /// Lets the transaction hold the row no longer.
    pub fn remove(&mut self, key: &RowKey, txn: &Txn)
        ensures { self.new ≡ without_holder self.old key.now txn.now }
    {
        if self.strike(key, txn) {
            let _ = self.rows.remove(key);
        }
    }
}
