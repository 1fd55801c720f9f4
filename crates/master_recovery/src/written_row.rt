//! A row that a transaction has written.
ghost use Rattle.std.specs.Prelude.{◌≡◌, IfOk};

use std::marker::Model;
use tm_base::{Key, Mem, TryCopy, Txn};

/// A key of a table, ordered by table and then byte by byte.
#[derive(Debug, Drop, PartialEq, Eq, PartialOrd, Ord)]
struct RowName {
    table: u16,
    key: Key,
}

/// A row that a transaction has written, ordered by table, then by key, then by transaction.
#[derive(Debug, Drop, PartialEq, Eq, PartialOrd, Ord)]
pub struct WrittenRow {
    name: RowName,
    txn: Txn,
}

impl Model for WrittenRow {
    ghost use Rattle.master_model.specs.Recovery.{WrittenRow as Written};
    ghost use Rattle.master_recovery.specs.Rows.{coded_written};

    ghost Value = { Written };

    ghost coded = { coded_written };

    ghost view = { λ w. record { row = record { table = w.name.table; key = w.name.key }; txn = w.txn } };

    ghost inverse = { λ v. record { name = record { table = v.row.table; key = v.row.key }; txn = v.txn } };
}

impl WrittenRow {
    /// The row of this key in a table, as a transaction wrote it.
    pub fn new(table: u16, key: Key, txn: Txn) -> WrittenRow
        ensures { result ≡ record { row = record { table = table; key = key }; txn = txn } }
    {
        WrittenRow {
            name: RowName { table, key },
            txn,
        }
    }

    /// The table of the row.
    pub fn table(&self) -> u16
        ensures { result ≡ self.now.row.table }
    {
        self.name.table
    }

    /// The key of the row.
    pub fn key(&self) -> &Key
        ensures { result.now ≡ self.now.row.key }
    {
        &self.name.key
    }

    /// The transaction that wrote it.
    pub fn txn(&self) -> Txn
        ensures { result ≡ self.now.txn }
    {
        self.txn
    }
}

impl TryCopy for WrittenRow {
    fn copy(&self) -> Mem<WrittenRow> {
        let key = self.name.key.copy()?;
        Ok(WrittenRow::new(self.name.table, key, self.txn))
    }
}
