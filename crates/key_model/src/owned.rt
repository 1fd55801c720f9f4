//! The rows that the transactions of each writer may have locked.
ghost use Rattle.std.specs.Prelude.{◌≡◌, OnOk, OnErr};
ghost use Rattle.std.specs.FinMap as fin;
ghost use Rattle.key_model.specs.Inside.{with_owned};

use crate::closed::{DyingList, DyingRow};
use std::alloc::Global;
use std::collections::BTreeMap;
use std::marker::Model;
use tm_base::{ItemList, Mem, Writer};

/// Rows by the writers of their transactions. Contracts see the finite map from writers to lists of rows,
/// in the order in which they came.
#[derive(Drop)]
pub struct OwnedRows {
    alloc: Global,
    rows: BTreeMap<Writer, DyingList>,
}

impl Model for OwnedRows {
    ghost use Rattle.std.specs.Prelude.{List};
    ghost use Rattle.std.specs.Coded.{coded_list};
    ghost use Rattle.std.specs.FinMap as fin;
    ghost use Rattle.tm_data.specs.Maps.{as_map};
    ghost use Rattle.tm_data.specs.Orders.{writer_cmp, coded_writer};
    ghost use Rattle.key_model.specs.State.{coded_dying};
    ghost use Rattle.key_model.specs.declared.closed.DyingRow.{DyingRow};

    ghost Value = { fin.FinMap writer_cmp (List DyingRow) };

    ghost coded = { fin.code coded_writer (coded_list coded_dying) };

    ghost view = { λ m. as_map m.rows };
}

impl OwnedRows {
    /// No rows.
    pub fn new(alloc: Global) -> OwnedRows
        ensures { result ≡ fin.empty }
    {
        OwnedRows {
            alloc,
            rows: BTreeMap::new(alloc),
        }
    }

    /// Adds a row at the end of its writer's. With want of memory nothing changes.
    pub fn add(&mut self, dying: DyingRow) -> Mem<()>
        ensures ok { OnOk result (self.new ≡ with_owned self.old dying (fin.get self.old dying.txn.writer)) }
        ensures err { OnErr result (self.new ≡ self.old) }
    {
        let writer = dying.txn.writer;
        if let Some(rows) = self.rows.get_mut(&writer) {
            return rows.push(dying);
        }
        let mut rows = ItemList::new(self.alloc);
        rows.push(dying)?;
        self.rows.insert(writer, rows)?;
        Ok(())
    }

    /// Takes out the rows of a writer.
    pub fn take(&mut self, writer: Writer) -> Option<DyingList>
        ensures value { result ≡ fin.get self.old writer }
        ensures removed { self.new ≡ fin.remove self.old writer }
    {
        let Some(rows) = self.rows.remove(&writer) else {
            return None;
        };
        Some(rows)
    }
}
