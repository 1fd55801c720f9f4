//! What is logged and sent.
ghost use Rattle.std.specs.Prelude.{◌≡◌};
ghost use Rattle.net_world.specs.Log.{seq_of};

use tm_base::{ByteList, Mem, TryCopy, Txn};

/// A group of the master's log. `seq` is its number in the log, from 1 to `2^32 - 2`.
#[derive(Debug, Drop, PartialEq, Eq)]
pub enum PlainGroup {
    /// The transaction has set the value of this key of this table.
    Row {
        seq: u32,
        table: u16,
        key: ByteList,
        value: ByteList,
        txn: Txn,
    },
    /// The transaction has ended: its rows stand once the store has this group.
    End {
        seq: u32,
        txn: Txn,
    },
}

impl PlainGroup {
    /// The number of the group in the log.
    pub fn seq(&self) -> u32
        ensures { result ≡ seq_of self.now }
    {
        match self {
            PlainGroup::Row { seq, .. } => *seq,
            PlainGroup::End { seq, .. } => *seq,
        }
    }
}

impl TryCopy for PlainGroup {
    fn copy(&self) -> Mem<PlainGroup> {
        Ok(match self {
            PlainGroup::Row {
                seq,
                table,
                key,
                value,
                txn,
            } => PlainGroup::Row {
                seq: *seq,
                table: *table,
                key: key.copy()?,
                value: value.copy()?,
                txn: *txn,
            },
            PlainGroup::End { seq, txn } => PlainGroup::End {
                seq: *seq,
                txn: *txn,
            },
        })
    }
}

/// A message between the master and its log store.
#[derive(Debug, Drop, PartialEq, Eq)]
pub enum PlainMessage {
    /// To the store: a group of the log.
    Append(PlainGroup),
    /// To the master: the store has the group of this number.
    Ack { seq: u32 },
}
