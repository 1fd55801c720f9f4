//! The events of a run, in the order of its steps, and what is told of a cut through them.
ghost use Rattle.std.specs.Prelude.{◌≡◌};

use tm_base::{ByteList, ItemList, Key, Mem, Row, Stamp, TryCopy, Txn, Value, Writer};

/// What happened. A key is one of a table.
#[derive(Debug, Drop, PartialEq, Eq)]
pub enum EventKind {
    /// A transaction was told the value of a key that it had not written.
    Read {
        txn: Txn,
        table: u16,
        key: Key,
    },
    /// A row was logged. An undo is the put of the value before, of the transaction that is undone.
    Put {
        txn: Txn,
        table: u16,
        key: Key,
        value: Option<Value>,
    },
    /// A transaction's end was logged, committed or undone.
    End {
        txn: Txn,
        committed: bool,
    },
}

impl TryCopy for EventKind {
    fn copy(&self) -> Mem<EventKind> {
        Ok(match self {
            EventKind::Read { txn, table, key } => EventKind::Read {
                txn: *txn,
                table: *table,
                key: key.copy()?,
            },
            EventKind::Put {
                txn,
                table,
                key,
                value,
            } => EventKind::Put {
                txn: *txn,
                table: *table,
                key: key.copy()?,
                value: value.copy()?,
            },
            EventKind::End { txn, committed } => EventKind::End {
                txn: *txn,
                committed: *committed,
            },
        })
    }
}

/// An event of a run. Puts and ends are logged; a read is not.
#[derive(Debug, Drop, PartialEq, Eq)]
pub struct Event {
    /// The writer that made it, which for an undo is not always the transaction's.
    pub actor: Writer,
    /// The number of the group that logged it, 0 for a read.
    pub seq: u32,
    /// The stamp of that group, 0 for a read.
    pub stamp: Stamp,
    pub kind: EventKind,
}

impl TryCopy for Event {
    fn copy(&self) -> Mem<Event> {
        Ok(Event {
            actor: self.actor,
            seq: self.seq,
            stamp: self.stamp,
            kind: self.kind.copy()?,
        })
    }
}

/// Events in the order of the steps that made them.
pub type EventList = ItemList<Event>;

/// How many events of a writer are counted.
#[derive(Clone, Copy, Debug, PartialEq, Eq)]
pub struct Count {
    pub writer: Writer,
    pub number: u32,
}

impl TryCopy for Count {
    fn copy(&self) -> Mem<Count> {
        Ok(*self)
    }
}

/// Counts, ascending by writer and without zeros.
pub type CountList = ItemList<Count>;

/// A row of a table.
#[derive(Debug, Drop, PartialEq, Eq)]
pub struct TableRow {
    pub table: u16,
    pub row: Row,
}

impl TryCopy for TableRow {
    fn copy(&self) -> Mem<TableRow> {
        Ok(TableRow {
            table: self.table,
            row: self.row.copy()?,
        })
    }
}

/// Rows, ascending by table and key.
pub type RowList = ItemList<TableRow>;

/// A transaction that ended, and whether it committed; else it was undone.
#[derive(Clone, Copy, Debug, PartialEq, Eq)]
pub struct Ended {
    pub txn: Txn,
    pub committed: bool,
}

impl TryCopy for Ended {
    fn copy(&self) -> Mem<Ended> {
        Ok(*self)
    }
}

/// Ends in the order of the log.
pub type EndList = ItemList<Ended>;

/// A key that a transaction has put.
#[derive(Debug, Drop, PartialEq, Eq)]
pub struct PutKey {
    pub txn: Txn,
    pub table: u16,
    pub key: ByteList,
}

impl TryCopy for PutKey {
    fn copy(&self) -> Mem<PutKey> {
        Ok(PutKey {
            txn: self.txn,
            table: self.table,
            key: self.key.copy()?,
        })
    }
}

/// Put keys, ascending by transaction, table and key.
pub type PutList = ItemList<PutKey>;
