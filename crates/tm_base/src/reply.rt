//! What a master replies to a command.
ghost use Rattle.std.specs.Prelude.{◌≡◌};

use tm_data::{Key, Mem, Page, TryCopy, Txn, Value, Writer};

/// What a recovery that is under way waits for.
#[derive(Clone, Copy, Debug, PartialEq, Eq)]
pub enum RecoveryWait {
    /// A log store that has sealed the writer's log.
    Seal,
    /// The lock manager's word on where the log is closed.
    Close,
    /// The groups of the closed log.
    Scan,
    /// The lock manager's word that the writer's pages are taken over.
    Take,
    /// The lock manager's word that the writer is recovered.
    Told,
}

/// A reply: what it prints is in its fields.
#[derive(Debug, Drop, PartialEq, Eq)]
pub enum Reply {
    /// The master's writer is closed or recovered.
    Fenced,
    /// The lock manager has not yet given this life its writer number.
    NotJoined,
    /// The session has no transaction.
    NoTransaction,
    /// The session has this transaction already.
    AlreadyOpen { txn: Txn },
    /// The transaction has begun its commit or its abort.
    Ending { txn: Txn },
    /// Tables are numbered 1 to 1,024.
    NoTable { table: u16 },
    /// A key has at most 64 bytes; this one has `length`.
    TooLongKey { length: usize },
    /// A value has at most 512 bytes; this one has `length`.
    TooLongValue { length: usize },
    /// The page is not both leased and here: ask again.
    AgainPage { page: Page },
    /// It is not known whether the transaction of another writer has ended: ask again.
    AgainFate { txn: Txn },
    /// The open transaction holds the row of this key, or a tag on it.
    LockedRow { txn: Txn, key: Key },
    /// The row does not fit, and the open transaction of another writer holds a tag on this key of
    /// the leaf, which is not split then.
    LockedSplit { txn: Txn, key: Key },
    /// A split wants so many more fresh pages: ask again.
    AgainFresh { wanting: u32 },
    /// No fresh page is left.
    PagesSpent,
    /// So many rows are left to undo, at least 1: ask again.
    AgainRows { left: u64 },
    /// Log store 1, 2 or 3 has not acknowledged the own group of this sequence number: ask again.
    AgainStore { store: u8, seq: u32 },
    /// No other writer of this number is known.
    NoWriter { writer: Writer },
    /// The recovery of this other writer is under way here.
    OtherRecovery { writer: Writer },
    /// The leaf has 4,096 tags.
    FullTags,
    /// The tree would get a level 6.
    FullHeight,
    /// The log's sequence numbers are spent.
    FullGroups,
    /// The transaction numbers are spent.
    FullTransactions,
    /// The clock is at its end.
    StampsSpent,
    /// The transaction is open.
    Begun { txn: Txn },
    /// The key's value, or none.
    Value { value: Option<Value> },
    /// The row is written.
    Done,
    /// The transaction's changes stand, whatever master is lost.
    Committed { txn: Txn },
    /// The transaction's changes are undone.
    Aborted { txn: Txn },
    /// The writer is recovered.
    Recovered { writer: Writer },
    /// The recovery waits: ask again.
    Recovering { wait: RecoveryWait },
}

impl TryCopy for Reply {
    fn copy(&self) -> Mem<Reply> {
        Ok(match self {
            Reply::Fenced => Reply::Fenced,
            Reply::NotJoined => Reply::NotJoined,
            Reply::NoTransaction => Reply::NoTransaction,
            Reply::AlreadyOpen { txn } => Reply::AlreadyOpen { txn: *txn },
            Reply::Ending { txn } => Reply::Ending { txn: *txn },
            Reply::NoTable { table } => Reply::NoTable { table: *table },
            Reply::TooLongKey { length } => Reply::TooLongKey { length: *length },
            Reply::TooLongValue { length } => Reply::TooLongValue { length: *length },
            Reply::AgainPage { page } => Reply::AgainPage { page: *page },
            Reply::AgainFate { txn } => Reply::AgainFate { txn: *txn },
            Reply::LockedRow { txn, key } => Reply::LockedRow {
                txn: *txn,
                key: key.copy()?,
            },
            Reply::LockedSplit { txn, key } => Reply::LockedSplit {
                txn: *txn,
                key: key.copy()?,
            },
            Reply::AgainFresh { wanting } => Reply::AgainFresh { wanting: *wanting },
            Reply::PagesSpent => Reply::PagesSpent,
            Reply::AgainRows { left } => Reply::AgainRows { left: *left },
            Reply::AgainStore { store, seq } => Reply::AgainStore {
                store: *store,
                seq: *seq,
            },
            Reply::NoWriter { writer } => Reply::NoWriter { writer: *writer },
            Reply::OtherRecovery { writer } => Reply::OtherRecovery { writer: *writer },
            Reply::FullTags => Reply::FullTags,
            Reply::FullHeight => Reply::FullHeight,
            Reply::FullGroups => Reply::FullGroups,
            Reply::FullTransactions => Reply::FullTransactions,
            Reply::StampsSpent => Reply::StampsSpent,
            Reply::Begun { txn } => Reply::Begun { txn: *txn },
            Reply::Value { value: Some(value) } => Reply::Value {
                value: Some(value.copy()?),
            },
            Reply::Value { value: None } => Reply::Value { value: None },
            Reply::Done => Reply::Done,
            Reply::Committed { txn } => Reply::Committed { txn: *txn },
            Reply::Aborted { txn } => Reply::Aborted { txn: *txn },
            Reply::Recovered { writer } => Reply::Recovered { writer: *writer },
            Reply::Recovering { wait } => Reply::Recovering { wait: *wait },
        })
    }
}
