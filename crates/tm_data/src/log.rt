//! Records and groups of a writer's log.
ghost use Rattle.std.specs.Prelude.{◌≡◌};
ghost use Rattle.std.specs.Option.{option_map};
ghost use Rattle.tm_data.specs.Records.{page_of};

use crate::{Body, ItemList, Key, Mem, Page, Row, Stamp, TryCopy, Txn, Vector, Writer};

/// A change of a page, or a word of the log that changes none. `page` is the page that is changed,
/// and `prev` the stamp that it had, which is below the group's.
#[derive(Debug, Drop, PartialEq, Eq)]
pub enum Record {
    /// Sets the row of that key in a leaf of that table.
    RowSet {
        page: Page,
        prev: Stamp,
        table: u16,
        row: Row,
    },
    /// Drops rows or entries with keys from `at` on; the high fence becomes `at`.
    Cut {
        page: Page,
        prev: Stamp,
        at: Key,
    },
    /// Replaces what the page holds.
    Format {
        page: Page,
        prev: Stamp,
        body: Body,
    },
    /// Adds an entry to an inner page.
    NodeAdd {
        page: Page,
        prev: Stamp,
        key: Key,
        child: Page,
    },
    /// Ends a transaction, committed or undone.
    End {
        txn: Txn,
        committed: bool,
    },
    /// Says nothing but that the clock has come so far.
    Beat,
}

impl Record {
    /// The page that it changes, none for one that changes no page.
    pub fn page(&self) -> Option<Page>
        ensures { option_map (λ page. page.0) result ≡ page_of self.now }
    {
        match self {
            Record::RowSet { page, .. } => Some(*page),
            Record::Cut { page, .. } => Some(*page),
            Record::Format { page, .. } => Some(*page),
            Record::NodeAdd { page, .. } => Some(*page),
            Record::End { .. } => None,
            Record::Beat => None,
        }
    }
}

impl TryCopy for Record {
    fn copy(&self) -> Mem<Record> {
        Ok(match self {
            Record::RowSet {
                page,
                prev,
                table,
                row,
            } => Record::RowSet {
                page: *page,
                prev: *prev,
                table: *table,
                row: row.copy()?,
            },
            Record::Cut { page, prev, at } => Record::Cut {
                page: *page,
                prev: *prev,
                at: at.copy()?,
            },
            Record::Format { page, prev, body } => Record::Format {
                page: *page,
                prev: *prev,
                body: body.copy()?,
            },
            Record::NodeAdd {
                page,
                prev,
                key,
                child,
            } => Record::NodeAdd {
                page: *page,
                prev: *prev,
                key: key.copy()?,
                child: *child,
            },
            Record::End { txn, committed } => Record::End {
                txn: *txn,
                committed: *committed,
            },
            Record::Beat => Record::Beat,
        })
    }
}

/// Records in order.
pub type RecordList = ItemList<Record>;

/// What a writer logs at once: it is durable whole or not at all (write-ahead logging).
#[derive(Debug, Drop, PartialEq, Eq)]
pub struct Group {
    pub writer: Writer,
    /// From 1 without gaps.
    pub seq: u32,
    /// Above that of the writer's group before.
    pub stamp: Stamp,
    /// The entries of other writers that rose since the writer's group before.
    pub learnt: Vector,
    pub records: RecordList,
}

impl TryCopy for Group {
    fn copy(&self) -> Mem<Group> {
        Ok(Group {
            writer: self.writer,
            seq: self.seq,
            stamp: self.stamp,
            learnt: self.learnt.copy()?,
            records: self.records.copy()?,
        })
    }
}

/// Groups in order.
pub type GroupList = ItemList<Group>;
