//! What is kept of a writer.
ghost use Rattle.std.specs.Prelude.{◌≡◌};
ghost use Rattle.lock_model.specs.State.{is_live};

use tm_base::{Page, Stamp, Vector, Writer};

/// A life of a master: its writer number, and the master's boot number then.
#[derive(Clone, Copy)]
pub struct Life {
    pub writer: Writer,
    pub boot: u32,
}

/// How far the life of a writer has come. `length` is how many groups its log has for ever, and
/// `store` a log store that has them.
#[derive(Drop)]
pub enum WriterStatus {
    /// It may log, and take leases.
    Live,
    /// Its log has an end. `taken` says that every page that it held is free.
    Closed {
        length: u32,
        store: u8,
        taken: bool,
    },
    /// Each of its transactions stands whole or nowhere, as `vector` shows.
    Recovered {
        length: u32,
        store: u8,
        vector: Vector,
    },
}

impl WriterStatus {
    /// Whether the writer may log and take leases.
    pub fn is_live(&self) -> bool
        ensures { result ≡ is_live self.now }
    {
        matches!(self, WriterStatus::Live)
    }
}

/// The last answer to a writer that asked for a page that no table uses.
#[derive(Clone, Copy)]
pub struct Fresh {
    /// Which of the writer's requests it was, from 1; 0 where there was none.
    pub nth: u32,
    /// The page, none where none was left.
    pub page: Option<Page>,
}

/// What the lock manager keeps of a writer, which is one life of a master.
#[derive(Drop)]
pub struct WriterEntry {
    /// The number of the master.
    pub master: u8,
    /// The master's boot number in this life.
    pub boot: u32,
    /// The lock manager's scalar when the writer was numbered: the stamp of each of its groups is
    /// greater.
    pub start: Stamp,
    pub status: WriterStatus,
    pub fresh: Fresh,
}
