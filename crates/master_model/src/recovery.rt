//! How far the recovery of a lost writer has come.

/// A stage of a recovery. `store` is the log store, 1 to 3, whose list of the writer's groups is the closed log,
/// and `length` how many groups that has.
#[derive(Clone, Copy, Debug, PartialEq, Eq)]
pub enum Stage {
    /// A log store is awaited that has sealed the writer's log.
    Seal,
    /// The lock manager's word is awaited on where the log is closed.
    Close { store: u8, length: u32 },
    /// The groups of the closed log are read; `next` is the number of the one that is awaited, from 1.
    Scan { store: u8, length: u32, next: u32 },
    /// The lock manager's word is awaited that this part of the writer's pages is taken over, from 1. `rest` says
    /// that it is the last part, with which every other page of the writer goes too.
    Take { part: u32, rest: bool },
    /// So many rows are left to undo.
    Undo { left: u64 },
    /// The lock manager's word is awaited that the writer is recovered.
    Told,
    /// The writer is recovered.
    Over,
}
