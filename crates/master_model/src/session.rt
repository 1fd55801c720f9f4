//! What a master keeps of a session's transaction.

use tm_base::RowSet;

/// How far a session's transaction has come.
#[derive(Drop)]
pub enum Progress {
    /// It reads and writes.
    Active,
    /// It undoes its rows, one by one: those that are left are those that are still noted as written.
    Undoing,
    /// Its end is logged as the group of this sequence number, from 1.
    Ended { committed: bool, seq: u32 },
}

/// The transaction of a session.
#[derive(Drop)]
pub struct Own {
    /// Its number at its writer, from 1.
    pub number: u32,
    /// The rows that it has written and not undone.
    pub written: RowSet,
    pub progress: Progress,
}
