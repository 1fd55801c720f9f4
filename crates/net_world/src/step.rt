//! What can happen in the plain world, and what comes of it.

use tm_base::{ByteList, Reply};

/// A step: a command of session 1 of the master, or the delivery of a message.
#[derive(Debug, Drop, PartialEq, Eq)]
pub enum PlainStep {
    /// Opens a transaction.
    Begin,
    /// Reads a key.
    Get {
        table: u16,
        key: ByteList,
    },
    /// Sets a key's value.
    Put {
        table: u16,
        key: ByteList,
        value: ByteList,
    },
    /// Ends the transaction. Asked again until it is answered otherwise than by `AgainStore`.
    Commit,
    /// Delivers the message of this number, counted from 1 in the order of sending.
    Deliver {
        number: u32,
    },
}

/// What comes of a step.
#[derive(Debug, Drop, PartialEq, Eq)]
pub enum PlainOutcome {
    /// The message was delivered.
    Fine,
    /// The reply to the command.
    Answer(Reply),
}
