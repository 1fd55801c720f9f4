//! What a session asks of its master.
ghost use Rattle.std.specs.Prelude.{◌≡◌};

use tm_data::{ByteList, Mem, TryCopy, Writer};

/// A command of a session. A key or value is any list of bytes here: the master refuses by name what
/// it does not take.
#[derive(Debug, Drop, PartialEq, Eq)]
pub enum Command {
    /// Opens a transaction.
    Begin,
    /// Reads a key.
    Get {
        table: u16,
        key: ByteList,
    },
    /// Sets a key's value.
    Put {
        table: u16,
        key: ByteList,
        value: ByteList,
    },
    /// Takes a key's value away.
    Del {
        table: u16,
        key: ByteList,
    },
    /// Ends the transaction, all of whose changes stand then.
    Commit,
    /// Ends the transaction, none of whose changes stand then.
    Abort,
    /// Recovers a writer whose master is lost.
    Recover {
        writer: Writer,
    },
}

impl TryCopy for Command {
    fn copy(&self) -> Mem<Command> {
        Ok(match self {
            Command::Begin => Command::Begin,
            Command::Get { table, key } => Command::Get {
                table: *table,
                key: key.copy()?,
            },
            Command::Put { table, key, value } => Command::Put {
                table: *table,
                key: key.copy()?,
                value: value.copy()?,
            },
            Command::Del { table, key } => Command::Del {
                table: *table,
                key: key.copy()?,
            },
            Command::Commit => Command::Commit,
            Command::Abort => Command::Abort,
            Command::Recover { writer } => Command::Recover { writer: *writer },
        })
    }
}
