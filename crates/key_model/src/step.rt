//! What a step of the machine is.
ghost use Rattle.std.specs.Prelude.{◌≡◌};

use crate::{EndList, PutList};
use tm_base::{Command, Mem, Reply, TryCopy, Txn, Writer};

/// A step of the machine.
#[derive(Debug, Drop, PartialEq, Eq)]
pub enum MachineStep {
    /// A command was answered in a session; a node that has not joined has no writer.
    Answered {
        writer: Option<Writer>,
        session: u16,
        command: Command,
        reply: Reply,
    },
    /// The end of a transaction became final.
    Settle {
        txn: Txn,
        committed: bool,
    },
    /// The log of a writer has an end. `ends` are the ends of its transactions in the log, in order, and `puts` the
    /// keys that its transactions have put there.
    Close {
        writer: Writer,
        ends: EndList,
        puts: PutList,
    },
    /// The open transactions of a closed writer are undone.
    Recover {
        writer: Writer,
    },
}

impl TryCopy for MachineStep {
    fn copy(&self) -> Mem<MachineStep> {
        Ok(match self {
            MachineStep::Answered {
                writer,
                session,
                command,
                reply,
            } => MachineStep::Answered {
                writer: *writer,
                session: *session,
                command: command.copy()?,
                reply: reply.copy()?,
            },
            MachineStep::Settle { txn, committed } => MachineStep::Settle {
                txn: *txn,
                committed: *committed,
            },
            MachineStep::Close { writer, ends, puts } => MachineStep::Close {
                writer: *writer,
                ends: ends.copy()?,
                puts: puts.copy()?,
            },
            MachineStep::Recover { writer } => MachineStep::Recover { writer: *writer },
        })
    }
}
