//! A writer's own log, and which log stores acknowledged which of its groups.
//!
//! A group is durable once it and all groups before it are acknowledged by all three log stores
//! (write-ahead logging). What a store lacks is sent to it again. Durable groups may be let go, so a log needs no more
//! memory than the groups that aren't durable take.
#![tactic(auto)]

mod acks;
pub mod laws;
mod log_writer;
mod logged;
mod rows;

pub use acks::Acks;
pub use log_writer::{LogWriter, RESENT};
pub use logged::Logged;
