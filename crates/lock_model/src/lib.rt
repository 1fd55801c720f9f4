//! What the lock manager is: its state, its step, and the laws over every list of messages that it
//! may be handed.
//!
//! The lock manager numbers the lives of masters, leases pages to them, and keeps where the logs of
//! closed writers end. `specs/State.antt` has its state as plain data, `specs/Step.antt` what it does
//! with a message: a total function from a state and a message to the state after it, to whether that
//! differs, and to the messages that it sends. [`laws`] has what follows for whole runs.
#![tactic(auto)]

pub mod laws;
mod page;
mod writer;

pub use page::{PageEntry, WriterList};
pub use writer::{Fresh, Life, WriterEntry, WriterStatus};
