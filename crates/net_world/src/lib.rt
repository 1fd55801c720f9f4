//! The plain world: one master, one log store, the messages between them, and the plain machine
//! beside them.
//!
//! A master logs each row that a transaction writes, and then the transaction's end, as groups of a
//! log that it sends to the store. The commit is answered once every group up to that end is
//! acknowledged (write-ahead logging). Messages are never lost for good: every message ever sent can
//! be delivered, any number of times and in any order.
#![tactic(auto)]

mod error;
pub mod laws;
mod message;
mod session;
mod step;
mod world;

pub use error::WorldError;
pub use message::{PlainGroup, PlainMessage};
pub use session::PlainSession;
pub use step::{PlainOutcome, PlainStep};
pub use world::PlainWorld;
