//! What a master is: its state, and what it does with a command, with a message and on a tick.
//!
//! A master is one life of a node that takes commands. It leases pages from the lock manager, works on their
//! images in a pool, grants locks on the keys of the leaves that it holds, and logs each change as a group that
//! three log stores keep. `specs/` has its state as plain data and its step as total functions: to the state
//! after, the reply, the groups that are logged and the messages that are sent, in order.
#![tactic(auto)]

pub mod laws;
mod left;
mod recovery;
mod session;

pub use left::Left;
pub use recovery::Stage;
pub use session::{Own, Progress};
