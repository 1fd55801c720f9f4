//! The undoing of rows that a transaction has written: by the command abort, or by the writer that recovers a closed one.
//!
//! Each call is the step of that name in `master_model`: the state after it, the reply, the groups that it logs and the
//! messages that it sends. With want of memory nothing has changed.
#![tactic(auto)]

mod aborts;
mod undo;

pub use aborts::abort;
pub use undo::{log_one, undo_next};
