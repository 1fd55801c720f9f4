//! What a replica is: the order in which it applies the groups of the writers' logs, what it does with a message
//! and on a tick, and what it answers at its points.
//!
//! A replica reads the logs of all writers, and applies a group once every group that it may depend on was applied.
//! A point is all that was applied at a moment: a causally closed cut of whole groups. Reads are answered there.
#![tactic(auto)]

pub mod laws;
mod line;

pub use line::{EndMark, Line};
