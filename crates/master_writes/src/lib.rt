//! What a master does when a transaction writes a row that fits its leaf.
//!
//! The parts of the commands put and del: the row that is written, what stands in its way, and the writing of it. Each is
//! the part of that name in `master_model`. With want of memory nothing has changed: what may want it comes before the
//! first change, or is taken back.
#![tactic(auto)]

mod rows;
mod stops;
mod writes;

pub use rows::{row_put, valued};
pub use stops::{stopped_by_readers, stopped_by_row};
pub use writes::{Writing, row_key, write};
