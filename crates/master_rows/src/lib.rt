//! What a master does when a transaction begins and reads rows.
//!
//! Each call is the command of that name in `master_model`: the state after it, the reply, and what is sent. With want
//! of memory nothing has changed: copies and messages are made before the first change. The parts of a read that writes
//! share stand here too: what lets a command through, the way to the leaf of a key, and whether a row or a tag of
//! another transaction stands in its way.
#![tactic(auto)]

mod gates;
mod paths;
mod reads;
mod standings;

pub use gates::{active, in_session, named};
pub use paths::{Way, row_at, use_path, walk, wants};
pub use reads::{begin, get};
pub use standings::{Standing, ask_fate, blocked, locked_by, stands};
