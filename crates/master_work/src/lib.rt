//! The state of a writer, which is one life of a master, and what is read of it.
//!
//! Its parts are public, so that the crates above may borrow them apart: each keeps its own invariant. Contracts see
//! it as the state of `master_model`.
#![tactic(auto)]

mod answer;
mod clocked_log;
mod logging;
mod readers;
mod sessions;
mod store_count;
mod tags;
mod work_state;

pub use answer::Answer;
pub use clocked_log::ClockedLog;
pub use sessions::{Sessions, WrittenRow};
pub use store_count::StoreCount;
pub use tags::{drop_tags, end_tags};
pub use work_state::WorkState;
