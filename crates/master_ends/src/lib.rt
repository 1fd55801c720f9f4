//! The ends of transactions that a writer logs, and the groups that it sends.
//!
//! Each call is the step of that name in `master_model`: the state after it, with the reply, the groups and the messages,
//! in order. With want of memory nothing has changed: groups, copies and messages are made before the first change.
#![tactic(auto)]

mod beats;
mod commits;
mod ends;
mod sends;

pub use beats::on_want;
pub use commits::commit;
pub use ends::{answers_end, answers_logged, end, log_end};
pub use sends::appends;
