//! What a master does when a log store acknowledges a group of its log, and on a tick.
//!
//! Each call is the step of that name in `master_model`: the state after it, and the messages that are sent, in order.
//! With want of memory nothing has changed. So all that takes memory is made before the first change, of the state as
//! it will be; but for the acknowledgement itself, which takes none and is taken back.
#![tactic(auto)]

mod acks;
mod ends;
mod gone;
mod leaving;
mod ticks;
mod walk;

pub use acks::on_ack;
pub use ticks::ticked;
