//! A master that has joined: what its writer works on, the last roster, and the recovery of a lost writer.
//!
//! Contracts see it as `specs/SeenLife.antt` has it, and name a master of `master_model` that is seen so: each call is
//! the step of that name in `master_model`, after which the master of the definitions is seen as the state is, with the
//! messages that are sent, in order. With want of memory nothing has changed. So what may fail comes first: messages,
//! copies and room are made before the first change.
#![tactic(auto)]

mod calls;
mod life_state;
mod roster;
mod scan;
mod takeover;

pub use calls::{on_closed, on_groups, on_sealed_at, on_taken};
pub use life_state::LifeState;
pub use roster::{on_recovered, on_roster, on_sealed};
