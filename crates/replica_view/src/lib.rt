//! A replica: it takes the groups of every writer's log, applies them in their causal order, and answers reads at the points
//! that were published.
//!
//! Its step, its tick, what it publishes and what it answers are exactly those of `replica_model`.
#![tactic(auto)]

mod error;
mod intake;
mod reads;
mod replica;
mod scan;
mod state;

pub use error::{PublishError, ViewError};
pub use replica::Replica;
