//! The images of the pages that a master works on: so many at most, the least recently used one goes first,
//! and none goes whose last change isn't durable.
#![tactic(auto)]

pub mod laws;
mod pool;

pub use pool::{Pool, PoolError};
