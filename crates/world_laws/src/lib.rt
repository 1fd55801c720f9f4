//! The invariant of the world, put together from what holds of each node.
#![tactic(auto)]

pub mod apart;
pub mod begin;
pub mod frame;
pub mod locks;
pub mod masters;
pub mod messages;
pub mod runs;
pub mod spelled;
pub mod stores;
