//! What is told of a list of events: the full vector of an event, and the rows and the map at a cut.
//!
//! Each call is exactly the definition, for every list of events and every cut.
#![tactic(auto)]

mod ended;
mod last_puts;
mod lists;
mod numbers;
mod own_events;
mod reached;
mod vector;

pub use lists::{map_at, rows_at};
pub use vector::full_vector;
