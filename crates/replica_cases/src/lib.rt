//! Worked cases of replicas: reads at their points, by hand.
//!
//! Tests alone, gathered above the crates that they try. A crate's own tests are proved with the whole crate once
//! more; here only the tests are.
#![tactic(auto)]

#[cfg(test)]
mod orders;
#[cfg(test)]
mod views;
