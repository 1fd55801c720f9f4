//! Worked cases of the data that all crates share, and of the clock.
//!
//! Tests alone, gathered above the crates that they try. A crate's own tests are proved with the whole crate once
//! more; here only the tests are.
#![tactic(auto)]

#[cfg(test)]
mod clock;
#[cfg(test)]
mod copies;
#[cfg(test)]
mod data;
