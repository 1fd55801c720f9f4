//! Worked cases of the outside: streams, lines, disks.
//!
//! Tests alone, gathered above the crates that they try. A crate's own tests are proved with the whole crate once
//! more; here only the tests are.
#![tactic(auto)]

#[cfg(test)]
mod disks;
#[cfg(test)]
mod ports;
