//! Worked cases of what stands between a master and the other nodes: locks and leases.
//!
//! Tests alone, gathered above the crates that they try. A crate's own tests are proved with the whole crate once
//! more; here only the tests are.
#![tactic(auto)]

#[cfg(test)]
mod leases;
#[cfg(test)]
mod locks;
#[cfg(test)]
mod tags;
