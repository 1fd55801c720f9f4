//! Worked cases of the plain machine, and of the world of one master and one log store.
//!
//! Tests alone, gathered above the crates that they try. A crate's own tests are proved with the whole crate once
//! more; here only the tests are.
#![tactic(auto)]

#[cfg(test)]
mod cuts;
#[cfg(test)]
mod machine;
#[cfg(test)]
mod plain;
