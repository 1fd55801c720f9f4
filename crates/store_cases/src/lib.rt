//! Worked cases of logs and page stores: what is logged, kept and answered.
//!
//! Tests alone, gathered above the crates that they try. A crate's own tests are proved with the whole crate once
//! more; here only the tests are.
#![tactic(auto)]

#[cfg(test)]
mod chains;
#[cfg(test)]
mod logs;
#[cfg(test)]
mod numbers;
#[cfg(test)]
mod pages;
#[cfg(test)]
mod writers;
