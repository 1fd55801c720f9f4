//! Worked cases of pages and trees: records applied, a pool of images, paths and splits.
//!
//! Tests alone, gathered above the crates that they try. A crate's own tests are proved with the whole crate once
//! more; here only the tests are.
#![tactic(auto)]

#[cfg(test)]
mod pools;
#[cfg(test)]
mod redo;
#[cfg(test)]
mod trees;
