//! Works that the program `rounds` does again and again: bytes are made of values and values of bytes, records of a page
//! are added and read, rows are put into a table and looked for, a replica applies groups and answers reads.
//!
//! What a work needs is made first. Each gives a checksum of its rounds, which its contract tells: a round that is left out,
//! or one whose answer isn't the expected one, would change it or be refused.
#![tactic(auto)]

pub mod codec;
mod failure;
pub mod pages;
pub mod replica;
mod sample;
mod shelf;
pub mod tree;

pub use failure::Failure;
pub use sample::{Sample, bytes};
