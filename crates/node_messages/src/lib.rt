//! Messages between nodes as bytes.
//!
//! Each message has one spelling: the sender, the receiver, the stamp, the number of its kind, and what
//! the kind has. Groups, images, vectors, lists and nodes are read and written by the crates below.
#![tactic(auto)]

mod end_note;
mod lease_note;
mod log_note;
mod message;
mod page_note;
mod shape;

pub use message::{decode, encode};
