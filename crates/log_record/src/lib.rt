//! Records and groups of a writer's log as bytes.
//!
//! Each group has one spelling. The readers and writers of groups and vectors serve the crates above,
//! whose messages have them as parts.
#![tactic(auto)]

mod group;
mod item;
mod learnt;

pub use group::{decode, decode_part, encode, encode_part, put_group, read_group};
pub use learnt::{put_vector, read_vector};
