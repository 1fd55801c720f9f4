//! Redo: what a record of a log does to the image of its page.
//!
//! A page's image is what its records made of the first one, in the order of their stamps (redo from a
//! write-ahead log). A record says on which version it was made, so it can't be applied to another one,
//! nor twice.
#![tactic(auto)]

mod edits;
mod error;
mod first;
mod place;
mod redo;
mod suits;

pub use error::RedoError;
pub use first::initial;
pub use redo::{apply, prev_of};
