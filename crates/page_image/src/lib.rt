//! Images of pages as bytes.
//!
//! Each image has one spelling. The readers and writers of rows, children and bodies serve the crates
//! above, whose records and messages have them as parts.
#![tactic(auto)]

mod body;
mod image;
mod place;
mod rows;

pub use body::{kind_of, put_body, read_body};
pub use image::{decode, encode, put_image, read_image};
pub use place::{own_key, read_txn};
pub use rows::{put_row, put_txn, read_row};
