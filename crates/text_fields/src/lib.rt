//! The fields of a line of text: words parted by a blank, decimal numbers and hexadecimal bytes.
//!
//! Each field has one spelling. A reader gives the value that a word spells, and none exactly where it
//! spells no value within the bounds; a printer adds that one spelling to a text.
#![tactic(auto)]

mod decimal_field;
mod hex_field;
mod words;

pub use decimal_field::{push_decimal, read_u8, read_u16, read_u32, read_u64};
pub use hex_field::{print_hex, read_hex};
pub use words::split_word;
