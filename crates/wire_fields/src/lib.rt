//! The fields of which all stored and sent values are made, as bytes.
//!
//! Each field has one spelling. A reader takes a field from the front of the bytes and gives its value
//! and the bytes behind it, or says what is wrong with it and where. The values are plain numbers,
//! slices of bytes and lists of pairs of numbers: the crates above make their own types of them.
//!
//! Each reader is told by `total` how many bytes the whole value has from its first byte on. So a field
//! that begins with `bytes` lies at the offset `total` less the length of `bytes`.
#![tactic(auto)]

mod error;
mod laws;
mod number;
mod text;
mod vector;
mod writing;

pub use error::ReadError;
pub use laws::each_field_has_one_spelling;
pub use number::{check_end, offset, read_kind, read_u8, read_u16, read_u32, read_u64};
pub use text::{read_before, read_fence, read_key, read_value};
pub use vector::read_vector;
pub use writing::{
    put_before, put_fence, put_key, put_u8, put_u16, put_u32, put_u64, put_value, put_vector,
};

#[cfg(test)]
mod tests;
