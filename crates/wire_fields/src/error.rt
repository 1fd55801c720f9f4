//! Why bytes could not be read.
ghost use Rattle.std.specs.Prelude.{◌≡◌};
ghost use Rattle.wire_fields.specs.declared.error.ReadError.TheVariants.{NoMemory};

use std::alloc::{AllocError, AllocFailed};

/// What is wrong with the bytes: the cause and the offset, in bytes from 0, of the first field in
/// reading order that is wrong.
#[derive(Clone, Copy, Debug, PartialEq, Eq)]
pub enum ReadError {
    /// The bytes end inside the field.
    Truncated { at: usize },
    /// A number is outside its range.
    Range { at: usize },
    /// No kind has this number.
    Kind { at: usize },
    /// The value has another spelling, or none: an order is broken, a field repeats another one, a
    /// value is too large, or bytes stand behind it.
    NotCanonical { at: usize },
    /// Want of memory.
    NoMemory,
}

impl From<AllocError> for ReadError {
    ghost from_gives = { λ _ e. e ≡ NoMemory };

    fn from(_: AllocError) -> ReadError {
        ReadError::NoMemory
    }
}

impl<T: Drop> From<AllocFailed<T>> for ReadError {
    ghost from_gives = { λ _ e. e ≡ NoMemory };

    fn from(_: AllocFailed<T>) -> ReadError {
        ReadError::NoMemory
    }
}
