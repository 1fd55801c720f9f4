//! Why a call of a journal is refused.
ghost use Rattle.std.specs.Prelude.{◌≡◌};
ghost use Rattle.journal_core.specs.declared.error.OpenError.TheVariants as open_error;
ghost use Rattle.journal_core.specs.declared.error.AppendError.TheVariants as append_error;

use std::alloc::{AllocError, AllocFailed};
use tm_base::NoMemory;
use tm_ports::Failed;

/// Why a journal was not opened.
#[derive(Clone, Copy, Debug, PartialEq, Eq)]
pub enum OpenError {
    /// The disk failed.
    DiskFault,
    /// At this offset of the file, in bytes, stands an open gate whose record isn't whole.
    Damaged { at: u64 },
    /// Want of memory.
    NoMemory,
}

impl From<Failed> for OpenError {
    ghost from_gives = { λ _ e. e ≡ open_error.DiskFault };

    fn from(_: Failed) -> OpenError {
        OpenError::DiskFault
    }
}

impl From<NoMemory> for OpenError {
    ghost from_gives = { λ _ e. e ≡ open_error.NoMemory };

    fn from(_: NoMemory) -> OpenError {
        OpenError::NoMemory
    }
}

impl From<AllocError> for OpenError {
    ghost from_gives = { λ _ e. e ≡ open_error.NoMemory };

    fn from(_: AllocError) -> OpenError {
        OpenError::NoMemory
    }
}

impl<T: Drop> From<AllocFailed<T>> for OpenError {
    ghost from_gives = { λ _ e. e ≡ open_error.NoMemory };

    fn from(_: AllocFailed<T>) -> OpenError {
        OpenError::NoMemory
    }
}

/// Why a record was not appended.
#[derive(Clone, Copy, Debug, PartialEq, Eq)]
pub enum AppendError {
    /// The disk failed. The record may be there or not: the journal is to be opened again.
    DiskFault,
    /// An earlier append failed.
    Closed,
}

impl From<Failed> for AppendError {
    ghost from_gives = { λ _ e. e ≡ append_error.DiskFault };

    fn from(_: Failed) -> AppendError {
        AppendError::DiskFault
    }
}

/// A disk whose journal was not opened, and why.
#[derive(Drop)]
pub struct Unopened<D> {
    /// The disk.
    pub disk: D,
    /// What was wrong.
    pub error: OpenError,
}
