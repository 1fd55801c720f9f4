//! Want of memory.
ghost use Rattle.std.specs.Prelude.{◌≡◌};
ghost use Rattle.tm_lists.specs.declared.memory.NoMemory.{NoMemory};

use std::alloc::{AllocError, AllocFailed};

/// The memory that a call needed was not there. The call changed nothing, unless it says otherwise.
#[derive(Clone, Copy, Debug, PartialEq, Eq)]
pub struct NoMemory;

/// The answer of a call that can fail for want of memory alone.
pub type Mem<T> = Result<T, NoMemory>;

impl From<AllocError> for NoMemory {
    fn from(_: AllocError) -> Self {
        NoMemory
    }
}

impl<T: Drop> From<AllocFailed<T>> for NoMemory {
    fn from(_: AllocFailed<T>) -> Self {
        NoMemory
    }
}
