//! Why a step is not done.
ghost use Rattle.std.specs.Prelude.{◌≡◌};

use std::alloc::AllocError;
use tm_base::NoMemory;

/// Why a step was not done. The world is as it was.
#[derive(Clone, Copy, Debug, PartialEq, Eq)]
pub enum WorldError {
    /// The step would send message number `2^32 - 1`.
    Full,
    /// Want of memory.
    NoMemory,
}

impl From<NoMemory> for WorldError {
    ghost use Rattle.net_world.specs.declared.error.WorldError.TheVariants.{NoMemory};

    ghost from_gives = { λ _ e. e ≡ NoMemory };

    fn from(_: NoMemory) -> Self {
        WorldError::NoMemory
    }
}

impl From<AllocError> for WorldError {
    ghost use Rattle.net_world.specs.declared.error.WorldError.TheVariants.{NoMemory};

    ghost from_gives = { λ _ e. e ≡ NoMemory };

    fn from(_: AllocError) -> Self {
        WorldError::NoMemory
    }
}
