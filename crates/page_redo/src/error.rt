//! Why a record wasn't applied.
ghost use Rattle.std.specs.Prelude.{◌≡◌};

use tm_base::{NoMemory, Stamp};

/// Why a record wasn't applied. The image is then as it was.
#[derive(Clone, Copy, Debug, PartialEq, Eq)]
pub enum RedoError {
    /// The record was made on the version of stamp `wants`, and the image is that of stamp `has`.
    WrongPrev { has: Stamp, wants: Stamp },
    /// The page doesn't hold what the record changes, or would become too great for an image.
    Unfit,
    /// Want of memory.
    NoMemory,
}

impl From<NoMemory> for RedoError {
    ghost use Rattle.page_redo.specs.declared.error.RedoError.TheVariants.{NoMemory};

    ghost from_gives = { λ _ e. e ≡ NoMemory };

    fn from(_: NoMemory) -> Self {
        RedoError::NoMemory
    }
}
