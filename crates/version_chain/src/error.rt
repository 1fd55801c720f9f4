//! Why a record wasn't added, why there is no version, and why an image wasn't kept.
ghost use Rattle.std.specs.Prelude.{◌≡◌};

use tm_base::{NoMemory, Stamp};

/// Why a record wasn't added. The chains are then as they were.
#[derive(Clone, Copy, Debug, PartialEq, Eq)]
pub enum AddError {
    /// Another record of this stamp is held of the page.
    Differs { stamp: Stamp },
    /// Want of memory.
    NoMemory,
}

impl From<NoMemory> for AddError {
    ghost use Rattle.version_chain.specs.declared.error.AddError.TheVariants.{NoMemory};

    ghost from_gives = { λ _ e. e ≡ NoMemory };

    fn from(_: NoMemory) -> Self {
        AddError::NoMemory
    }
}

/// Why a page's version wasn't made.
#[derive(Clone, Copy, Debug, PartialEq, Eq)]
pub enum VersionError {
    /// No record of this stamp is held: the first that is missing on the way down from the stamp asked for.
    Missing { stamp: Stamp },
    /// The record of this stamp doesn't suit the version before it: the first such on the way up.
    Unfit { stamp: Stamp },
    /// Want of memory.
    NoMemory,
}

impl From<NoMemory> for VersionError {
    ghost use Rattle.version_chain.specs.declared.error.VersionError.TheVariants.{NoMemory};

    ghost from_gives = { λ _ e. e ≡ NoMemory };

    fn from(_: NoMemory) -> Self {
        VersionError::NoMemory
    }
}

/// Why an image wasn't kept. The chains are then as they were.
#[derive(Clone, Copy, Debug, PartialEq, Eq)]
pub enum KeepError {
    /// The page's version at the image's stamp wasn't made, since no record of this stamp is held.
    Missing { stamp: Stamp },
    /// It wasn't made, since the record of this stamp doesn't suit the version before it.
    Unfit { stamp: Stamp },
    /// It is another image. The stamp is the image's.
    Differs { stamp: Stamp },
    /// Want of memory.
    NoMemory,
}

impl From<NoMemory> for KeepError {
    ghost use Rattle.version_chain.specs.declared.error.KeepError.TheVariants.{NoMemory};

    ghost from_gives = { λ _ e. e ≡ NoMemory };

    fn from(_: NoMemory) -> Self {
        KeepError::NoMemory
    }
}
