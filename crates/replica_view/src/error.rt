//! Why no point is published, and why a read is refused.
ghost use Rattle.std.specs.Prelude.{◌≡◌};

use tm_base::{NoMemory, Stamp, Writer};

/// Why no point is published. Where several hold, it is the first of them.
#[derive(Clone, Copy, Debug, PartialEq, Eq)]
pub enum PublishError {
    /// Groups of this writer up to this stamp aren't applied yet: the first such entry of the bound.
    Waits { writer: Writer, stamp: Stamp },
    /// There are 65,536 points.
    Full,
    /// Want of memory. The definitions never answer it.
    NoMemory,
}

impl From<NoMemory> for PublishError {
    ghost use Rattle.replica_view.specs.declared.error.PublishError.TheVariants.{NoMemory};

    ghost from_gives = { λ _ e. e ≡ NoMemory };

    fn from(_: NoMemory) -> Self {
        PublishError::NoMemory
    }
}

/// Why a read is refused. Where several hold, it is the first of them.
#[derive(Clone, Copy, Debug, PartialEq, Eq)]
pub enum ViewError {
    /// No such point was published in this life.
    NoPoint,
    /// Tables are numbered 1 to 1,024.
    NoTable,
    /// The first page of the walk that can't be used: the record of this stamp is missing or doesn't suit, or the page's
    /// image of this stamp isn't one that the walk expects.
    Unfit { stamp: Stamp },
    /// Want of memory. The definitions never answer it.
    NoMemory,
}

impl From<NoMemory> for ViewError {
    ghost use Rattle.replica_view.specs.declared.error.ViewError.TheVariants.{NoMemory};

    ghost from_gives = { λ _ e. e ≡ NoMemory };

    fn from(_: NoMemory) -> Self {
        ViewError::NoMemory
    }
}
