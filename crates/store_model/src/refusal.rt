//! Why a page isn't answered.

use tm_base::{Stamp, Writer};

/// Why a page store doesn't answer a page. Where several hold, it is the first of them.
#[derive(Clone, Copy, Debug, PartialEq, Eq)]
pub enum ReadRefusal {
    /// The page is another store's.
    NotHere,
    /// The last roster is of the stamp `upto`, which is below the one asked for.
    RosterBehind { upto: Stamp },
    /// Groups of this writer were taken up to the stamp `upto`, which is below the one asked for, and it may
    /// have more: the least such writer.
    Behind { writer: Writer, upto: Stamp },
    /// No record of this stamp is held: the first that is missing on the way down from the version asked for.
    Missing { stamp: Stamp },
    /// The record of this stamp doesn't suit the version before it: the first such on the way up.
    Unfit { stamp: Stamp },
    /// Want of memory. The definitions never answer it.
    NoMemory,
}
