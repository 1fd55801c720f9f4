//! Writers, stamps, pages and transactions: the numbers that the system counts by.

ghost use Rattle.std.specs.Prelude.{◌≡◌};

use crate::{Mem, TryCopy};

/// One life of a master: a number from 1, drawn by the lock manager for a master and its boot number.
#[derive(Clone, Copy, Debug, PartialEq, Eq, PartialOrd, Ord, Hash)]
pub struct Writer(pub u32);

/// A point of the scalar clock (Lamport 1978), from 0 to [`MAX_STAMP`].
#[derive(Clone, Copy, Debug, PartialEq, Eq, PartialOrd, Ord, Hash)]
pub struct Stamp(pub u64);

/// The greatest stamp: `2^63 - 1`.
pub const MAX_STAMP: u64 = 9_223_372_036_854_775_807;

/// A page of the shared storage, numbered from 1. Pages 1 to 1,024 are the roots of the tables of
/// these numbers; the lock manager hands out the ones from 1,025 on.
#[derive(Clone, Copy, Debug, PartialEq, Eq, PartialOrd, Ord, Hash)]
pub struct Page(pub u32);

/// A transaction, by its writer and its number there, from 1.
#[derive(Clone, Copy, Debug, PartialEq, Eq, PartialOrd, Ord, Hash)]
pub struct Txn {
    pub writer: Writer,
    pub number: u32,
}

impl TryCopy for Txn {
    fn copy(&self) -> Mem<Txn> {
        Ok(*self)
    }
}

impl TryCopy for Page {
    fn copy(&self) -> Mem<Page> {
        Ok(*self)
    }
}
