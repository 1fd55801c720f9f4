//! How far a lease has come.
ghost use Rattle.std.specs.Prelude.{◌≡◌};

use tm_base::Stamp;

/// How far the lease of a page has come.
#[derive(Clone, Copy, Debug, PartialEq, Eq)]
pub enum Lease {
    /// There is none.
    None,
    /// The page is here, and may be changed.
    Held,
    /// The page is asked back: no change begins, and it goes once its last change is durable.
    Recalled,
    /// The page was given back, which isn't acknowledged yet.
    Releasing,
}

/// What a master keeps of a page.
#[derive(Clone, Copy, Debug, PartialEq, Eq)]
pub struct PageLease {
    /// The greatest epoch that was seen here, 0 where there was none.
    pub epoch: u32,
    /// How far the lease of that epoch has come.
    pub state: Lease,
    /// The stamp of the last change that is known here.
    pub stamp: Stamp,
}
