//! What is kept of a page.
ghost use Rattle.std.specs.Prelude.{◌≡◌};

use tm_base::{ItemList, Stamp, TagList, Vector, Writer};

/// Writers in order.
pub type WriterList = ItemList<Writer>;

/// What the lock manager keeps of a page: its lease, and what the last holder left.
#[derive(Drop)]
pub struct PageEntry {
    /// Who has the page leased: none, or one writer.
    pub holders: WriterList,
    /// How often the page was leased so far, which numbers its leases from 1.
    pub epoch: u32,
    /// The stamp of the page's last change, as it was left.
    pub stamp: Stamp,
    /// The shared locks on the page, as they were left.
    pub tags: TagList,
    /// What is known of each writer by whoever has had the page.
    pub vector: Vector,
}
