//! What a master tells of a page that it gives back.

use tm_base::{Stamp, TagList, Vector};

/// The body of a page's release. It is the same at each time that it is sent.
#[derive(Drop)]
pub struct Left {
    /// The epoch of the lease that ends.
    pub epoch: u32,
    /// The stamp of the page's last change.
    pub stamp: Stamp,
    /// The shared locks on the page.
    pub tags: TagList,
    /// What is known here of each writer.
    pub vector: Vector,
}
