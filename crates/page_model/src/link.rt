//! A change of a page that is held.

use tm_base::{Record, Stamp, Writer};

/// A record that changes a page, with the writer and the stamp of its group.
#[derive(Debug, Drop)]
pub struct Link {
    pub stamp: Stamp,
    pub writer: Writer,
    pub change: Record,
}
