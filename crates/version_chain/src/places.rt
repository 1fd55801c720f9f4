//! Pages at stamps.

use tm_base::{ItemList, Mem, Page, Stamp, TryCopy, Writer};

/// A page at a stamp. Places are ordered by their stamps, and those of one stamp by their pages.
#[derive(Clone, Copy, Debug, PartialEq, Eq, PartialOrd, Ord)]
pub struct Place {
    pub stamp: Stamp,
    pub page: Page,
}

impl TryCopy for Place {
    fn copy(&self) -> Mem<Place> {
        Ok(*self)
    }
}

/// Places in order.
pub type PlaceList = ItemList<Place>;

/// The place of a record, with its writer. They are ordered by the writers, and those of one writer by their places.
#[derive(Clone, Copy, Debug, PartialEq, Eq, PartialOrd, Ord)]
pub(crate) struct Written {
    pub(crate) writer: Writer,
    pub(crate) at: Place,
}
