//! The pages of one store.
ghost use Rattle.std.specs.Prelude.{◌≡◌, ◌≤◌};
ghost use Rattle.store_model.specs.PageState.{is_of};
ghost use Rattle.store_model.specs.PageStep.{is_kept};

use page_redo::prev_of;
use tm_base::{Record, Stamp};

/// Which of the stores it is, from 1, and how many there are: the pages are dealt out to them in turn.
#[derive(Clone, Copy)]
pub(crate) struct Share {
    pub(crate) number: u8,
    pub(crate) stores: u8,
}

impl Share {
    /// Whether a page is the store's.
    pub(crate) fn has(self, page: u32) -> bool
        requires { 1 ≤ self.stores }
        ensures { result ≡ is_of self.number self.stores page }
    {
        u32::from(self.number) == 1 + page % u32::from(self.stores)
    }

    /// Whether a record of a group of this stamp is kept: it changes a page of the store, from a version
    /// before the stamp.
    pub(crate) fn keeps(self, change: &Record, stamp: Stamp) -> bool
        requires { 1 ≤ self.stores }
        ensures { result ≡ is_kept self.number self.stores stamp.0 change.now }
    {
        let Some(page) = change.page() else {
            return false;
        };
        self.has(page.0) && prev_of(change).0 < stamp.0
    }
}
