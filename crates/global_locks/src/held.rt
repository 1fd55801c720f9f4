//! By writer, the pages that it may hold.
//!
//! Each page that a writer holds is among them, so that the rest of a takeover needs to look at these
//! alone, and not at each page that was ever leased.
ghost use Rattle.std.specs.Prelude.{◌≡◌, ◌&&◌, ℕ, false, cond, nat_eq, OnOk, OnErr, IsSome};
ghost use Rattle.lock_model.specs.State.{at, put};
ghost use Rattle.global_locks.specs.Inside.{may_hold, pages_of};

use crate::table::Table;
use std::alloc::Global;
use tm_base::{Mem, Page, Writer};

/// Numbers of pages.
pub(crate) type PageSet = Table<()>;

impl Table<PageSet> {
    /// Adds a page to those that a writer may hold.
    pub(crate) fn mark(&mut self, alloc: Global, writer: Writer, page: Page) -> Mem<()>
        ensures ok { OnOk result (self.new ≡ put self.old writer.0 (put (pages_of (at self.old writer.0)) page.0 tt)) }
        ensures err { OnErr result (self.new ≡ self.old) }
    {
        if self.get(writer.0).is_none() {
            let mut pages = Table::new(alloc);
            pages.put(page.0, ())?;
            self.put(writer.0, pages)?;
            return Ok(());
        }
        self.add(writer, page)?;
        Ok(())
    }

    /// Adds a page where the writer has some.
    fn add(&mut self, writer: Writer, page: Page) -> Mem<()>
        requires { IsSome (at self.old writer.0) }
        ensures ok { OnOk result (self.new ≡ put self.old writer.0 (put (pages_of (at self.old writer.0)) page.0 tt)) }
        ensures err { OnErr result (self.new ≡ self.old) }
    {
        let Some(place) = self.map.get_index_of(&writer.0) else {
            return Ok(());
        };
        let pages = &mut self.map[place];
        pages.put(page.0, ())?;
        Ok(())
    }

    /// Takes a page from those that a writer may hold.
    pub(crate) fn unmark(&mut self, writer: Writer, page: Page)
        ensures { (w p : ℕ) → may_hold self.new w p ≡ cond (nat_eq writer.0 w && nat_eq page.0 p) false (may_hold self.old w p) }
    {
        let Some(place) = self.map.get_index_of(&writer.0) else {
            return;
        };
        let pages = &mut self.map[place];
        pages.take(page.0);
    }
}
