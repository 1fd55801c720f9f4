//! The table of pages.
ghost use Rattle.std.specs.Prelude.{◌≡◌, ◌<◌, ◌^◌, ◌-◌, [], IfOk, OnOk, OnErr};
ghost use Rattle.std.specs.Option.{option_copied};
ghost use Rattle.lock_model.specs.State.{at, put, put_all, or_unused, unused_page, holder_of, leased, left};
ghost use Rattle.lock_model.specs.Step.{freed, is_any, taken};

use crate::held::PageSet;
use crate::pages::first_lease;
use crate::table::Table;
use lock_model::PageEntry;
use std::alloc::Global;
use std::marker::Model;
use tm_base::{Mem, Page, Stamp, TagList, Vector, Writer};

/// The pages that were ever leased. Contracts see the list of their entries.
#[derive(Drop)]
pub(crate) struct Pages {
    entries: Table<PageEntry>,
    /// By writer, the pages that it may hold: those that it holds, and those that a takeover listed, until
    /// its last part.
    held: Table<PageSet>,
}

impl Model for Pages {
    ghost use Rattle.std.specs.Prelude.{List, ℕ};
    ghost use Rattle.lock_model.specs.declared.page.PageEntry.{PageEntry};
    ghost use Rattle.global_locks.specs.Inside.{IsIndexed};

    ghost Value = { List (ℕ × PageEntry) };

    ghost view = { λ p. p.entries };

    ghost invariant = { λ p. IsIndexed p.entries p.held };
}

impl Pages {
    /// No pages.
    pub(crate) fn new(alloc: Global) -> Pages
        ensures { result ≡ [] }
    {
        Pages {
            entries: Table::new(alloc),
            held: Table::new(alloc),
        }
    }

    /// What is kept of a page, if it was ever leased.
    pub(crate) fn get(&self, page: Page) -> Option<&PageEntry>
        ensures { option_copied result ≡ at self.now page.0 }
    {
        self.entries.get(page.0)
    }

    /// Who holds a page.
    pub(crate) fn holder(&self, page: Page) -> Option<Writer>
        ensures { result ≡ holder_of (or_unused (at self.now page.0)) }
    {
        self.entries.holder(page)
    }

    /// How often a page was leased so far.
    pub(crate) fn epoch(&self, page: Page) -> u32
        ensures { result ≡ (or_unused (at self.now page.0)).epoch }
    {
        self.entries.epoch(page)
    }

    /// Leases a page to a writer at the next epoch. With want of memory nothing changes.
    pub(crate) fn lease(&mut self, alloc: Global, page: Page, writer: Writer) -> Mem<()>
        requires { (or_unused (at self.old page.0)).epoch < 2 ^ 32 - 1 }
        ensures ok { OnOk result (self.new ≡ put self.old page.0 (leased (or_unused (at self.old page.0)) writer.0)) }
        ensures err { OnErr result (self.new ≡ self.old) }
    {
        self.held.mark(alloc, writer, page)?;
        self.entries.lease(alloc, page, writer)?;
        Ok(())
    }

    /// Leases a page that no table used to a writer. With want of memory nothing changes.
    pub(crate) fn give(&mut self, alloc: Global, page: Page, writer: Writer) -> Mem<()>
        ensures ok { OnOk result (self.new ≡ put self.old page.0 (leased unused_page writer.0)) }
        ensures err { OnErr result (self.new ≡ self.old) }
    {
        let entry = first_lease(alloc, writer)?;
        self.held.mark(alloc, writer, page)?;
        self.entries.put(page.0, entry)?;
        Ok(())
    }

    /// Frees a page, as its holder left it. With want of memory nothing changes.
    pub(crate) fn leave(
        &mut self,
        alloc: Global,
        page: Page,
        stamp: Stamp,
        tags: &TagList,
        vector: &Vector,
    ) -> Mem<()>
        ensures ok { OnOk result (self.new ≡ put self.old page.0 (left (or_unused (at self.old page.0)) stamp.0 tags.now vector.now)) }
        ensures err { OnErr result (self.new ≡ self.old) }
    {
        let before = self.entries.holder(page);
        self.entries.leave(alloc, page, stamp, tags, vector)?;
        let Some(writer) = before else {
            return Ok(());
        };
        self.held.unmark(writer, page);
        Ok(())
    }

    /// Frees the pages of a part of a takeover: those of the writer that are listed and, with `rest`, its
    /// others. Says whether there were any. The memory is taken before the first change, so that with
    /// want of it nothing changes.
    pub(crate) fn free(
        &mut self,
        alloc: Global,
        writer: Writer,
        rest: bool,
        listed: &Table<u64>,
        vector: &Vector,
    ) -> Mem<bool>
        ensures pages { OnOk result (self.new ≡ taken self.old writer.0 rest listed.now vector.now) }
        ensures any { IfOk result (λ any. any ≡ is_any (freed self.old writer.0 rest listed.now vector.now)) }
        ensures err { OnErr result (self.new ≡ self.old) }
    {
        let pages = self.to_free(alloc, writer, rest, listed, vector)?;
        let any = !pages.is_empty();
        self.entries.put_all(pages)?;
        if !rest {
            return Ok(any);
        }
        self.held.take(writer.0);
        Ok(any)
    }

    /// The pages that a part of a takeover frees, as they are then.
    fn to_free(
        &self,
        alloc: Global,
        writer: Writer,
        rest: bool,
        listed: &Table<u64>,
        vector: &Vector,
    ) -> Mem<Vec<(u32, PageEntry)>>
        ensures taken { IfOk result (λ pages. put_all self.now pages.items ≡ taken self.now writer.0 rest listed.now vector.now) }
        ensures any { IfOk result (λ pages. is_any pages.items ≡ is_any (freed self.now writer.0 rest listed.now vector.now)) }
    {
        self.entries.numbers_differ();
        if !rest {
            let pages = self.entries.freed_listed(alloc, writer, listed, vector)?;
            return Ok(pages);
        }
        let Some(held) = self.held.get(writer.0) else {
            return Ok(Vec::new(alloc));
        };
        let pages = self
            .entries
            .freed_held(alloc, writer, listed, vector, held)?;
        Ok(pages)
    }
}
