//! The entries of pages.
ghost use Rattle.std.specs.Prelude.{◌≡◌, ◌+◌, ◌<◌, ◌^◌, ◌-◌, ◌∷◌, [], List, ℕ, true, false, IfOk, OnOk, OnErr, IsSome};
ghost use Rattle.lock_model.specs.State.{at, put, or_unused, unused_page, holder_of, is_holder, leased, left};
ghost use Rattle.lock_model.specs.Step.{freed_entry, stamps};
ghost use Rattle.global_locks.specs.Inside.{freed_among, freed_page};

use crate::held::PageSet;
use crate::table::Table;
use lock_model::{PageEntry, WriterList};
use std::alloc::Global;
use tm_base::{ItemList, Mem, Page, PageStampList, Stamp, TagList, TryCopy, Vector, Writer};

impl Table<PageEntry> {
    /// Who holds a page.
    pub(crate) fn holder(&self, page: Page) -> Option<Writer>
        ensures { result ≡ holder_of (or_unused (at self.now page.0)) }
    {
        match self.get(page.0) {
            Some(entry) => holder_of(entry),
            None => None,
        }
    }

    /// How often a page was leased so far.
    pub(crate) fn epoch(&self, page: Page) -> u32
        ensures { result ≡ (or_unused (at self.now page.0)).epoch }
    {
        match self.get(page.0) {
            Some(entry) => entry.epoch,
            None => 0,
        }
    }

    /// Leases a page to a writer at the next epoch. With want of memory nothing changes.
    pub(crate) fn lease(&mut self, alloc: Global, page: Page, writer: Writer) -> Mem<()>
        requires { (or_unused (at self.old page.0)).epoch < 2 ^ 32 - 1 }
        ensures ok { OnOk result (self.new ≡ put self.old page.0 (leased (or_unused (at self.old page.0)) writer.0)) }
        ensures err { OnErr result (self.new ≡ self.old) }
    {
        let lease = first_lease(alloc, writer)?;
        if self.get(page.0).is_none() {
            self.put(page.0, lease)?;
            return Ok(());
        }
        self.renew(page, lease.holders);
        Ok(())
    }

    /// Gives a page that was leased before to these holders at the next epoch.
    fn renew(&mut self, page: Page, holders: WriterList)
        requires there { IsSome (at self.old page.0) }
        requires next { (or_unused (at self.old page.0)).epoch < 2 ^ 32 - 1 }
        ensures { self.new ≡ put self.old page.0 (record (or_unused (at self.old page.0)) { holders = holders; epoch = (or_unused (at self.old page.0)).epoch + 1 }) }
    {
        let Some(at) = self.map.get_index_of(&page.0) else {
            return;
        };
        let entry = &mut self.map[at];
        entry.holders = holders;
        entry.epoch += 1;
    }

    /// Frees a page, as its holder left it. With want of memory nothing changes.
    pub(crate) fn leave(
        &mut self,
        alloc: Global,
        page: Page,
        stamp: Stamp,
        tags: &TagList,
        vector: &Vector,
    ) -> Mem<()>
        ensures ok { OnOk result (self.new ≡ put self.old page.0 (left (or_unused (at self.old page.0)) stamp.0 tags.now vector.now)) }
        ensures err { OnErr result (self.new ≡ self.old) }
    {
        let entry = match self.get(page.0) {
            Some(entry) => left(alloc, entry, stamp, tags, vector)?,
            None => left(alloc, &unused_page(alloc), stamp, tags, vector)?,
        };
        self.put(page.0, entry)?;
        Ok(())
    }

    /// Of the listed pages those that a part of a takeover frees, as they are then.
    pub(crate) fn freed_listed(
        &self,
        alloc: Global,
        writer: Writer,
        listed: &Table<u64>,
        vector: &Vector,
    ) -> Mem<Vec<(u32, PageEntry)>>
        ensures { IfOk result (λ pages. pages.items ≡ freed_among self.now writer.0 false listed.now vector.now listed.now) }
    {
        let mut pages = Vec::new(alloc);
        for (page, _stamp) in listed.map.iter() {
            if let Some(freed) = self.freed_page(alloc, *page, writer, false, listed, vector)? {
                pages.push((*page, freed))?;
            }
        }
        Ok(pages)
    }

    /// Of the pages that a writer may hold those that the rest of a takeover frees, as they are then.
    pub(crate) fn freed_held(
        &self,
        alloc: Global,
        writer: Writer,
        listed: &Table<u64>,
        vector: &Vector,
        held: &PageSet,
    ) -> Mem<Vec<(u32, PageEntry)>>
        ensures { IfOk result (λ pages. pages.items ≡ freed_among self.now writer.0 true listed.now vector.now held.now) }
    {
        let mut pages = Vec::new(alloc);
        for (page, _mark) in held.map.iter() {
            if let Some(freed) = self.freed_page(alloc, *page, writer, true, listed, vector)? {
                pages.push((*page, freed))?;
            }
        }
        Ok(pages)
    }

    /// What a part of a takeover makes of a page, if it frees it.
    fn freed_page(
        &self,
        alloc: Global,
        page: u32,
        writer: Writer,
        rest: bool,
        listed: &Table<u64>,
        vector: &Vector,
    ) -> Mem<Option<PageEntry>>
        ensures { IfOk result (λ freed. freed ≡ freed_page writer.0 rest listed.now vector.now page (at self.now page)) }
    {
        let Some(entry) = self.get(page) else {
            return Ok(None);
        };
        let freed = freed_entry(alloc, page, entry, writer, rest, listed, vector)?;
        Ok(freed)
    }
}

/// Who holds a page.
fn holder_of(entry: &PageEntry) -> Option<Writer>
    ensures { result ≡ holder_of entry.now }
{
    entry.holders.get(0).copied()
}

/// A page that was never leased.
fn unused_page(alloc: Global) -> PageEntry
    ensures { result ≡ unused_page }
{
    PageEntry {
        holders: ItemList::new(alloc),
        epoch: 0,
        stamp: Stamp(0),
        tags: ItemList::new(alloc),
        vector: Vector::new(alloc),
    }
}

/// A page that no table used, once it is leased to a writer.
pub(crate) fn first_lease(alloc: Global, writer: Writer) -> Mem<PageEntry>
    ensures { IfOk result (λ page. page ≡ leased unused_page writer.0) }
{
    let mut page = unused_page(alloc);
    page.holders.push(writer)?;
    page.epoch = 1;
    Ok(page)
}

/// The page once it is left with this stamp, these tags and this vector.
fn left(
    alloc: Global,
    entry: &PageEntry,
    stamp: Stamp,
    tags: &TagList,
    vector: &Vector,
) -> Mem<PageEntry>
    ensures { IfOk result (λ page. page ≡ left entry.now stamp.0 tags.now vector.now) }
{
    Ok(PageEntry {
        holders: ItemList::new(alloc),
        epoch: entry.epoch,
        stamp,
        tags: tags.copy()?,
        vector: entry.vector.joined(vector)?,
    })
}

/// What a part of a takeover makes of a page, if it frees it.
fn freed_entry(
    alloc: Global,
    page: u32,
    entry: &PageEntry,
    writer: Writer,
    rest: bool,
    listed: &Table<u64>,
    vector: &Vector,
) -> Mem<Option<PageEntry>>
    ensures { IfOk result (λ freed. freed ≡ freed_entry writer.0 rest listed.now vector.now page entry.now) }
{
    let Some(holder) = holder_of(entry) else {
        return Ok(None);
    };
    if holder.0 != writer.0 {
        return Ok(None);
    }
    let stamp = match listed.get(page) {
        Some(stamp) => Stamp(entry.stamp.0.max(*stamp)),
        None if rest => entry.stamp,
        None => return Ok(None),
    };
    Ok(Some(left(alloc, entry, stamp, &entry.tags, vector)?))
}

/// The listed stamps by page.
pub(crate) fn stamps(alloc: Global, pages: &PageStampList) -> Mem<Table<u64>>
    ensures { IfOk result (λ table. table ≡ stamps [] pages.now) }
{
    let mut table = Table::new(alloc);
    for listed in pages.as_slice() {
        table.put(listed.page.0, listed.stamp.0)?;
    }
    Ok(table)
}
