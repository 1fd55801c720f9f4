//! The pages that were changed, with places that are made before they are needed.
ghost use Rattle.std.specs.Prelude.{◌≡◌, ◌≤◌, ◌^◌, ◌*◌, None, Some, IsSome, IfOk, OnOk, OnErr, length, nat_le};
ghost use Rattle.std.specs.FinMap as fin;
ghost use Rattle.master_model.specs.Recovery.{is_last, part_of};
ghost use Rattle.master_recovery.specs.Places.{HasAll, page_key, stamp_value, valued, with_items};
ghost use Rattle.master_recovery.specs.Seen.{listed};

use std::alloc::Global;
use std::collections::BTreeMap;
use std::marker::Model;
use tm_base::{Mem, NoMemory, Page, PageStamp, PageStampList, Stamp};

/// There are no more pages than this: as many as there are numbers of pages.
const MOST: usize = 4_294_967_296;

/// So many pages are taken over at once.
const PART: usize = 65_536;

/// A place for each of some pages, with the stamp of its last change; an empty place counts as none. So pages can be
/// noted without memory once there are places for them. Contracts see the finite map of the places.
#[derive(Drop)]
pub(crate) struct PagePlaces {
    places: BTreeMap<u32, Option<u64>>,
}

impl Model for PagePlaces {
    ghost use Rattle.std.specs.Prelude.{ℕ};
    ghost use Rattle.std.specs.Coded.{coded_option, coded_ℕ};
    ghost use Rattle.std.specs.FinMap as fin;
    ghost use Rattle.std.specs.Ordering.{nat_cmp};
    ghost use Rattle.std.specs.declared.option.Option.{Option};
    ghost use Rattle.tm_data.specs.Maps.{as_map};
    ghost use Rattle.std.specs.Prelude.{◌≤◌, ◌^◌};
    ghost use Rattle.std.specs.BTreeMap.{btree_map_len};

    ghost Value = { fin.FinMap nat_cmp (Option ℕ) };

    ghost coded = { fin.code coded_ℕ (coded_option coded_ℕ) };

    ghost view = { λ m. as_map m.places };

    ghost invariant = { λ m. btree_map_len m.places ≤ 2 ^ 32 };
}

/// Whether so many pages end with this part, counted from 1.
pub(crate) fn is_within(count: u64, part: u32) -> bool
    ensures { result ≡ nat_le count (part * 65536) }
{
    count <= u64::from(part) * 65_536
}

impl PagePlaces {
    /// No pages.
    pub(crate) fn new(alloc: Global) -> PagePlaces
        ensures { result ≡ fin.empty }
    {
        PagePlaces {
            places: BTreeMap::new(alloc),
        }
    }

    /// The same places in memory of their own.
    pub(crate) fn copy(&self) -> Mem<PagePlaces>
        ensures { IfOk result (λ copy. copy ≡ self.now) }
    {
        let places = self.places.clone()?;
        Ok(PagePlaces { places })
    }

    /// Whether the page has a place.
    fn has(&self, item: &PageStamp) -> bool
        ensures { result ≡ fin.contains_key self.now item.now.page.0 }
    {
        self.places.contains_key(&item.page.0)
    }

    /// Makes an empty place for a page. With want of memory nothing changes.
    fn open(&mut self, item: &PageStamp) -> Mem<()>
        ensures ok { OnOk result (self.new ≡ fin.insert self.old item.now.page.0 None) }
        ensures err { OnErr result (self.new ≡ self.old) }
    {
        if self.places.len() >= MOST {
            return Err(NoMemory);
        }
        let Ok(_) = self.places.insert(item.page.0, None) else {
            return Err(NoMemory);
        };
        Ok(())
    }

    /// Notes the stamp of a page that has a place. It takes no memory.
    fn set(&mut self, page: u32, stamp: u64)
        requires { IsSome (fin.get self.old page) }
        ensures { self.new ≡ fin.insert self.old page (Some stamp) }
    {
        let _ = self.places.insert(page, Some(stamp));
    }

    /// Makes an empty place for each page that has none. No page is noted by it, also where memory is wanting.
    pub(crate) fn reserve(&mut self, pages: &PageStampList) -> Mem<()>
        ensures same { valued self.new ≡ valued self.old }
        ensures ready { OnOk result (HasAll page_key self.new pages.now) }
    {
        for item in pages.as_slice().iter() {
            if !self.has(item) {
                self.open(item)?;
            }
        }
        Ok(())
    }

    /// Notes the pages, which have places, with their stamps. It takes no memory.
    pub(crate) fn enter(&mut self, pages: PageStampList)
        requires { HasAll page_key self.old pages }
        ensures { valued self.new ≡ with_items page_key stamp_value (valued self.old) pages }
    {
        for item in pages.into_vec() {
            self.set(item.page.0, item.stamp.0);
        }
    }

    /// How many pages are noted.
    pub(crate) fn count(&self) -> u64
        ensures value { result ≡ length (listed (valued self.now)) }
        ensures most { result ≤ 2 ^ 32 }
    {
        let mut count: u64 = 0;
        for (_page, place) in self.places.iter() {
            if place.is_some() {
                count += 1;
            }
        }
        count
    }

    /// The pages of a part, counted from 1, with their stamps, ascending.
    pub(crate) fn part(&self, alloc: Global, part: u32) -> Mem<PageStampList>
        ensures { IfOk result (λ pages. pages ≡ part_of (listed (valued self.now)) part) }
    {
        let mut skip = u64::from(part.saturating_sub(1)) * 65_536;
        let mut list = PageStampList::new(alloc);
        for (page, place) in self.places.iter() {
            if let Some(stamp) = place {
                if skip > 0 {
                    skip -= 1;
                } else if list.len() < PART {
                    list.push(PageStamp {
                        page: Page(*page),
                        stamp: Stamp(*stamp),
                    })?;
                }
            }
        }
        Ok(list)
    }
}
