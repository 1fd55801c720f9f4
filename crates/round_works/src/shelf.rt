//! The pages of one table in memory.
ghost use Rattle.std.specs.Prelude.{◌≡◌, IfOk, OnOk, IfSome, IsTrue, Some};
ghost use Rattle.std.specs.Bool.{OnTrue};
ghost use Rattle.page_model.specs.Effects.{page_of, redone_at};
ghost use Rattle.round_works.specs.Shelves.{on_shelf, HasKey, LeafHas, HasRowOf, Redoes};

use crate::Failure;
use page_redo::{apply, initial};
use row_tree::{Pages, Path, Plan, PlanError, find, plan_put};
use std::alloc::Global;
use tm_base::{Body, Image, Key, KeyPlace, Page, Record, Row, RowList, Stamp};

/// The table, whose root is the page of its number.
const TABLE: u16 = 1;

/// The root's page.
const ROOT: u32 = 1;

/// Fresh pages are numbered from here on.
const FIRST_FRESH: u32 = 1025;

/// A table's pages: its root, and those from page 1,025 on without gaps, so that a page is found by its
/// number and none is searched for.
#[derive(Drop)]
pub struct Shelf {
    root: Image,
    others: Vec<Image>,
    /// The stamp of the last group.
    stamp: Stamp,
}

impl Pages for Shelf {
    ghost images = { on_shelf };

    fn image(&self, page: Page) -> Option<&Image> {
        if page.0 == ROOT {
            return Some(&self.root);
        }
        let Some(at) = page.0.checked_sub(FIRST_FRESH) else {
            return None;
        };
        self.others.get(at as usize)
    }
}

// Applies a record of this page to an image, and refuses another page's image.
fn redo(image: &mut Image, page: Page, change: &Record, stamp: Stamp) -> Result<(), Failure>
    requires { page_of change.now ≡ Some page.0 }
    ensures { OnOk result (redone_at image.old change.now stamp.0 ≡ Some image.new) }
{
    if image.page.0 != page.0 {
        return Err(Failure::Refused);
    }
    apply(image, change, stamp)?;
    Ok(())
}

impl Shelf {
    /// The table with no rows.
    pub fn new(alloc: Global) -> Shelf {
        Shelf {
            root: initial(alloc, Page(ROOT)),
            others: Vec::new(alloc),
            stamp: Stamp(0),
        }
    }

    // Adds so many blank pages. Gives their numbers.
    fn add_blank(&mut self, alloc: Global, count: u32) -> Result<Vec<Page>, Failure> {
        let mut fresh = Vec::new(alloc);
        for _ in 0..count {
            let at = u32::try_from(self.others.len()).unwrap_or(u32::MAX);
            let page = Page(FIRST_FRESH.saturating_add(at));
            self.others.push(initial(alloc, page))?;
            fresh.push(page)?;
        }
        Ok(fresh)
    }

    // The groups that put a row along its path. Blank pages are added where these need some.
    fn plan(
        &mut self,
        alloc: Global,
        path: &Path,
        row: &Row,
        first: Stamp,
    ) -> Result<Plan, Failure> {
        let wanting = match plan_put(alloc, self, path, row, &[], first) {
            Ok(plan) => return Ok(plan),
            Err(PlanError::Fresh { wanting }) => wanting,
            Err(error) => return Err(Failure::from(error)),
        };
        let fresh = self.add_blank(alloc, wanting)?;
        Ok(plan_put(alloc, self, path, row, fresh.as_slice(), first)?)
    }

    // Applies a record of the group of this stamp to its page.
    fn redo(&mut self, change: &Record, stamp: Stamp) -> Result<(), Failure>
        ensures { OnOk result (Redoes (on_shelf self.old) (on_shelf self.new) change.now stamp.0) }
    {
        let Some(page) = change.page() else {
            return Err(Failure::Refused);
        };
        if page.0 == ROOT {
            return redo(&mut self.root, page, change, stamp);
        }
        let Some(at) = page.0.checked_sub(FIRST_FRESH) else {
            return Err(Failure::Refused);
        };
        let Some(image) = self.others.get_mut(at as usize) else {
            return Err(Failure::Refused);
        };
        redo(image, page, change, stamp)
    }

    /// Puts a row: finds its path, plans its groups, and applies their records, a stamp a group.
    pub fn put(&mut self, alloc: Global, row: &Row) -> Result<(), Failure> {
        let path = find(alloc, self, TABLE, &row.key)?;
        let first = Stamp(self.stamp.0.saturating_add(1));
        let plan = self.plan(alloc, &path, row, first)?;
        for group in plan.as_slice() {
            self.stamp = Stamp(self.stamp.0.saturating_add(1));
            for change in group.as_slice() {
                self.redo(change, self.stamp)?;
            }
        }
        Ok(())
    }

    /// Whether the table has a row of that key, in the leaf to which the key leads.
    pub fn has(&self, alloc: Global, key: &Key) -> Result<bool, Failure>
        ensures { IfOk result (λ has. IsTrue has → HasKey (on_shelf self.now) 1 key.now) }
    {
        let path = find(alloc, self, TABLE, key)?;
        let Some(page) = path.as_slice().last() else {
            return Ok(false);
        };
        let Some(image) = self.image(*page) else {
            return Ok(false);
        };
        Ok(has_key(&image.body, key))
    }
}

// Whether a page is a leaf of the table with a row of that key.
fn has_key(body: &Body, key: &Key) -> bool
    ensures { OnTrue result (LeafHas 1 body.now key.now) }
{
    match body {
        Body::Leaf { table, rows, .. } => *table == TABLE && has_row(rows, key),
        _ => false,
    }
}

// Whether a row of that key is there. It looks at a few by halving.
fn has_row(rows: &RowList, key: &Key) -> bool
    ensures { OnTrue result (HasRowOf rows.now key.now) }
{
    let KeyPlace::At(at) = rows.place(key.as_slice()) else {
        return false;
    };
    let rows = rows.as_slice();
    if at >= rows.len() {
        return false;
    }
    rows[at].key.as_slice() == key.as_slice()
}
