//! The path of a key.
ghost use Rattle.std.specs.Prelude.{◌≡◌};
ghost use Rattle.std.specs.Option.{option_copied};
ghost use Rattle.page_model.specs.Tree.{there, one_below, level_of, path_below, path_of};
ghost use Rattle.row_tree.specs.Inside.{place_of, GivesPath, GoesOn};

use crate::Pages;
use crate::fence::level_of;
use crate::place::{Place, child_for, is_at};
use std::alloc::Global;
use tm_base::{Body, ItemList, Key, NoMemory, Page};

/// The pages from a table's root to a leaf, in order.
pub type Path = ItemList<Page>;

/// Why a path isn't found.
#[derive(Clone, Copy, Debug, PartialEq, Eq)]
pub enum FindError {
    /// The first page of the path that isn't there: it has no image here, or one that is blank, of
    /// another table, not exactly one level below its parent, or with other fences than its parent
    /// gives it (a root: other than open ones).
    Need { page: Page },
    /// Want of memory.
    NoMemory,
}

impl From<NoMemory> for FindError {
    ghost use Rattle.row_tree.specs.declared.path.FindError.TheVariants.{NoMemory};

    ghost from_gives = { λ _ e. e ≡ NoMemory };

    fn from(_: NoMemory) -> Self {
        FindError::NoMemory
    }
}

/// What is there at a place.
fn there<'a, P: Pages>(pages: &'a P, table: u16, place: &Place<'_>) -> Option<&'a Body>
    ensures { option_copied result ≡ there (P.images pages.now) table (place_of place.now) }
{
    let Some(image) = pages.image(place.page) else {
        return None;
    };
    if !is_at(table, place, &image.body) {
        return None;
    }
    Some(&image.body)
}

/// What is there at a place, if it is one level below this one.
fn one_below<'a, P: Pages>(
    pages: &'a P,
    table: u16,
    level: u8,
    place: &Place<'_>,
) -> Option<&'a Body>
    ensures { option_copied result ≡
        one_below level (there (P.images pages.now) table (place_of place.now)) }
{
    let Some(body) = there(pages, table, place) else {
        return None;
    };
    if u16::from(level_of(body)) + 1 != u16::from(level) {
        return None;
    }
    Some(body)
}

/// Adds the pages below a page to a path, down to the leaf to which the key leads.
fn add_below<P: Pages>(
    pages: &P,
    table: u16,
    key: &[u8],
    body: &Body,
    path: &mut Path,
) -> Result<(), FindError>
    ensures { GoesOn path.old path.new result
        (path_below (P.images pages.now) table key.now (level_of body.now) body.now) }
{
    let Body::Inner {
        level,
        low,
        high,
        first,
        entries,
        ..
    } = body
    else {
        return Ok(());
    };
    let place = child_for(key, low, high, *first, entries);
    let Some(child) = one_below(pages, table, *level, &place) else {
        return Err(FindError::Need { page: place.page });
    };
    path.push(place.page)?;
    add_below(pages, table, key, child, path)
}

/// The path of a key in a table: the pages from the table's root down to the leaf to which the key
/// leads, at most six. Refuses `Need` exactly with the first of these pages that isn't there.
///
/// Each page of the path is looked at once, and searched by halving.
pub fn find<P: Pages>(alloc: Global, pages: &P, table: u16, key: &Key) -> Result<Path, FindError>
    ensures { GivesPath result (path_of (P.images pages.now) table key.now) }
{
    let root = Place {
        page: Page(u32::from(table)),
        low: None,
        high: None,
    };
    let Some(body) = there(pages, table, &root) else {
        return Err(FindError::Need { page: root.page });
    };
    let mut path = Path::new(alloc);
    path.push(root.page)?;
    add_below(pages, table, key.as_slice(), body, &mut path)?;
    Ok(path)
}
