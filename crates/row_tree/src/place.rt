//! Where a key leads from an inner page.
ghost use Rattle.std.specs.Prelude.{◌≡◌, ◌≤◌, ◌∷◌, Some, length, drop, slice_get};
ghost use Rattle.std.specs.Option.{option_copied};
ghost use Rattle.page_model.specs.Tree.{child_for, entry_places, first_place, is_at, is_of, next_fence};
ghost use Rattle.row_tree.specs.Inside.{place_of, ArePartedAt};

use crate::fence::{high_of, low_of};
use key_fences::{fence_bytes, is_less, same_fence};
use tm_base::{Body, Child, ChildList, Key, Page};

/// A page as its parent gives it: for the keys from the low fence on and below the high one.
#[derive(Clone, Copy)]
pub struct Place<'a> {
    pub page: Page,
    pub low: Option<&'a [u8]>,
    pub high: Option<&'a [u8]>,
}

/// How many entries from the first on have keys that are at most this one. It looks at a few by halving.
pub fn entries_up_to(entries: &ChildList, key: &[u8]) -> usize
    ensures bound { result ≤ length entries.now }
    ensures parted { ArePartedAt key.now entries.now result }
{
    entries
        .as_slice()
        .partition_point(|entry: &Child| !is_less(key, entry.key.as_slice()))
}

/// Up to where the keys of the page before the entry number `at` go.
fn next_fence<'a>(entries: &'a [Child], at: usize, high: &'a Option<Key>) -> Option<&'a [u8]>
    requires { at ≤ length entries.now }
    ensures { option_copied result ≡ next_fence (drop at entries.now) high.now }
{
    if at == entries.len() {
        return fence_bytes(high);
    }
    Some(entries[at].key.as_slice())
}

/// The child of that number: the first child is number 0, and the child of the entry number `at`, from 0, is number `at + 1`.
pub fn child_at<'a>(
    low: &'a Option<Key>,
    high: &'a Option<Key>,
    first: Page,
    entries: &'a ChildList,
    number: usize,
) -> Place<'a>
    requires { number ≤ length entries.now }
    ensures { slice_get (first_place low.now high.now first entries.now ∷ entry_places high.now entries.now) number ≡ Some (place_of result) }
{
    let entries = entries.as_slice();
    let high = next_fence(entries, number, high);
    if number == 0 {
        return Place {
            page: first,
            low: fence_bytes(low),
            high,
        };
    }
    let entry = &entries[number - 1];
    Place {
        page: entry.page,
        low: Some(entry.key.as_slice()),
        high,
    }
}

/// The child to which a key leads. It looks at a few entries by halving.
pub fn child_for<'a>(
    key: &[u8],
    low: &'a Option<Key>,
    high: &'a Option<Key>,
    first: Page,
    entries: &'a ChildList,
) -> Place<'a>
    ensures { place_of result ≡ child_for key.now low.now high.now first entries.now }
{
    child_at(low, high, first, entries, entries_up_to(entries, key))
}

fn is_of(table: u16, body: &Body) -> bool
    ensures { result ≡ is_of table body.now }
{
    match body {
        Body::Blank => false,
        Body::Leaf { table: of, .. } => *of == table,
        Body::Inner { table: of, .. } => *of == table,
    }
}

/// Whether what a page holds is of the table and has the fences that the place gives it.
pub fn is_at(table: u16, place: &Place<'_>, body: &Body) -> bool
    ensures { result ≡ is_at table (place_of place.now) body.now }
{
    is_of(table, body)
        && same_fence(low_of(body), place.low)
        && same_fence(high_of(body), place.high)
}
