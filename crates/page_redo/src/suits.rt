//! Which records suit which pages.
ghost use Rattle.std.specs.Prelude.{◌≡◌, ◌≤◌, is_some};
ghost use Rattle.key_fences.specs.Fences.{is_within, is_strictly_within};
ghost use Rattle.page_model.specs.Effects.{row_set_in, cut_at, formatted, child_added, redone};
ghost use Rattle.page_model.specs.Placed.{row_place, is_before, size_there, row_fits};
ghost use Rattle.page_redo.specs.Places.{row_place_in, child_place_in, place_of};

use key_fences::{fence_bytes, is_strictly_within, is_within};
use tm_base::{
    Body, Image, Key, KeyPlace, MAX_IMAGE, Page, Record, Row, RowList, fence_size, row_size, size,
};

/// Whether a record suits a page, where its key has this place.
pub(crate) fn suits(image: &Image, change: &Record, place: KeyPlace) -> bool
    requires { place ≡ place_of image.now.body change.now }
    ensures { result ≡ is_some (redone image.now.body change.now) }
{
    match change {
        Record::RowSet { table, row, .. } => row_suits(image, *table, row, place),
        Record::Cut { at, .. } => cut_suits(&image.body, at),
        Record::Format { body, .. } => !matches!(body, Body::Blank),
        Record::NodeAdd { key, child, .. } => child_suits(image, key, *child, place),
        Record::End { .. } => false,
        Record::Beat => false,
    }
}

fn row_suits(image: &Image, table: u16, new: &Row, place: KeyPlace) -> bool
    requires { place ≡ row_place_in image.now.body new.now.key }
    ensures { result ≡ is_some (row_set_in image.now.body table new.entry.now) }
{
    match &image.body {
        Body::Leaf {
            table: own,
            low,
            high,
            rows,
        } => {
            if *own != table {
                return false;
            }
            if !may_stand(low, high, &new.key) {
                return false;
            }
            row_fits(size(image), rows, new, place)
        }
        _ => false,
    }
}

/// Whether a key may stand between the fences.
fn may_stand(low: &Option<Key>, high: &Option<Key>, key: &Key) -> bool
    ensures { result ≡ is_within low.now high.now key.now }
{
    is_within(fence_bytes(low), fence_bytes(high), key.as_slice())
}

/// Whether a page of this size may have this row set among these, in this place.
fn row_fits(whole: usize, rows: &RowList, new: &Row, place: KeyPlace) -> bool
    requires { place ≡ row_place rows.now new.now.key }
    ensures test { result ≡ row_fits whole rows.now new.entry.now }
    ensures small { size_there rows.now new.entry.now.key ≤ 1101 }
{
    whole.saturating_add(row_size(new)) <= MAX_IMAGE + rows.size_at(place)
}

/// Whether a key parts what is between the fences.
fn parts(low: &Option<Key>, high: &Option<Key>, key: &Key) -> bool
    ensures { result ≡ is_strictly_within low.now high.now key.now }
{
    is_strictly_within(fence_bytes(low), fence_bytes(high), key.as_slice())
}

fn cut_suits(body: &Body, at: &Key) -> bool
    ensures { result ≡ is_some (cut_at body.now at.now) }
{
    match body {
        Body::Blank => false,
        Body::Leaf {
            low,
            high,
            rows,
            ..
        } => {
            parts(low, high, at)
                && rows
                    .size_below(at.as_slice())
                    .saturating_add(18 + fence_size(low) + 1 + at.as_slice().len())
                    <= MAX_IMAGE
        }
        Body::Inner {
            low,
            high,
            entries,
            ..
        } => {
            parts(low, high, at)
                && entries
                    .size_below(at.as_slice())
                    .saturating_add(22 + fence_size(low) + 1 + at.as_slice().len())
                    <= MAX_IMAGE
        }
    }
}

fn child_suits(image: &Image, key: &Key, child: Page, place: KeyPlace) -> bool
    requires { place ≡ child_place_in image.now.body key.now }
    ensures { result ≡ is_some (child_added image.now.body (record { key = key.now; page = child })) }
{
    match &image.body {
        Body::Inner { low, high, .. } => {
            if !may_stand(low, high, key) {
                return false;
            }
            if !is_new(place) {
                return false;
            }
            size(image).saturating_add(5 + key.as_slice().len()) <= MAX_IMAGE
        }
        _ => false,
    }
}

/// Whether it is a place for a new item.
fn is_new(place: KeyPlace) -> bool
    ensures { result ≡ is_before place }
{
    match place {
        KeyPlace::At(_) => false,
        KeyPlace::Before(_) => true,
    }
}
