//! The groups of records of a put.
ghost use Rattle.std.specs.Prelude.{◌≡◌, ◌<◌, ◌≤◌, ◌∷◌, [], length, insert, unwrap_or, IfOk, OnOk, OnErr};
ghost use Rattle.tm_data.specs.declared.log.Record.{Record};
ghost use Rattle.page_model.specs.Effects.{page_of};
ghost use Rattle.page_model.specs.Tree.{level_of, table_of, low_of, high_of};
ghost use Rattle.page_model.specs.Splits.{changed_page, placed, row_group, split_group, root_over, root_group, spot_of};
ghost use Rattle.row_tree.specs.Inside.{spot_in, halves_of};

use crate::fence::{level_of, table_of};
use crate::halves::RightHalf;
use std::alloc::Global;
use tm_base::{
    Body, Child, ChildList, Image, Key, Mem, Page, Record, RecordList, Row, Stamp, TryCopy,
};

/// A page on the way of the row's key.
#[derive(Clone, Copy)]
pub(crate) struct Spot {
    pub(crate) page: Page,
    /// The stamp of its last change.
    pub(crate) stamp: Stamp,
    pub(crate) table: u16,
}

/// The spot of a page that was not changed yet.
pub(crate) fn spot_of(image: &Image) -> Spot
    ensures { spot_in result ≡ spot_of image.now }
{
    Spot {
        page: image.page,
        stamp: image.stamp,
        table: table_of(&image.body),
    }
}

/// The page that a record changes, 0 where it changes none.
fn changed_page(change: &Record) -> u32
    ensures { result ≡ changed_page change.now }
{
    match change.page() {
        Some(page) => page.0,
        None => 0,
    }
}

/// How many first records are of pages below this one.
fn place_for(records: &[Record], page: u32) -> usize
    ensures bound { result ≤ length records.now }
    ensures place { (change : Record) → changed_page change ≡ page →
        insert records.now result change ≡ placed change records.now }
{
    for (at, record) in records.iter().enumerate() {
        if changed_page(record) >= page {
            return at;
        }
    }
    records.len()
}

/// Puts a record into its place, by its page.
fn place(records: &mut Vec<Record>, change: Record) -> Mem<()>
    ensures { OnOk result (records.new.items ≡ placed change records.old.items) }
{
    let at = place_for(records.as_slice(), changed_page(&change));
    records.insert(at, change)?;
    Ok(())
}

/// Three records in the order of their pages.
fn in_order(alloc: Global, a: Record, b: Record, c: Record) -> Mem<RecordList>
    ensures { IfOk result (λ list. list ≡ placed a (placed b (c ∷ []))) }
{
    let mut records = Vec::new(alloc);
    records.push(c)?;
    place(&mut records, b)?;
    place(&mut records, a)?;
    Ok(RecordList::from_vec(records))
}

/// The group that puts the row where its key led.
pub(crate) fn row_group(alloc: Global, row: &Row, spot: Spot) -> Mem<RecordList>
    ensures { IfOk result (λ group. group ≡ row_group row.entry.now (spot_in spot)) }
{
    let mut records = Vec::with_capacity(alloc, 1)?;
    records.push(Record::RowSet {
        page: spot.page,
        prev: spot.stamp,
        table: spot.table,
        row: row.copy()?,
    })?;
    Ok(RecordList::from_vec(records))
}

/// The group that splits a page under its parent.
pub(crate) fn split_group(
    alloc: Global,
    parent: Spot,
    split: Spot,
    half: RightHalf,
    fresh: Page,
) -> Mem<RecordList>
    ensures { IfOk result (λ group. (left : Body) →
        group ≡ split_group (spot_in parent) (spot_in split) (halves_of half left) fresh) }
{
    let RightHalf { separator, body } = half;
    let cut = Record::Cut {
        page: split.page,
        prev: split.stamp,
        at: separator.copy()?,
    };
    let format = Record::Format {
        page: fresh,
        prev: Stamp(0),
        body,
    };
    let add = Record::NodeAdd {
        page: parent.page,
        prev: parent.stamp,
        key: separator,
        child: fresh,
    };
    in_order(alloc, cut, format, add)
}

/// A root over its halves, one level higher.
fn root_over(alloc: Global, body: &Body, separator: &Key, left: Page, right: Page) -> Mem<Body>
    requires { level_of body.now < 5 }
    ensures { IfOk result (λ over. (a b : Body) →
        over ≡ root_over body.now (record { separator = separator.now; left = a; right = b }) left right) }
{
    let mut entries = ChildList::new(alloc);
    entries.push(Child {
        key: separator.copy()?,
        page: right,
    })?;
    let (low, high) = fences(body)?;
    Ok(Body::Inner {
        table: table_of(body),
        level: level_of(body) + 1,
        low,
        high,
        first: left,
        entries,
    })
}

/// Copies of the fences of what a page holds.
fn fences(body: &Body) -> Mem<(Option<Key>, Option<Key>)>
    ensures { IfOk result (λ f. (f.0 ≡ low_of body.now) × (f.1 ≡ high_of body.now)) }
{
    match body {
        Body::Blank => Ok((None, None)),
        Body::Leaf { low, high, .. } => Ok((low.copy()?, high.copy()?)),
        Body::Inner { low, high, .. } => Ok((low.copy()?, high.copy()?)),
    }
}

/// The group that splits a root.
pub(crate) fn root_group(
    alloc: Global,
    image: &Image,
    half: RightHalf,
    left_body: Body,
    left: Page,
    right: Page,
) -> Mem<RecordList>
    requires { level_of image.now.body < 5 }
    ensures { IfOk result (λ group. group ≡ root_group image.now (halves_of half left_body) left right) }
{
    let RightHalf { separator, body } = half;
    let over = root_over(alloc, &image.body, &separator, left, right)?;
    let root = Record::Format {
        page: image.page,
        prev: image.stamp,
        body: over,
    };
    let left = Record::Format {
        page: left,
        prev: Stamp(0),
        body: left_body,
    };
    let right = Record::Format {
        page: right,
        prev: Stamp(0),
        body,
    };
    in_order(alloc, root, left, right)
}
