//! The halves of a page that splits.
ghost use Rattle.std.specs.Prelude.{◌≡◌, ◌≤◌, ◌/◌, ℕ, List, Option, Some, length, take, IfOk};
ghost use Rattle.std.specs.Option.{option_map};
ghost use Rattle.tm_data.specs.declared.transaction.Page.{Page};
ghost use Rattle.page_model.specs.Splits.{halves, left_rows};
ghost use Rattle.row_tree.specs.Inside.{right_of, right_in, IsLeftOf};

use tm_base::{Body, ChildList, Key, Mem, Page, RowList, TryCopy, row_size};

/// The key that separates the halves, and what the right one holds.
#[derive(Drop)]
pub(crate) struct RightHalf {
    pub(crate) separator: Key,
    pub(crate) body: Body,
}

/// How many rows a leaf's left half has: the least number of first rows whose sizes, doubled, reach
/// the sum of all.
fn left_rows(rows: &RowList) -> usize
    ensures bound { result ≤ length rows.now }
    ensures value { result ≡ left_rows rows.now }
{
    let whole = rows.size();
    let mut so_far: usize = 0;
    for (at, row) in rows.as_slice().iter().enumerate() {
        if so_far.saturating_mul(2) >= whole {
            return at;
        }
        so_far = so_far.saturating_add(row_size(row));
    }
    rows.len()
}

/// The right half of a leaf with these rows.
fn right_rows(table: u16, high: &Option<Key>, rows: &RowList) -> Mem<Option<RightHalf>>
    ensures { IfOk result (λ r. (low : Option (List ℕ)) →
        option_map right_in r ≡ option_map right_of (halves (Body.Leaf table low high.now rows.now))) }
{
    let count = left_rows(rows);
    let all = rows.as_slice();
    if count == all.len() {
        return Ok(None);
    }
    let separator = all[count].key.copy()?;
    let low = Some(all[count].key.copy()?);
    let high = high.copy()?;
    let rows = rows.copy_back(count)?;
    let body = Body::Leaf {
        table,
        low,
        high,
        rows,
    };
    Ok(Some(RightHalf { separator, body }))
}

/// The right half of an inner page with these entries. The page of the entry that separates the halves
/// is its first child.
fn right_entries(
    table: u16,
    level: u8,
    high: &Option<Key>,
    entries: &ChildList,
) -> Mem<Option<RightHalf>>
    ensures { IfOk result (λ r. (low : Option (List ℕ)) (first : Page) →
        option_map right_in r ≡ option_map right_of (halves (Body.Inner table level low high.now first entries.now))) }
{
    let count = entries.len() / 2;
    let children = entries.as_slice();
    if count == children.len() {
        return Ok(None);
    }
    let separator = children[count].key.copy()?;
    let low = Some(children[count].key.copy()?);
    let high = high.copy()?;
    let first = children[count].page;
    let entries = entries.copy_back(count + 1)?;
    let body = Body::Inner {
        table,
        level,
        low,
        high,
        first,
        entries,
    };
    Ok(Some(RightHalf { separator, body }))
}

/// The separator and the right half of what a page holds, none where there is nothing to part.
pub(crate) fn right_half(body: &Body) -> Mem<Option<RightHalf>>
    ensures { IfOk result (λ r.
        option_map right_in r ≡ option_map right_of (halves body.now)) }
{
    match body {
        Body::Blank => Ok(None),
        Body::Leaf {
            table,
            high,
            rows,
            ..
        } => right_rows(*table, high, rows),
        Body::Inner {
            table,
            level,
            high,
            entries,
            ..
        } => right_entries(*table, *level, high, entries),
    }
}

/// The left half of a leaf with these rows, up to this separator.
fn left_leaf(table: u16, low: &Option<Key>, rows: &RowList, separator: &Key) -> Mem<Body>
    ensures { IfOk result (λ left. left ≡
        Body.Leaf table low.now (Some separator.now) (take (left_rows rows.now) rows.now)) }
{
    let count = left_rows(rows);
    let low = low.copy()?;
    let high = Some(separator.copy()?);
    let rows = rows.copy_front(count)?;
    Ok(Body::Leaf {
        table,
        low,
        high,
        rows,
    })
}

/// The left half of an inner page with these entries, up to this separator.
fn left_inner(
    table: u16,
    level: u8,
    low: &Option<Key>,
    first: Page,
    entries: &ChildList,
    separator: &Key,
) -> Mem<Body>
    ensures { IfOk result (λ left. left ≡
        Body.Inner table level low.now (Some separator.now) first (take (length entries.now / 2) entries.now)) }
{
    let low = low.copy()?;
    let high = Some(separator.copy()?);
    let entries = entries.copy_front(entries.len() / 2)?;
    Ok(Body::Inner {
        table,
        level,
        low,
        high,
        first,
        entries,
    })
}

/// The left half of what a page holds, whose separator is this key.
pub(crate) fn left_half(body: &Body, separator: &Key) -> Mem<Body>
    ensures { IfOk result (IsLeftOf body.now separator.now) }
{
    match body {
        Body::Blank => Ok(Body::Blank),
        Body::Leaf {
            table,
            low,
            rows,
            ..
        } => left_leaf(*table, low, rows, separator),
        Body::Inner {
            table,
            level,
            low,
            first,
            entries,
            ..
        } => left_inner(*table, *level, low, *first, entries, separator),
    }
}
