//! Bodies of images as bytes.
ghost use Rattle.std.specs.Prelude.{◌≡◌, ◌≤◌, ◌++◌, true, length, OnOk, IfOk, Ok};
ghost use Rattle.key_fences.specs.Fences.{is_above};
ghost use Rattle.std.specs.Option.{option_copied};
ghost use Rattle.wire_fields.specs.Reading.{Gives};
ghost use Rattle.page_image.specs.Spelling.{child_bytes, children_bytes, head_bytes, body_bytes, kind_of, IsBody};
ghost use Rattle.page_image.specs.Reading.{child_at, children_at, head_at, leaf_at, inner_at, body_at};

use crate::place::{own_key, read_placed};
use crate::rows::{put_rows, read_rows};
use key_fences::{fence_bytes, leave_room};
use std::alloc::{AllocError, Global};
use tm_base::{Body, Child, ChildList, Key, Page};
use wire_fields::{
    ReadError, offset, put_fence, put_key, put_u8, put_u16, put_u32, read_fence, read_u8, read_u16,
    read_u32,
};

/// What leaves and inner pages begin with.
#[derive(Clone, Copy)]
struct Head<'a> {
    table: u16,
    level: u8,
    low: Option<&'a [u8]>,
    high: Option<&'a [u8]>,
}

#[tactic(auto, unfolding(crate::specs::Reading::head_at))]
fn read_head(
    total: usize,
    least: u8,
    most: u8,
    bytes: &[u8],
) -> Result<(Head<'_>, &[u8]), ReadError>
    ensures { Gives (λ x. (record { table = x.0.table; level = x.0.level; low = option_copied x.0.low; high = option_copied x.0.high }, x.1.now)) result (head_at total least most bytes.now) }
{
    let (table, rest) = read_u16(total, 0, u16::MAX, bytes)?;
    let (level, rest) = read_u8(total, least, most, rest)?;
    let (low, fence) = read_fence(total, rest)?;
    let (high, rest) = read_fence(total, fence)?;
    if !leave_room(low, high) {
        return Err(ReadError::NotCanonical {
            at: offset(total, fence),
        });
    }
    let head = Head {
        table,
        level,
        low,
        high,
    };
    Ok((head, rest))
}

fn own_fence(alloc: Global, fence: Option<&[u8]>) -> Result<Option<Key>, ReadError>
    ensures { Gives (λ f. f) result (Ok (option_copied fence.entry)) }
{
    match fence {
        None => Ok(None),
        Some(bytes) => {
            let key = own_key(alloc, bytes)?;
            Ok(Some(key))
        }
    }
}

#[tactic(auto, unfolding(crate::specs::Reading::leaf_at))]
fn read_leaf(alloc: Global, total: usize, bytes: &[u8]) -> Result<(Body, &[u8]), ReadError>
    ensures { Gives (λ x. (x.0, x.1.now)) result (leaf_at total bytes.now) }
{
    let (head, rest) = read_head(total, 0, 0, bytes)?;
    let (count, rest) = read_u16(total, 0, u16::MAX, rest)?;
    let (rows, rest) = read_rows(alloc, total, head.low, head.high, count, rest)?;
    let low = own_fence(alloc, head.low)?;
    let high = own_fence(alloc, head.high)?;
    let body = Body::Leaf {
        table: head.table,
        low,
        high,
        rows,
    };
    Ok((body, rest))
}

#[tactic(auto, unfolding(crate::specs::Reading::child_at))]
fn read_child<'a>(
    alloc: Global,
    total: usize,
    low: Option<&[u8]>,
    high: Option<&[u8]>,
    last: Option<&[u8]>,
    bytes: &'a [u8],
) -> Result<(Child, &'a [u8], &'a [u8]), ReadError>
    ensures exact { Gives (λ x. (x.0, x.2.now)) result (child_at total (option_copied low.entry) (option_copied high.entry) (option_copied last.entry) bytes.now) }
    ensures key { IfOk result (λ x. x.1.now ≡ x.0.key) }
    ensures above { IfOk result (λ x. is_above (option_copied last.entry) x.0.key ≡ true) }
{
    let (place, rest) = read_placed(total, low, high, last, bytes)?;
    let (page, rest) = read_u32(total, 0, u32::MAX, rest)?;
    let key = own_key(alloc, place)?;
    let child = Child {
        key,
        page: Page(page),
    };
    Ok((child, place, rest))
}

/// An entry has at least 6 bytes: a key of one byte and a page.
const MIN_CHILD: usize = 6;

/// Reads so many entries, whose keys ascend strictly within the fences. Room is taken once, for the entries
/// that are claimed or those that the bytes can have, whichever are fewer.
fn read_children<'a>(
    alloc: Global,
    total: usize,
    low: Option<&[u8]>,
    high: Option<&[u8]>,
    count: u16,
    bytes: &'a [u8],
) -> Result<(ChildList, &'a [u8]), ReadError>
    ensures { Gives (λ x. (x.0, x.1.now)) result (children_at total (option_copied low.entry) (option_copied high.entry) None count bytes.now) }
{
    let room = usize::from(count).min(bytes.len() / MIN_CHILD);
    let Ok(mut children) = ChildList::with_capacity(alloc, room) else {
        return Err(ReadError::NoMemory);
    };
    let mut last: Option<&[u8]> = None;
    let mut rest = bytes;
    for _ in 0..count {
        let (child, key, behind) = read_child(alloc, total, low, high, last, rest)?;
        let Ok(()) = children.push(child) else {
            return Err(ReadError::NoMemory);
        };
        last = Some(key);
        rest = behind;
    }
    Ok((children, rest))
}

#[tactic(auto, unfolding(crate::specs::Reading::inner_at))]
fn read_inner(alloc: Global, total: usize, bytes: &[u8]) -> Result<(Body, &[u8]), ReadError>
    ensures { Gives (λ x. (x.0, x.1.now)) result (inner_at total bytes.now) }
{
    let (head, rest) = read_head(total, 1, 5, bytes)?;
    let (count, rest) = read_u16(total, 0, u16::MAX, rest)?;
    let (first, rest) = read_u32(total, 0, u32::MAX, rest)?;
    let (children, rest) = read_children(alloc, total, head.low, head.high, count, rest)?;
    let low = own_fence(alloc, head.low)?;
    let high = own_fence(alloc, head.high)?;
    let body = Body::Inner {
        table: head.table,
        level: head.level,
        low,
        high,
        first: Page(first),
        entries: children,
    };
    Ok((body, rest))
}

/// Reads a body of this kind: 0 of a blank page, 1 of a leaf, 2 of an inner page.
#[tactic(auto, unfolding(crate::specs::Reading::body_at))]
pub fn read_body(
    alloc: Global,
    total: usize,
    kind: u8,
    bytes: &[u8],
) -> Result<(Body, &[u8]), ReadError>
    ensures { Gives (λ x. (x.0, x.1.now)) result (body_at total kind bytes.now) }
{
    if kind == 0 {
        return Ok((Body::Blank, bytes));
    }
    if kind == 1 {
        return read_leaf(alloc, total, bytes);
    }
    read_inner(alloc, total, bytes)
}

/// The number of the body's kind.
pub fn kind_of(body: &Body) -> u8
    ensures { result ≡ kind_of body.now }
{
    match body {
        Body::Blank => 0,
        Body::Leaf { .. } => 1,
        Body::Inner { .. } => 2,
    }
}

fn put_child(out: &mut Vec<u8>, child: &Child) -> Result<(), AllocError>
    ensures { OnOk result (out.new.items ≡ out.old.items ++ child_bytes child.now) }
{
    put_key(out, child.key.as_slice())?;
    put_u32(out, child.page.0)?;
    Ok(())
}

fn put_children(out: &mut Vec<u8>, children: &[Child]) -> Result<(), AllocError>
    ensures { OnOk result (out.new.items ≡ out.old.items ++ children_bytes children.now) }
{
    for child in children {
        put_child(out, child)?;
    }
    Ok(())
}

fn put_head(
    out: &mut Vec<u8>,
    table: u16,
    level: u8,
    low: &Option<Key>,
    high: &Option<Key>,
) -> Result<(), AllocError>
    ensures { OnOk result (out.new.items ≡ out.old.items ++ head_bytes (record { table = table; level = level; low = low.now; high = high.now })) }
{
    put_u16(out, table)?;
    put_u8(out, level)?;
    put_fence(out, fence_bytes(low))?;
    put_fence(out, fence_bytes(high))?;
    Ok(())
}

/// Writes a body, behind the number of its kind.
pub fn put_body(out: &mut Vec<u8>, body: &Body) -> Result<(), AllocError>
    requires { IsBody body.now }
    ensures { OnOk result (out.new.items ≡ out.old.items ++ body_bytes body.now) }
{
    match body {
        Body::Blank => {}
        Body::Leaf {
            table,
            low,
            high,
            rows,
        } => {
            put_head(out, *table, 0, low, high)?;
            put_rows(out, rows.as_slice())?;
        }
        Body::Inner {
            table,
            level,
            low,
            high,
            first,
            entries,
        } => {
            put_head(out, *table, *level, low, high)?;
            put_u16(out, entries.len() as u16)?;
            put_u32(out, first.0)?;
            put_children(out, entries.as_slice())?;
        }
    }
    Ok(())
}
