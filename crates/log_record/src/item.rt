//! Records as bytes.
ghost use Rattle.std.specs.Prelude.{◌≡◌, ◌++◌, length, OnOk, All};
ghost use Rattle.std.specs.List.{flat_map};
ghost use Rattle.wire_fields.specs.Spelling.{u8_bytes};
ghost use Rattle.wire_fields.specs.Reading.{Gives};
ghost use Rattle.log_record.specs.Spelling.{flag_of, number_of, place_of, place_bytes, rest_bytes, item_bytes, IsSound, page_of};
ghost use Rattle.log_record.specs.Reading.{place_at, row_set_at, cut_at, format_at, node_add_at, change_at, ending_at, word_at, item_at, items_at};

use page_image::{kind_of, own_key, put_body, put_row, put_txn, read_body, read_row, read_txn};
use std::alloc::{AllocError, Global};
use tm_base::{MAX_IMAGE, Page, Record, Stamp};
use wire_fields::{
    ReadError, offset, put_key, put_u8, put_u16, put_u32, put_u64, read_key, read_kind, read_u8,
    read_u16, read_u32, read_u64,
};

/// The page that a record changes, and the stamp that this had.
#[derive(Clone, Copy)]
pub(crate) struct Place {
    page: Page,
    prev: Stamp,
}

#[tactic(auto, unfolding(crate::specs::Reading::place_at))]
fn read_place(
    total: usize,
    stamp: u64,
    last: u32,
    start: usize,
    bytes: &[u8],
) -> Result<(Place, &[u8]), ReadError>
    ensures { Gives (λ x. (x.0, x.1.now)) result (place_at total stamp last start bytes.now) }
{
    let (page, rest) = read_u32(total, 1, u32::MAX, bytes)?;
    if page <= last {
        return Err(ReadError::NotCanonical { at: start });
    }
    let (prev, rest) = read_u64(total, 0, stamp.saturating_sub(1), rest)?;
    let place = Place {
        page: Page(page),
        prev: Stamp(prev),
    };
    Ok((place, rest))
}

#[tactic(auto, unfolding(crate::specs::Reading::row_set_at))]
fn read_row_set(
    alloc: Global,
    total: usize,
    place: Place,
    bytes: &[u8],
) -> Result<(Record, &[u8]), ReadError>
    ensures { Gives (λ x. (x.0, x.1.now)) result (row_set_at total place bytes.now) }
{
    let (table, rest) = read_u16(total, 0, u16::MAX, bytes)?;
    let (row, rest) = read_row(alloc, total, rest)?;
    let item = Record::RowSet {
        page: place.page,
        prev: place.prev,
        table,
        row,
    };
    Ok((item, rest))
}

#[tactic(auto, unfolding(crate::specs::Reading::cut_at))]
fn read_cut(
    alloc: Global,
    total: usize,
    place: Place,
    bytes: &[u8],
) -> Result<(Record, &[u8]), ReadError>
    ensures { Gives (λ x. (x.0, x.1.now)) result (cut_at total place bytes.now) }
{
    let (key, rest) = read_key(total, bytes)?;
    let at = own_key(alloc, key)?;
    let item = Record::Cut {
        page: place.page,
        prev: place.prev,
        at,
    };
    Ok((item, rest))
}

#[tactic(auto, unfolding(crate::specs::Reading::format_at))]
fn read_format(
    alloc: Global,
    total: usize,
    place: Place,
    bytes: &[u8],
) -> Result<(Record, &[u8]), ReadError>
    ensures { Gives (λ x. (x.0, x.1.now)) result (format_at total place bytes.now) }
{
    let (kind, rest) = read_kind(total, 0, 2, bytes)?;
    let (body, rest) = read_body(alloc, total, kind, rest)?;
    if bytes.len().saturating_sub(rest.len()).saturating_add(12) > MAX_IMAGE {
        return Err(ReadError::NotCanonical {
            at: offset(total, bytes),
        });
    }
    let item = Record::Format {
        page: place.page,
        prev: place.prev,
        body,
    };
    Ok((item, rest))
}

#[tactic(auto, unfolding(crate::specs::Reading::node_add_at))]
fn read_node_add(
    alloc: Global,
    total: usize,
    place: Place,
    bytes: &[u8],
) -> Result<(Record, &[u8]), ReadError>
    ensures { Gives (λ x. (x.0, x.1.now)) result (node_add_at total place bytes.now) }
{
    let (key, rest) = read_key(total, bytes)?;
    let (child, rest) = read_u32(total, 0, u32::MAX, rest)?;
    let key = own_key(alloc, key)?;
    let item = Record::NodeAdd {
        page: place.page,
        prev: place.prev,
        key,
        child: Page(child),
    };
    Ok((item, rest))
}

#[tactic(auto, unfolding(crate::specs::Reading::change_at))]
fn read_change(
    alloc: Global,
    total: usize,
    kind: u8,
    place: Place,
    bytes: &[u8],
) -> Result<(Record, &[u8]), ReadError>
    ensures { Gives (λ x. (x.0, x.1.now)) result (change_at total kind place bytes.now) }
{
    if kind == 1 {
        return read_row_set(alloc, total, place, bytes);
    }
    if kind == 2 {
        return read_cut(alloc, total, place, bytes);
    }
    if kind == 3 {
        return read_format(alloc, total, place, bytes);
    }
    read_node_add(alloc, total, place, bytes)
}

#[tactic(auto, unfolding(crate::specs::Reading::ending_at))]
fn read_ending(total: usize, bytes: &[u8]) -> Result<(Record, &[u8]), ReadError>
    ensures { Gives (λ x. (x.0, x.1.now)) result (ending_at total bytes.now) }
{
    let (txn, rest) = read_txn(total, bytes)?;
    let (flag, rest) = read_u8(total, 0, 1, rest)?;
    let item = Record::End {
        txn,
        committed: flag == 1,
    };
    Ok((item, rest))
}

#[tactic(auto, unfolding(crate::specs::Reading::word_at))]
fn read_word(
    total: usize,
    alone: bool,
    start: usize,
    kind: u8,
    bytes: &[u8],
) -> Result<(Record, &[u8]), ReadError>
    ensures { Gives (λ x. (x.0, x.1.now)) result (word_at total alone start kind bytes.now) }
{
    if !alone {
        return Err(ReadError::NotCanonical { at: start });
    }
    if kind == 5 {
        return read_ending(total, bytes);
    }
    Ok((Record::Beat, bytes))
}

#[tactic(auto, unfolding(crate::specs::Reading::item_at))]
fn read_item(
    alloc: Global,
    total: usize,
    stamp: u64,
    alone: bool,
    last: u32,
    bytes: &[u8],
) -> Result<(Record, &[u8]), ReadError>
    ensures { Gives (λ x. (x.0, x.1.now)) result (item_at total stamp alone last bytes.now) }
{
    let start = offset(total, bytes);
    let (kind, rest) = read_kind(total, 1, 6, bytes)?;
    if kind <= 4 {
        let (place, rest) = read_place(total, stamp, last, start, rest)?;
        return read_change(alloc, total, kind, place, rest);
    }
    read_word(total, alone, start, kind, rest)
}

fn page_of(item: &Record) -> u32
    ensures { result ≡ page_of item.now }
{
    match item.page() {
        Some(page) => page.0,
        None => 0,
    }
}

/// Reads so many records of a group of this stamp, by ascending page.
pub(crate) fn read_items(
    alloc: Global,
    total: usize,
    stamp: u64,
    alone: bool,
    count: u16,
    bytes: &[u8],
) -> Result<(Vec<Record>, &[u8]), ReadError>
    ensures { Gives (λ x. (x.0.items, x.1.now)) result (items_at total stamp alone 0 count bytes.now) }
{
    let mut items = Vec::new(alloc);
    let mut last = 0;
    let mut rest = bytes;
    for _ in 0..count {
        let (item, behind) = read_item(alloc, total, stamp, alone, last, rest)?;
        let page = page_of(&item);
        items.push(item)?;
        last = page;
        rest = behind;
    }
    Ok((items, rest))
}

fn put_start(out: &mut Vec<u8>, kind: u8, page: Page, prev: Stamp) -> Result<(), AllocError>
    ensures { OnOk result (out.new.items ≡ out.old.items ++ (u8_bytes kind ++ place_bytes (Some (record { page = page; prev = prev })))) }
{
    put_u8(out, kind)?;
    put_u32(out, page.0)?;
    put_u64(out, prev.0)?;
    Ok(())
}

fn put_item(out: &mut Vec<u8>, item: &Record) -> Result<(), AllocError>
    requires { IsSound item.now }
    ensures { OnOk result (out.new.items ≡ out.old.items ++ item_bytes item.now) }
{
    match item {
        Record::RowSet {
            page,
            prev,
            table,
            row,
        } => {
            put_start(out, 1, *page, *prev)?;
            put_u16(out, *table)?;
            put_row(out, row)?;
        }
        Record::Cut { page, prev, at } => {
            put_start(out, 2, *page, *prev)?;
            put_key(out, at.as_slice())?;
        }
        Record::Format { page, prev, body } => {
            put_start(out, 3, *page, *prev)?;
            put_u8(out, kind_of(body))?;
            put_body(out, body)?;
        }
        Record::NodeAdd {
            page,
            prev,
            key,
            child,
        } => {
            put_start(out, 4, *page, *prev)?;
            put_key(out, key.as_slice())?;
            put_u32(out, child.0)?;
        }
        Record::End { txn, committed } => {
            put_u8(out, 5)?;
            put_txn(out, *txn)?;
            put_flag(out, *committed)?;
        }
        Record::Beat => put_u8(out, 6)?,
    }
    Ok(())
}

fn put_flag(out: &mut Vec<u8>, flag: bool) -> Result<(), AllocError>
    ensures { OnOk result (out.new.items ≡ out.old.items ++ u8_bytes (flag_of flag)) }
{
    let number = if flag { 1 } else { 0 };
    put_u8(out, number)?;
    Ok(())
}

/// Writes records.
pub(crate) fn put_items(out: &mut Vec<u8>, items: &[Record]) -> Result<(), AllocError>
    requires { All IsSound items.now }
    ensures { OnOk result (out.new.items ≡ out.old.items ++ flat_map item_bytes items.now) }
{
    for item in items {
        put_item(out, item)?;
    }
    Ok(())
}
