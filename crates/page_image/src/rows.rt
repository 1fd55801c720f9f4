//! Rows as bytes.
ghost use Rattle.std.specs.Prelude.{◌≡◌, ◌≤◌, ◌++◌, true, length, IfOk, OnOk};
ghost use Rattle.key_fences.specs.Fences.{is_above};
ghost use Rattle.std.specs.Option.{option_copied, option_map};
ghost use Rattle.wire_fields.specs.Reading.{Gives};
ghost use Rattle.wire_fields.specs.Spelling.{value_bytes, before_bytes};
ghost use Rattle.page_image.specs.Spelling.{txn_bytes, earlier, row_bytes, rows_bytes};
ghost use Rattle.page_image.specs.Reading.{row_after, row_at, rows_at, before_of};

use crate::place::{own_key, read_placed, read_txn};
use std::alloc::{AllocError, Global};
use tm_base::{Before, Row, RowList, Txn, Value};
use wire_fields::{
    ReadError, put_before, put_key, put_u16, put_u32, put_value, read_before, read_value,
};

#[inline(always)]
fn own_value(alloc: Global, value: Option<&[u8]>) -> Result<Option<Value>, ReadError>
    ensures { Gives (λ v. v) result (Ok (option_copied value.entry)) }
{
    match value {
        None => Ok(None),
        Some(bytes) => match Value::new(alloc, bytes) {
            Ok(value) => Ok(Some(value)),
            Err(_) => Err(ReadError::NoMemory),
        },
    }
}

#[inline(always)]
fn own_before(alloc: Global, before: Option<Option<&[u8]>>) -> Result<Before, ReadError>
    ensures { Gives (λ v. v) result (Ok (before_of (option_map option_copied before.entry))) }
{
    match before {
        None => Ok(Before::Same),
        Some(value) => {
            let value = own_value(alloc, value)?;
            Ok(Before::Was(value))
        }
    }
}

#[tactic(auto, unfolding(crate::specs::Reading::row_after))]
#[inline(always)]
fn read_row_after<'a>(
    alloc: Global,
    total: usize,
    key: &[u8],
    bytes: &'a [u8],
) -> Result<(Row, &'a [u8]), ReadError>
    ensures exact { Gives (λ x. (x.0, x.1.now)) result (row_after total key.now bytes.now) }
    ensures key { IfOk result (λ x. x.0.key ≡ key.now) }
{
    let (txn, rest) = read_txn(total, bytes)?;
    let (now, rest) = read_value(total, rest)?;
    let (before, rest) = read_before(total, now, rest)?;
    let key = own_key(alloc, key)?;
    let now = own_value(alloc, now)?;
    let before = own_before(alloc, before)?;
    let row = Row {
        key,
        txn,
        now,
        before,
    };
    Ok((row, rest))
}

#[tactic(auto, unfolding(crate::specs::Reading::row_at))]
#[inline(always)]
fn read_row_in<'a>(
    alloc: Global,
    total: usize,
    low: Option<&[u8]>,
    high: Option<&[u8]>,
    last: Option<&[u8]>,
    bytes: &'a [u8],
) -> Result<(Row, &'a [u8], &'a [u8]), ReadError>
    ensures exact { Gives (λ x. (x.0, x.2.now)) result (row_at total (option_copied low.entry) (option_copied high.entry) (option_copied last.entry) bytes.now) }
    ensures key { IfOk result (λ x. x.1.now ≡ x.0.key) }
    ensures above { IfOk result (λ x. is_above (option_copied last.entry) x.0.key ≡ true) }
{
    let (key, rest) = read_placed(total, low, high, last, bytes)?;
    let (row, rest) = read_row_after(alloc, total, key, rest)?;
    Ok((row, key, rest))
}

/// Reads a row of any key.
pub fn read_row(alloc: Global, total: usize, bytes: &[u8]) -> Result<(Row, &[u8]), ReadError>
    ensures { Gives (λ x. (x.0, x.1.now)) result (row_at total None None None bytes.now) }
{
    let (row, _, rest) = read_row_in(alloc, total, None, None, None, bytes)?;
    Ok((row, rest))
}

/// A row has at least 14 bytes: a key of one byte, a transaction, and no values.
const MIN_ROW: usize = 14;

/// Reads so many rows, whose keys ascend strictly within the fences. Room is taken once, for the rows that
/// are claimed or those that the bytes can have, whichever are fewer.
pub(crate) fn read_rows<'a>(
    alloc: Global,
    total: usize,
    low: Option<&[u8]>,
    high: Option<&[u8]>,
    count: u16,
    bytes: &'a [u8],
) -> Result<(RowList, &'a [u8]), ReadError>
    ensures { Gives (λ x. (x.0, x.1.now)) result (rows_at total (option_copied low.entry) (option_copied high.entry) None count bytes.now) }
{
    let room = usize::from(count).min(bytes.len() / MIN_ROW);
    let Ok(mut rows) = RowList::with_capacity(alloc, room) else {
        return Err(ReadError::NoMemory);
    };
    let mut last: Option<&[u8]> = None;
    let mut rest = bytes;
    for _ in 0..count {
        let (row, key, behind) = read_row_in(alloc, total, low, high, last, rest)?;
        let Ok(()) = rows.push(row) else {
            return Err(ReadError::NoMemory);
        };
        last = Some(key);
        rest = behind;
    }
    Ok((rows, rest))
}

/// Writes a transaction.
pub fn put_txn(out: &mut Vec<u8>, txn: Txn) -> Result<(), AllocError>
    ensures { OnOk result (out.new.items ≡ out.old.items ++ txn_bytes txn) }
{
    put_u32(out, txn.writer.0)?;
    put_u32(out, txn.number)?;
    Ok(())
}

fn put_some_value(out: &mut Vec<u8>, value: &Option<Value>) -> Result<(), AllocError>
    ensures { OnOk result (out.new.items ≡ out.old.items ++ value_bytes value.now) }
{
    match value {
        None => put_value(out, None)?,
        Some(value) => put_value(out, Some(value.as_slice()))?,
    }
    Ok(())
}

fn put_some_before(out: &mut Vec<u8>, before: &Before) -> Result<(), AllocError>
    ensures { OnOk result (out.new.items ≡ out.old.items ++ before_bytes (earlier before.now)) }
{
    match before {
        Before::Same => put_before(out, None)?,
        Before::Was(value) => put_some_value(out, value)?,
    }
    Ok(())
}

/// Writes a row.
pub fn put_row(out: &mut Vec<u8>, row: &Row) -> Result<(), AllocError>
    ensures { OnOk result (out.new.items ≡ out.old.items ++ row_bytes row.entry.now) }
{
    put_key(out, row.key.as_slice())?;
    put_txn(out, row.txn)?;
    put_some_value(out, &row.now)?;
    put_some_before(out, &row.before)?;
    Ok(())
}

/// Writes the number of rows and these.
pub(crate) fn put_rows(out: &mut Vec<u8>, rows: &[Row]) -> Result<(), AllocError>
    requires { length rows.now ≤ 65535 }
    ensures { OnOk result (out.new.items ≡ out.old.items ++ rows_bytes rows.now) }
{
    put_u16(out, rows.len() as u16)?;
    for row in rows {
        put_row(out, row)?;
    }
    Ok(())
}
