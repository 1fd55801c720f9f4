//! The row that is put.
ghost use Rattle.std.specs.Prelude.{◌≡◌, IfOk};
ghost use Rattle.std.specs.Option.{option_copied, option_eq};
ghost use Rattle.std.specs.Cmp.Lexicographic.{pointwise};
ghost use Rattle.std.specs.Prelude.{nat_eq};
ghost use Rattle.master_model.specs.Writes.{before_of, row_put, value_before, was_before};
ghost use Rattle.master_writes.specs.Values.{short_value};

use std::alloc::Global;
use tm_base::{
    Before, Key, LengthError, MAX_VALUE, Mem, NoMemory, Reply, Row, TryCopy, Txn, Value,
};

/// The value of these bytes, or the reply to a command that names it: `TooLongValue` where there are more than 512. None
/// deletes.
pub fn valued(alloc: Global, value: Option<&[u8]>) -> Mem<Result<Option<Value>, Reply>>
    ensures { IfOk result (λ valued. valued ≡ short_value (option_copied value.entry)) }
{
    let Some(bytes) = value else {
        return Ok(Ok(None));
    };
    let length = bytes.len();
    if length > MAX_VALUE {
        return Ok(Err(Reply::TooLongValue { length }));
    }
    match Value::new(alloc, bytes) {
        Ok(value) => Ok(Ok(Some(value))),
        Err(LengthError::Length { .. }) => unreachable!(),
        Err(LengthError::NoMemory) => Err(NoMemory),
    }
}

/// What a row had before its transaction's first write.
fn was_before(row: &Row) -> &Option<Value>
    ensures { result.now ≡ was_before row.entry.now row.entry.now.before }
{
    match &row.before {
        Before::Same => &row.now,
        Before::Was(value) => value,
    }
}

/// Whether two values are the same.
fn is_same(was: &Option<Value>, now: &Option<Value>) -> bool
    ensures { result ≡ option_eq (pointwise nat_eq) was.entry.now now.entry.now }
{
    match (was, now) {
        (None, None) => true,
        (Some(was), Some(now)) => was == now,
        _ => false,
    }
}

/// The row that a transaction puts, in the place of the one that is there: it has what was there before the
/// transaction's first write.
pub fn row_put(key: &Key, own: Txn, value: Option<Value>, old: Option<&Row>) -> Mem<Row>
    ensures { IfOk result (λ row. row ≡ row_put key.now own value (option_copied old.entry)) }
{
    let before = match old {
        None => before_of(&None, &value)?,
        Some(row) if row.txn == own => before_of(was_before(row), &value)?,
        Some(row) => before_of(&row.now, &value)?,
    };
    Ok(Row {
        key: key.copy()?,
        txn: own,
        now: value,
        before,
    })
}

/// What is put back by an undo, where that differs from what is there now.
fn before_of(was: &Option<Value>, now: &Option<Value>) -> Mem<Before>
    ensures { IfOk result (λ before. before ≡ before_of was.entry.now now.entry.now) }
{
    if is_same(was, now) {
        return Ok(Before::Same);
    }
    Ok(Before::Was(was.copy()?))
}
