//! Reading keys, fences and values.
ghost use Rattle.std.specs.Prelude.{◌≡◌};
ghost use Rattle.std.specs.Option.{option_copied, option_map};
ghost use Rattle.wire_fields.specs.Reading.{Gives, key_at, fence_at, value_at, before_at, value_of_length, is_same};

use crate::{ReadError, offset, read_u8, read_u16};

const NONE: u16 = 0xffff;

const SAME: u16 = 0xfffe;

const MAX_KEY: u8 = 64;

const MAX_VALUE: usize = 512;

/// Reads a key of 1 to 64 bytes.
#[tactic(auto, unfolding(crate::specs::Reading::key_at))]
pub fn read_key(total: usize, bytes: &[u8]) -> Result<(&[u8], &[u8]), ReadError>
    ensures { Gives (λ x. (x.0.now, x.1.now)) result (key_at total bytes.now) }
{
    let (length, rest) = read_u8(total, 1, MAX_KEY, bytes)?;
    let length = length as usize;
    if rest.len() < length {
        return Err(ReadError::Truncated {
            at: offset(total, bytes),
        });
    }
    Ok(rest.split_at(length))
}

/// Reads a fence: a key, or none for the open end.
#[tactic(auto, unfolding(crate::specs::Reading::fence_at))]
pub fn read_fence(total: usize, bytes: &[u8]) -> Result<(Option<&[u8]>, &[u8]), ReadError>
    ensures { Gives (λ x. (option_copied x.0, x.1.now)) result (fence_at total bytes.now) }
{
    let (length, rest) = read_u8(total, 0, MAX_KEY, bytes)?;
    let length = length as usize;
    if length == 0 {
        return Ok((None, rest));
    }
    if rest.len() < length {
        return Err(ReadError::Truncated {
            at: offset(total, bytes),
        });
    }
    let (key, rest) = rest.split_at(length);
    Ok((Some(key), rest))
}

fn value_with(at: usize, length: u16, rest: &[u8]) -> Result<(Option<&[u8]>, &[u8]), ReadError>
    ensures { Gives (λ x. (option_copied x.0, x.1.now)) result (value_of_length at length rest.now) }
{
    if length == NONE {
        return Ok((None, rest));
    }
    let length = length as usize;
    if length > MAX_VALUE {
        return Err(ReadError::Range { at });
    }
    if rest.len() < length {
        return Err(ReadError::Truncated { at });
    }
    let (value, rest) = rest.split_at(length);
    Ok((Some(value), rest))
}

/// Reads a value of at most 512 bytes, or none.
#[tactic(auto, unfolding(crate::specs::Reading::value_at))]
pub fn read_value(total: usize, bytes: &[u8]) -> Result<(Option<&[u8]>, &[u8]), ReadError>
    ensures { Gives (λ x. (option_copied x.0, x.1.now)) result (value_at total bytes.now) }
{
    let (length, rest) = read_u16(total, 0, u16::MAX, bytes)?;
    value_with(offset(total, bytes), length, rest)
}

fn is_equal(a: Option<&[u8]>, b: Option<&[u8]>) -> bool
    ensures { result ≡ is_same (option_copied a.entry) (option_copied b.entry) }
{
    match (a, b) {
        (None, None) => true,
        (Some(x), Some(y)) => x == y,
        _ => false,
    }
}

/// Reads what was there before the value `now`: none for the same, else the value or none that was
/// there. One that is equal to `now` is `NotCanonical`.
#[tactic(auto, unfolding(crate::specs::Reading::before_at))]
pub fn read_before<'a>(
    total: usize,
    now: Option<&[u8]>,
    bytes: &'a [u8],
) -> Result<(Option<Option<&'a [u8]>>, &'a [u8]), ReadError>
    ensures { Gives (λ x. (option_map option_copied x.0, x.1.now)) result (before_at total (option_copied now.entry) bytes.now) }
{
    let at = offset(total, bytes);
    let (length, rest) = read_u16(total, 0, u16::MAX, bytes)?;
    if length == SAME {
        return Ok((None, rest));
    }
    let (before, rest) = value_with(at, length, rest)?;
    if is_equal(before, now) {
        return Err(ReadError::NotCanonical { at });
    }
    Ok((Some(before), rest))
}
