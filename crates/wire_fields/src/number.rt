//! Reading numbers, which are big-endian.
ghost use Rattle.std.specs.Prelude.{◌≡◌, ◌-◌, length, IfOk};
ghost use Rattle.wire_fields.specs.Reading.{Gives, offset_of, u8_at, u16_at, u32_at, u64_at, kind_at, end_at};

use crate::ReadError;

/// Where `bytes`, the last of `total` bytes, begin.
pub fn offset(total: usize, bytes: &[u8]) -> usize
    ensures { result ≡ offset_of total bytes.now }
{
    total.saturating_sub(bytes.len())
}

/// Reads a byte that is a number from `least` to `most`, else `Range`.
#[tactic(auto, unfolding(crate::specs::Reading::u8_at))]
pub fn read_u8(total: usize, least: u8, most: u8, bytes: &[u8]) -> Result<(u8, &[u8]), ReadError>
    ensures { Gives (λ x. (x.0, x.1.now)) result (u8_at total least most bytes.now) }
{
    let at = offset(total, bytes);
    if bytes.is_empty() {
        return Err(ReadError::Truncated { at });
    }
    let (front, rest) = bytes.split_at(1);
    let number = front[0];
    if number < least || number > most {
        return Err(ReadError::Range { at });
    }
    Ok((number, rest))
}

/// Reads a number of two bytes from `least` to `most`, else `Range`.
#[tactic(auto, unfolding(crate::specs::Reading::u16_at))]
pub fn read_u16(
    total: usize,
    least: u16,
    most: u16,
    bytes: &[u8],
) -> Result<(u16, &[u8]), ReadError>
    ensures { Gives (λ x. (x.0, x.1.now)) result (u16_at total least most bytes.now) }
{
    let at = offset(total, bytes);
    if bytes.len() < 2 {
        return Err(ReadError::Truncated { at });
    }
    let (front, rest) = bytes.split_at(2);
    let number = u16::from_be_bytes([front[0], front[1]]);
    if number < least || number > most {
        return Err(ReadError::Range { at });
    }
    Ok((number, rest))
}

/// Reads a number of four bytes from `least` to `most`, else `Range`.
#[tactic(auto, unfolding(crate::specs::Reading::u32_at))]
pub fn read_u32(
    total: usize,
    least: u32,
    most: u32,
    bytes: &[u8],
) -> Result<(u32, &[u8]), ReadError>
    ensures { Gives (λ x. (x.0, x.1.now)) result (u32_at total least most bytes.now) }
{
    let at = offset(total, bytes);
    if bytes.len() < 4 {
        return Err(ReadError::Truncated { at });
    }
    let (front, rest) = bytes.split_at(4);
    let number = u32::from_be_bytes([front[0], front[1], front[2], front[3]]);
    if number < least || number > most {
        return Err(ReadError::Range { at });
    }
    Ok((number, rest))
}

/// Reads a number of eight bytes from `least` to `most`, else `Range`.
#[tactic(auto, unfolding(crate::specs::Reading::u64_at))]
pub fn read_u64(
    total: usize,
    least: u64,
    most: u64,
    bytes: &[u8],
) -> Result<(u64, &[u8]), ReadError>
    ensures { Gives (λ x. (x.0, x.1.now)) result (u64_at total least most bytes.now) }
{
    let at = offset(total, bytes);
    if bytes.len() < 8 {
        return Err(ReadError::Truncated { at });
    }
    let (front, rest) = bytes.split_at(8);
    let number = u64::from_be_bytes([
        front[0], front[1], front[2], front[3], front[4], front[5], front[6], front[7],
    ]);
    if number < least || number > most {
        return Err(ReadError::Range { at });
    }
    Ok((number, rest))
}

/// Reads the number of a kind, from `least` to `most`, else `Kind`.
#[tactic(auto, unfolding(crate::specs::Reading::kind_at))]
pub fn read_kind(total: usize, least: u8, most: u8, bytes: &[u8]) -> Result<(u8, &[u8]), ReadError>
    ensures { Gives (λ x. (x.0, x.1.now)) result (kind_at total least most bytes.now) }
{
    let at = offset(total, bytes);
    if bytes.is_empty() {
        return Err(ReadError::Truncated { at });
    }
    let (front, rest) = bytes.split_at(1);
    let kind = front[0];
    if kind < least || kind > most {
        return Err(ReadError::Kind { at });
    }
    Ok((kind, rest))
}

/// Refuses bytes that stand behind the whole value: `NotCanonical` at the first of them.
#[tactic(auto, unfolding(crate::specs::Reading::end_at))]
pub fn check_end(total: usize, rest: &[u8]) -> Result<(), ReadError>
    ensures { Gives (λ x. x) result (end_at total rest.now) }
{
    if !rest.is_empty() {
        return Err(ReadError::NotCanonical {
            at: offset(total, rest),
        });
    }
    Ok(())
}
