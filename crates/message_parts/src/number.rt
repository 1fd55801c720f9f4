//! Numbers that mean a writer, a page, a stamp or a truth value.
ghost use Rattle.std.specs.Prelude.{◌≡◌};
ghost use Rattle.wire_fields.specs.Reading.{Gives};
ghost use Rattle.message_parts.specs.Reading.{writer_at, page_at, stamp_at, flag_at};

use tm_base::{MAX_STAMP, Page, Stamp, Writer};
use wire_fields::{ReadError, read_u8, read_u32, read_u64};

/// Reads a writer, from 1.
#[tactic(auto, unfolding(crate::specs::Reading::writer_at))]
pub fn read_writer(total: usize, bytes: &[u8]) -> Result<(Writer, &[u8]), ReadError>
    ensures { Gives (λ x. (x.0, x.1.now)) result (writer_at total bytes.now) }
{
    let (number, rest) = read_u32(total, 1, u32::MAX, bytes)?;
    Ok((Writer(number), rest))
}

/// Reads a page of any number.
#[tactic(auto, unfolding(crate::specs::Reading::page_at))]
pub fn read_page(total: usize, bytes: &[u8]) -> Result<(Page, &[u8]), ReadError>
    ensures { Gives (λ x. (x.0, x.1.now)) result (page_at total bytes.now) }
{
    let (number, rest) = read_u32(total, 0, u32::MAX, bytes)?;
    Ok((Page(number), rest))
}

/// Reads a stamp.
#[tactic(auto, unfolding(crate::specs::Reading::stamp_at))]
pub fn read_stamp(total: usize, bytes: &[u8]) -> Result<(Stamp, &[u8]), ReadError>
    ensures { Gives (λ x. (x.0, x.1.now)) result (stamp_at total bytes.now) }
{
    let (number, rest) = read_u64(total, 0, MAX_STAMP, bytes)?;
    Ok((Stamp(number), rest))
}

/// Reads a truth value: 1 or 0.
#[tactic(auto, unfolding(crate::specs::Reading::flag_at))]
pub fn read_flag(total: usize, bytes: &[u8]) -> Result<(bool, &[u8]), ReadError>
    ensures { Gives (λ x. (x.0, x.1.now)) result (flag_at total bytes.now) }
{
    let (number, rest) = read_u8(total, 0, 1, bytes)?;
    Ok((number == 1, rest))
}
