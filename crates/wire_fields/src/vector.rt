//! Reading vectors: a stamp for each of some writers.
ghost use Rattle.std.specs.Prelude.{◌≡◌};
ghost use Rattle.wire_fields.specs.Reading.{Gives, entry_at, entries_at, vector_at};

use crate::{ReadError, offset, read_u16, read_u32, read_u64};
use std::alloc::Global;

const MAX_STAMP: u64 = 9_223_372_036_854_775_807;

#[tactic(auto, unfolding(crate::specs::Reading::entry_at))]
fn read_entry(
    total: usize,
    own: u32,
    after: u32,
    bytes: &[u8],
) -> Result<((u32, u64), &[u8]), ReadError>
    ensures { Gives (λ x. (x.0, x.1.now)) result (entry_at total own after bytes.now) }
{
    let (writer, rest) = read_u32(total, 1, u32::MAX, bytes)?;
    if writer <= after || writer == own {
        return Err(ReadError::NotCanonical {
            at: offset(total, bytes),
        });
    }
    let (stamp, rest) = read_u64(total, 1, MAX_STAMP, rest)?;
    Ok(((writer, stamp), rest))
}

fn read_entries(
    alloc: Global,
    total: usize,
    own: u32,
    count: u16,
    bytes: &[u8],
) -> Result<(Vec<(u32, u64)>, &[u8]), ReadError>
    ensures { Gives (λ x. (x.0.items, x.1.now)) result (entries_at total own 0 count bytes.now) }
{
    let mut entries = Vec::new(alloc);
    let mut after = 0;
    let mut rest = bytes;
    for _ in 0..count {
        let (entry, behind) = read_entry(total, own, after, rest)?;
        entries.push(entry)?;
        after = entry.0;
        rest = behind;
    }
    Ok((entries, rest))
}

/// Reads a vector: the writers and their stamps, from 1 to `2^63 - 1`, by strictly ascending writer,
/// and none of them of the writer `own` (0 where none is left out). Memory is taken for the entries
/// that are there, and not for as many as the bytes claim.
#[tactic(auto, unfolding(crate::specs::Reading::vector_at))]
pub fn read_vector(
    alloc: Global,
    total: usize,
    own: u32,
    bytes: &[u8],
) -> Result<(Vec<(u32, u64)>, &[u8]), ReadError>
    ensures { Gives (λ x. (x.0.items, x.1.now)) result (vector_at total own bytes.now) }
{
    let (count, rest) = read_u16(total, 0, u16::MAX, bytes)?;
    read_entries(alloc, total, own, count, rest)
}
