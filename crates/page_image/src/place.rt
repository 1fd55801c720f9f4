//! Where keys may stand, and transactions.
ghost use Rattle.std.specs.Prelude.{◌≡◌, true, IfOk};
ghost use Rattle.key_fences.specs.Fences.{is_above};
ghost use Rattle.std.specs.Option.{option_copied};
ghost use Rattle.wire_fields.specs.Reading.{Gives};
ghost use Rattle.page_image.specs.Spelling.{stands};
ghost use Rattle.page_image.specs.Reading.{txn_at, placed_at};

use key_fences::{is_above, is_within};
use std::alloc::Global;
use tm_base::{Key, Txn, Writer};
use wire_fields::{ReadError, offset, read_key, read_u32};

/// Reads a transaction: its writer and its number there, both from 1.
#[tactic(auto, unfolding(crate::specs::Reading::txn_at))]
pub fn read_txn(total: usize, bytes: &[u8]) -> Result<(Txn, &[u8]), ReadError>
    ensures { Gives (λ x. (x.0, x.1.now)) result (txn_at total bytes.now) }
{
    let (writer, rest) = read_u32(total, 1, u32::MAX, bytes)?;
    let (number, rest) = read_u32(total, 1, u32::MAX, rest)?;
    let txn = Txn {
        writer: Writer(writer),
        number,
    };
    Ok((txn, rest))
}

/// A key of these bytes. Bytes that are no key count as want of memory, so read them as one first.
#[inline(always)]
pub fn own_key(alloc: Global, bytes: &[u8]) -> Result<Key, ReadError>
    ensures { Gives (λ key. key) result (Ok bytes.now) }
{
    match Key::new(alloc, bytes) {
        Ok(key) => Ok(key),
        Err(_) => Err(ReadError::NoMemory),
    }
}

/// Reads a key that is within the fences and above the last one, else `NotCanonical`.
#[tactic(auto, unfolding(crate::specs::Reading::placed_at))]
pub(crate) fn read_placed<'a>(
    total: usize,
    low: Option<&[u8]>,
    high: Option<&[u8]>,
    last: Option<&[u8]>,
    bytes: &'a [u8],
) -> Result<(&'a [u8], &'a [u8]), ReadError>
    ensures exact { Gives (λ x. (x.0.now, x.1.now)) result (placed_at total (option_copied low.entry) (option_copied high.entry) (option_copied last.entry) bytes.now) }
    ensures above { IfOk result (λ x. is_above (option_copied last.entry) x.0.now ≡ true) }
{
    let (key, rest) = read_key(total, bytes)?;
    let stands = is_within(low, high, key) && is_above(last, key);
    if !stands {
        return Err(ReadError::NotCanonical {
            at: offset(total, bytes),
        });
    }
    Ok((key, rest))
}
