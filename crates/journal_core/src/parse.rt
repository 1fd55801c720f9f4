//! Reading the records of a file.
ghost use Rattle.std.specs.Prelude.{Ok, ℕ, ◌≡◌, ◌+◌, ◌<◌, ◌≤◌, IsTrue, false, drop, length, IfOk, IfErr, IfSome, IfNone};
ghost use Rattle.journal_core.specs.Reading.{is_whole, length_in, max_body, opened};
ghost use Rattle.journal_core.specs.Inside.{IsParsed};
ghost use Rattle.journal_core.specs.Cause.{OpenCause, Says};

use crate::OpenError;
use std::alloc::Global;
use tm_base::ByteList;

/// The most bytes of a body: 16 MiB.
pub const MAX_BODY: usize = 16_777_216;

/// The bodies of a file's records, and the offset of its end gate.
#[derive(Drop)]
pub(crate) struct Parsed {
    pub(crate) bodies: Vec<ByteList>,
    pub(crate) end: usize,
}

// The length of the body behind an open gate, where the record is whole.
fn whole_length(after: &[u8]) -> Option<usize>
    ensures some { IfSome result (λ n. (n ≡ length_in after.now) × (n ≤ max_body) × (4 + n < length after.now)) }
    ensures none { IfNone result (is_whole after.now ≡ false) }
{
    if after.len() < 4 {
        return None;
    }
    let length = u32::from_be_bytes([after[0], after[1], after[2], after[3]]) as usize;
    if length > MAX_BODY || after.len() <= 4 + length {
        return None;
    }
    Some(length)
}

/// What a file opens to. Of a file of at most one byte there is no record.
pub(crate) fn parse(alloc: Global, file: &[u8]) -> Result<Parsed, OpenError>
    ensures bodies { IfOk result (λ p. opened file.now ≡ Ok p.bodies.items) }
    ensures place { IfOk result (λ p. 2 ≤ length file.now → IsParsed file.now p.bodies.items p.end) }
    ensures small { IfOk result (λ p. length file.now ≤ 1 → p.end ≡ 0) }
    ensures refused { IfErr result (λ e. Says e (opened file.now)) }
    ensures cause { (before now : ℕ) → IfErr result (λ e. OpenCause e before now) }
{
    let mut bodies = Vec::new(alloc);
    if file.len() < 2 {
        return Ok(Parsed { bodies, end: 0 });
    }
    let mut at = 0;
    while file[at] == 1 {
        let (_, after) = file.split_at(at + 1);
        let Some(length) = whole_length(after) else {
            return Err(OpenError::Damaged { at: at as u64 });
        };
        let (_, behind) = after.split_at(4);
        let (bytes, _) = behind.split_at(length);
        let body = ByteList::from_slice(alloc, bytes)?;
        bodies.push(body)?;
        at += 5 + length;
    }
    Ok(Parsed { bodies, end: at })
}
