//! Rosters as bytes.
ghost use Rattle.std.specs.Prelude.{◌≡◌, ◌≤◌, ◌++◌, length, OnOk};
ghost use Rattle.wire_fields.specs.Reading.{Gives};
ghost use Rattle.message_parts.specs.Spelling.{state_number, entry_bytes, roster_bytes};
ghost use Rattle.message_parts.specs.Reading.{state_of, entry_at, entry_list_at, roster_at};

use crate::number::{read_stamp, read_writer};
use std::alloc::{AllocError, Global};
use tm_base::{ItemList, RosterEntry, RosterEntryList, WriterState};
use wire_fields::{
    ReadError, offset, put_u8, put_u16, put_u32, put_u64, read_u8, read_u16, read_u32,
};

fn state_of(number: u8) -> WriterState
    ensures { result ≡ state_of number }
{
    match number {
        0 => WriterState::Live,
        1 => WriterState::Closed,
        _ => WriterState::Recovered,
    }
}

#[tactic(auto, unfolding(crate::specs::Reading::entry_at))]
fn read_entry(total: usize, after: u32, bytes: &[u8]) -> Result<(RosterEntry, &[u8]), ReadError>
    ensures { Gives (λ x. (x.0, x.1.now)) result (entry_at total after bytes.now) }
{
    let (writer, rest) = read_writer(total, bytes)?;
    if writer.0 <= after {
        return Err(ReadError::NotCanonical {
            at: offset(total, bytes),
        });
    }
    let (master, rest) = read_u8(total, 0, u8::MAX, rest)?;
    let (state, rest) = read_u8(total, 0, 2, rest)?;
    let (length, rest) = read_u32(total, 0, u32::MAX, rest)?;
    let (start, rest) = read_stamp(total, rest)?;
    let entry = RosterEntry {
        writer,
        master,
        state: state_of(state),
        length,
        start,
    };
    Ok((entry, rest))
}

fn read_entry_list(
    alloc: Global,
    total: usize,
    count: u16,
    bytes: &[u8],
) -> Result<(Vec<RosterEntry>, &[u8]), ReadError>
    ensures { Gives (λ x. (x.0.items, x.1.now)) result (entry_list_at total 0 count bytes.now) }
{
    let mut entries = Vec::new(alloc);
    let mut after = 0;
    let mut rest = bytes;
    for _ in 0..count {
        let (entry, behind) = read_entry(total, after, rest)?;
        entries.push(entry)?;
        after = entry.writer.0;
        rest = behind;
    }
    Ok((entries, rest))
}

/// Reads the entries of a roster, which ascend strictly by writer.
#[tactic(auto, unfolding(crate::specs::Reading::roster_at))]
pub fn read_roster(
    alloc: Global,
    total: usize,
    bytes: &[u8],
) -> Result<(RosterEntryList, &[u8]), ReadError>
    ensures { Gives (λ x. (x.0, x.1.now)) result (roster_at total bytes.now) }
{
    let (count, rest) = read_u16(total, 0, u16::MAX, bytes)?;
    let (entries, rest) = read_entry_list(alloc, total, count, rest)?;
    Ok((ItemList::from_vec(entries), rest))
}

fn state_number(state: WriterState) -> u8
    ensures { result ≡ state_number state }
{
    match state {
        WriterState::Live => 0,
        WriterState::Closed => 1,
        WriterState::Recovered => 2,
    }
}

fn put_entry(out: &mut Vec<u8>, entry: RosterEntry) -> Result<(), AllocError>
    ensures { OnOk result (out.new.items ≡ out.old.items ++ entry_bytes entry) }
{
    put_u32(out, entry.writer.0)?;
    put_u8(out, entry.master)?;
    put_u8(out, state_number(entry.state))?;
    put_u32(out, entry.length)?;
    put_u64(out, entry.start.0)?;
    Ok(())
}

/// Writes the entries of a roster.
pub fn put_roster(out: &mut Vec<u8>, entries: &[RosterEntry]) -> Result<(), AllocError>
    requires { length entries.now ≤ 65535 }
    ensures { OnOk result (out.new.items ≡ out.old.items ++ roster_bytes entries.now) }
{
    put_u16(out, entries.len() as u16)?;
    for entry in entries {
        put_entry(out, *entry)?;
    }
    Ok(())
}
