//! Kinds 1 to 11: writer numbers and logs.
ghost use Rattle.std.specs.Prelude.{◌≡◌, ◌≤◌, ◌++◌, OnOk};
ghost use Rattle.wire_fields.specs.Reading.{Gives};
ghost use Rattle.node_messages.specs.Spelling.{kind_of, body_bytes, IsSound};
ghost use Rattle.node_messages.specs.Reading.{register_at, registered_at, append_at, groups_note_at, seal_at, log_note_at};

use crate::shape::{put_pair, read_pair};
use log_record::{put_group, read_group};
use message_parts::{put_groups, read_groups, read_writer};
use std::alloc::{AllocError, Global};
use tm_base::Note;
use wire_fields::{ReadError, put_u32, read_u32};

#[tactic(auto, unfolding(crate::specs::Reading::register_at))]
fn read_register(total: usize, bytes: &[u8]) -> Result<(Note, &[u8]), ReadError>
    ensures { Gives (λ x. (x.0, x.1.now)) result (register_at total bytes.now) }
{
    let (boot, rest) = read_u32(total, 0, u32::MAX, bytes)?;
    Ok((Note::Register { boot }, rest))
}

#[tactic(auto, unfolding(crate::specs::Reading::registered_at))]
fn read_registered(total: usize, bytes: &[u8]) -> Result<(Note, &[u8]), ReadError>
    ensures { Gives (λ x. (x.0, x.1.now)) result (registered_at total bytes.now) }
{
    let (boot, rest) = read_u32(total, 0, u32::MAX, bytes)?;
    let (writer, rest) = read_writer(total, rest)?;
    Ok((Note::Registered { boot, writer }, rest))
}

#[tactic(auto, unfolding(crate::specs::Reading::append_at))]
fn read_append(alloc: Global, total: usize, bytes: &[u8]) -> Result<(Note, &[u8]), ReadError>
    ensures { Gives (λ x. (x.0, x.1.now)) result (append_at total bytes.now) }
{
    let (group, rest) = read_group(alloc, total, 1, bytes)?;
    Ok((Note::Append { group }, rest))
}

#[tactic(auto, unfolding(crate::specs::Reading::groups_note_at))]
fn read_groups_note(alloc: Global, total: usize, bytes: &[u8]) -> Result<(Note, &[u8]), ReadError>
    ensures { Gives (λ x. (x.0, x.1.now)) result (groups_note_at total bytes.now) }
{
    let (writer, rest) = read_writer(total, bytes)?;
    let (groups, rest) = read_groups(alloc, total, rest)?;
    Ok((Note::Groups { writer, groups }, rest))
}

#[tactic(auto, unfolding(crate::specs::Reading::seal_at))]
fn read_seal(total: usize, bytes: &[u8]) -> Result<(Note, &[u8]), ReadError>
    ensures { Gives (λ x. (x.0, x.1.now)) result (seal_at total bytes.now) }
{
    let (writer, rest) = read_writer(total, bytes)?;
    Ok((Note::Seal { writer }, rest))
}

/// Reads a note of one of these kinds.
#[tactic(auto, unfolding(crate::specs::Reading::log_note_at))]
pub(crate) fn read_log_note(
    alloc: Global,
    total: usize,
    kind: u8,
    bytes: &[u8],
) -> Result<(Note, &[u8]), ReadError>
    ensures { Gives (λ x. (x.0, x.1.now)) result (log_note_at total kind bytes.now) }
{
    if kind == 1 {
        return read_register(total, bytes);
    }
    if kind == 2 {
        return read_registered(total, bytes);
    }
    if kind == 3 {
        return read_append(alloc, total, bytes);
    }
    if kind == 9 {
        return read_groups_note(alloc, total, bytes);
    }
    if kind == 10 {
        return read_seal(total, bytes);
    }
    read_pair(total, kind, bytes)
}

/// Writes the body of a note of one of these kinds.
pub(crate) fn put_log_note(out: &mut Vec<u8>, note: &Note) -> Result<(), AllocError>
    requires sound { IsSound note.now }
    requires kind { kind_of note.now ≤ 11 }
    ensures { OnOk result (out.new.items ≡ out.old.items ++ body_bytes note.now) }
{
    match note {
        Note::Register { boot } => put_u32(out, *boot)?,
        Note::Registered { boot, writer } => {
            put_u32(out, *boot)?;
            put_u32(out, writer.0)?;
        }
        Note::Append { group } => put_group(out, group)?,
        Note::Ack {
            writer,
            seq: number,
        }
        | Note::Gap {
            writer,
            next: number,
        }
        | Note::Sealed {
            writer,
            length: number,
        }
        | Note::Stable {
            writer,
            seq: number,
        }
        | Note::Fetch {
            writer,
            first: number,
        }
        | Note::SealedAt {
            writer,
            length: number,
        } => put_pair(out, *writer, *number)?,
        Note::Groups { writer, groups } => {
            put_u32(out, writer.0)?;
            put_groups(out, groups)?;
        }
        Note::Seal { writer } => put_u32(out, writer.0)?,
        _ => {}
    }
    Ok(())
}
