//! Kinds 12 to 17: the ends of logs.
ghost use Rattle.std.specs.Prelude.{◌≡◌, ◌≤◌, ◌++◌, length, OnOk};
ghost use Rattle.wire_fields.specs.Reading.{Gives};
ghost use Rattle.log_record.specs.Spelling.{flag_of, learnt_bytes};
ghost use Rattle.node_messages.specs.Spelling.{kind_of, body_bytes, IsSound};
ghost use Rattle.message_parts.specs.Spelling.{page_stamps_bytes, ArePageStamps};
ghost use Rattle.node_messages.specs.Reading.{takeover_at, undone_at, recovered_at, end_note_at};
ghost use Rattle.wire_fields.specs.Spelling.{u8_bytes};

use crate::shape::{put_ending, put_pair, read_ending, read_pair};
use log_record::{put_vector, read_vector};
use message_parts::{put_page_stamps, read_flag, read_page_stamps, read_writer};
use std::alloc::{AllocError, Global};
use tm_base::{Note, PageStampList, Vector};
use wire_fields::{ReadError, put_u8, put_u32, read_u32};

#[tactic(auto, unfolding(crate::specs::Reading::takeover_at))]
fn read_takeover(alloc: Global, total: usize, bytes: &[u8]) -> Result<(Note, &[u8]), ReadError>
    ensures { Gives (λ x. (x.0, x.1.now)) result (takeover_at total bytes.now) }
{
    let (writer, behind) = read_writer(total, bytes)?;
    let (part, behind) = read_u32(total, 0, u32::MAX, behind)?;
    let (rest, behind) = read_flag(total, behind)?;
    let (pages, behind) = read_page_stamps(alloc, total, behind)?;
    let (vector, behind) = read_vector(alloc, total, 0, behind)?;
    let note = Note::Takeover {
        writer,
        part,
        rest,
        pages,
        vector,
    };
    Ok((note, behind))
}

#[tactic(auto, unfolding(crate::specs::Reading::undone_at))]
fn read_undone(alloc: Global, total: usize, bytes: &[u8]) -> Result<(Note, &[u8]), ReadError>
    ensures { Gives (λ x. (x.0, x.1.now)) result (undone_at total bytes.now) }
{
    let (writer, rest) = read_writer(total, bytes)?;
    let (recoverer, rest) = read_writer(total, rest)?;
    let (vector, rest) = read_vector(alloc, total, 0, rest)?;
    let note = Note::Undone {
        writer,
        recoverer,
        vector,
    };
    Ok((note, rest))
}

#[tactic(auto, unfolding(crate::specs::Reading::recovered_at))]
fn read_recovered(alloc: Global, total: usize, bytes: &[u8]) -> Result<(Note, &[u8]), ReadError>
    ensures { Gives (λ x. (x.0, x.1.now)) result (recovered_at total bytes.now) }
{
    let (writer, rest) = read_writer(total, bytes)?;
    let (vector, rest) = read_vector(alloc, total, 0, rest)?;
    Ok((Note::Recovered { writer, vector }, rest))
}

/// Reads a note of one of these kinds.
#[tactic(auto, unfolding(crate::specs::Reading::end_note_at))]
pub(crate) fn read_end_note(
    alloc: Global,
    total: usize,
    kind: u8,
    bytes: &[u8],
) -> Result<(Note, &[u8]), ReadError>
    ensures { Gives (λ x. (x.0, x.1.now)) result (end_note_at total kind bytes.now) }
{
    if kind <= 13 {
        return read_ending(total, kind, bytes);
    }
    if kind == 14 {
        return read_takeover(alloc, total, bytes);
    }
    if kind == 15 {
        return read_pair(total, kind, bytes);
    }
    if kind == 16 {
        return read_undone(alloc, total, bytes);
    }
    read_recovered(alloc, total, bytes)
}

/// Writes what stands in a takeover behind the number of its part.
fn put_taken_over(
    out: &mut Vec<u8>,
    rest: bool,
    pages: &PageStampList,
    vector: &Vector,
) -> Result<(), AllocError>
    requires pages { ArePageStamps pages.now }
    requires vector { length vector.now ≤ 65535 }
    ensures { OnOk result (out.new.items ≡ out.old.items ++ (u8_bytes (flag_of rest) ++ (page_stamps_bytes pages.now ++ learnt_bytes vector.now))) }
{
    put_u8(out, u8::from(rest))?;
    put_page_stamps(out, pages.as_slice())?;
    put_vector(out, vector)?;
    Ok(())
}

/// Writes the body of a note of one of these kinds.
pub(crate) fn put_end_note(out: &mut Vec<u8>, note: &Note) -> Result<(), AllocError>
    requires sound { IsSound note.now }
    requires least { 12 ≤ kind_of note.now }
    requires most { kind_of note.now ≤ 17 }
    ensures { OnOk result (out.new.items ≡ out.old.items ++ body_bytes note.now) }
{
    match note {
        Note::Close {
            writer,
            length,
            store,
        }
        | Note::Closed {
            writer,
            length,
            store,
        } => put_ending(out, *writer, *length, *store)?,
        Note::Takeover {
            writer,
            part,
            rest,
            pages,
            vector,
        } => {
            put_pair(out, *writer, *part)?;
            put_taken_over(out, *rest, pages, vector)?;
        }
        Note::Taken { writer, part } => put_pair(out, *writer, *part)?,
        Note::Undone {
            writer,
            recoverer,
            vector,
        } => {
            put_u32(out, writer.0)?;
            put_u32(out, recoverer.0)?;
            put_vector(out, vector)?;
        }
        Note::Recovered { writer, vector } => {
            put_u32(out, writer.0)?;
            put_vector(out, vector)?;
        }
        _ => {}
    }
    Ok(())
}
