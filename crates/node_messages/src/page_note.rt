//! Kinds 25 to 31: pages, fates and rosters.
ghost use Rattle.std.specs.Prelude.{◌≡◌, ◌≤◌, ◌++◌, OnOk};
ghost use Rattle.wire_fields.specs.Reading.{Gives};
ghost use Rattle.node_messages.specs.Spelling.{kind_of, writer_number, body_bytes, IsSound};
ghost use Rattle.node_messages.specs.Reading.{read_page_at, page_is_at, missing_at, ask_at, fate_at, roster_note_at, some_writer, want_at, page_note_at};

use log_record::{put_vector, read_vector};
use message_parts::{put_roster, read_flag, read_page, read_roster, read_stamp};
use page_image::{put_image, put_txn, read_image, read_txn};
use std::alloc::{AllocError, Global};
use tm_base::{Note, Writer};
use wire_fields::{ReadError, put_u8, put_u32, put_u64, read_u8, read_u32};

#[tactic(auto, unfolding(crate::specs::Reading::read_page_at))]
fn read_read_page(total: usize, bytes: &[u8]) -> Result<(Note, &[u8]), ReadError>
    ensures { Gives (λ x. (x.0, x.1.now)) result (read_page_at total bytes.now) }
{
    let (page, rest) = read_page(total, bytes)?;
    Ok((Note::ReadPage { page }, rest))
}

#[tactic(auto, unfolding(crate::specs::Reading::page_is_at))]
fn read_page_is(alloc: Global, total: usize, bytes: &[u8]) -> Result<(Note, &[u8]), ReadError>
    ensures { Gives (λ x. (x.0, x.1.now)) result (page_is_at total bytes.now) }
{
    let (image, rest) = read_image(alloc, total, bytes)?;
    Ok((Note::PageIs { image }, rest))
}

#[tactic(auto, unfolding(crate::specs::Reading::missing_at))]
fn read_missing(total: usize, bytes: &[u8]) -> Result<(Note, &[u8]), ReadError>
    ensures { Gives (λ x. (x.0, x.1.now)) result (missing_at total bytes.now) }
{
    let (page, rest) = read_page(total, bytes)?;
    let (stamp, rest) = read_stamp(total, rest)?;
    Ok((Note::Missing { page, stamp }, rest))
}

#[tactic(auto, unfolding(crate::specs::Reading::ask_at))]
fn read_ask(total: usize, bytes: &[u8]) -> Result<(Note, &[u8]), ReadError>
    ensures { Gives (λ x. (x.0, x.1.now)) result (ask_at total bytes.now) }
{
    let (txn, rest) = read_txn(total, bytes)?;
    let (master, rest) = read_u8(total, 0, u8::MAX, rest)?;
    Ok((Note::Ask { txn, master }, rest))
}

#[tactic(auto, unfolding(crate::specs::Reading::fate_at))]
fn read_fate(alloc: Global, total: usize, bytes: &[u8]) -> Result<(Note, &[u8]), ReadError>
    ensures { Gives (λ x. (x.0, x.1.now)) result (fate_at total bytes.now) }
{
    let (txn, rest) = read_txn(total, bytes)?;
    let (ended, rest) = read_flag(total, rest)?;
    let (vector, rest) = read_vector(alloc, total, 0, rest)?;
    Ok((Note::Fate { txn, ended, vector }, rest))
}

#[tactic(auto, unfolding(crate::specs::Reading::roster_note_at))]
fn read_roster_note(alloc: Global, total: usize, bytes: &[u8]) -> Result<(Note, &[u8]), ReadError>
    ensures { Gives (λ x. (x.0, x.1.now)) result (roster_note_at total bytes.now) }
{
    let (entries, rest) = read_roster(alloc, total, bytes)?;
    Ok((Note::Roster { entries }, rest))
}

fn some_writer(number: u32) -> Option<Writer>
    ensures { result ≡ some_writer number }
{
    if number == 0 {
        return None;
    }
    Some(Writer(number))
}

#[tactic(auto, unfolding(crate::specs::Reading::want_at))]
fn read_want(total: usize, bytes: &[u8]) -> Result<(Note, &[u8]), ReadError>
    ensures { Gives (λ x. (x.0, x.1.now)) result (want_at total bytes.now) }
{
    let (number, rest) = read_u32(total, 0, u32::MAX, bytes)?;
    let writer = some_writer(number);
    Ok((Note::Want { writer }, rest))
}

/// Reads a note of one of these kinds.
#[tactic(auto, unfolding(crate::specs::Reading::page_note_at))]
pub(crate) fn read_page_note(
    alloc: Global,
    total: usize,
    kind: u8,
    bytes: &[u8],
) -> Result<(Note, &[u8]), ReadError>
    ensures { Gives (λ x. (x.0, x.1.now)) result (page_note_at total kind bytes.now) }
{
    if kind == 25 {
        return read_read_page(total, bytes);
    }
    if kind == 26 {
        return read_page_is(alloc, total, bytes);
    }
    if kind == 27 {
        return read_missing(total, bytes);
    }
    if kind == 28 {
        return read_ask(total, bytes);
    }
    if kind == 29 {
        return read_fate(alloc, total, bytes);
    }
    if kind == 30 {
        return read_roster_note(alloc, total, bytes);
    }
    read_want(total, bytes)
}

fn writer_number(writer: Option<Writer>) -> u32
    ensures { result ≡ writer_number writer }
{
    match writer {
        Some(writer) => writer.0,
        None => 0,
    }
}

/// Writes the body of a note of one of these kinds.
pub(crate) fn put_page_note(out: &mut Vec<u8>, note: &Note) -> Result<(), AllocError>
    requires sound { IsSound note.now }
    requires kind { 25 ≤ kind_of note.now }
    ensures { OnOk result (out.new.items ≡ out.old.items ++ body_bytes note.now) }
{
    match note {
        Note::ReadPage { page } => put_u32(out, page.0)?,
        Note::PageIs { image } => put_image(out, image)?,
        Note::Missing { page, stamp } => {
            put_u32(out, page.0)?;
            put_u64(out, stamp.0)?;
        }
        Note::Ask { txn, master } => {
            put_txn(out, *txn)?;
            put_u8(out, *master)?;
        }
        Note::Fate { txn, ended, vector } => {
            put_txn(out, *txn)?;
            put_u8(out, u8::from(*ended))?;
            put_vector(out, vector)?;
        }
        Note::Roster { entries } => put_roster(out, entries.as_slice())?,
        Note::Want { writer } => put_u32(out, writer_number(*writer))?,
        _ => {}
    }
    Ok(())
}
