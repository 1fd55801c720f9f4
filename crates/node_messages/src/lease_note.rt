//! Kinds 18 to 24: leases.
ghost use Rattle.std.specs.Prelude.{◌≡◌, ◌≤◌, ◌++◌, OnOk};
ghost use Rattle.wire_fields.specs.Reading.{Gives};
ghost use Rattle.node_messages.specs.Spelling.{kind_of, page_number, body_bytes, IsSound};
ghost use Rattle.node_messages.specs.Reading.{some_page, fresh_at, lease_note_at};

use crate::shape::{put_lease, put_left, put_pair, read_grant, read_pair, read_recall};
use message_parts::read_writer;
use std::alloc::{AllocError, Global};
use tm_base::{Note, Page};
use wire_fields::{ReadError, put_u32, read_u32};

fn some_page(number: u32) -> Option<Page>
    ensures { result ≡ some_page number }
{
    if number == 0 {
        return None;
    }
    Some(Page(number))
}

#[tactic(auto, unfolding(crate::specs::Reading::fresh_at))]
fn read_fresh(total: usize, bytes: &[u8]) -> Result<(Note, &[u8]), ReadError>
    ensures { Gives (λ x. (x.0, x.1.now)) result (fresh_at total bytes.now) }
{
    let (writer, rest) = read_writer(total, bytes)?;
    let (nth, rest) = read_u32(total, 0, u32::MAX, rest)?;
    let (number, rest) = read_u32(total, 0, u32::MAX, rest)?;
    let page = some_page(number);
    Ok((Note::FreshIs { writer, nth, page }, rest))
}

/// Reads a note of one of these kinds.
#[tactic(auto, unfolding(crate::specs::Reading::lease_note_at))]
pub(crate) fn read_lease_note(
    alloc: Global,
    total: usize,
    kind: u8,
    bytes: &[u8],
) -> Result<(Note, &[u8]), ReadError>
    ensures { Gives (λ x. (x.0, x.1.now)) result (lease_note_at total kind bytes.now) }
{
    if kind <= 19 {
        return read_pair(total, kind, bytes);
    }
    if kind == 20 {
        return read_recall(total, kind, bytes);
    }
    if kind == 22 {
        return read_fresh(total, bytes);
    }
    if kind == 24 {
        return read_recall(total, kind, bytes);
    }
    read_grant(alloc, total, kind, bytes)
}

fn page_number(page: Option<Page>) -> u32
    ensures { result ≡ page_number page }
{
    match page {
        Some(page) => page.0,
        None => 0,
    }
}

/// Writes the body of a note of one of these kinds.
pub(crate) fn put_lease_note(out: &mut Vec<u8>, note: &Note) -> Result<(), AllocError>
    requires sound { IsSound note.now }
    requires least { 18 ≤ kind_of note.now }
    requires most { kind_of note.now ≤ 24 }
    ensures { OnOk result (out.new.items ≡ out.old.items ++ body_bytes note.now) }
{
    match note {
        Note::Request { writer, page } => put_pair(out, *writer, page.0)?,
        Note::RequestFresh { writer, nth } => put_pair(out, *writer, *nth)?,
        Note::Recall {
            writer,
            page,
            epoch,
        }
        | Note::Released {
            writer,
            page,
            epoch,
        } => put_lease(out, *writer, *page, *epoch)?,
        Note::Grant {
            writer,
            page,
            epoch,
            stamp,
            tags,
            vector,
        }
        | Note::Release {
            writer,
            page,
            epoch,
            stamp,
            tags,
            vector,
        } => {
            put_lease(out, *writer, *page, *epoch)?;
            put_left(out, *stamp, tags, vector)?;
        }
        Note::FreshIs { writer, nth, page } => {
            put_pair(out, *writer, *nth)?;
            put_u32(out, page_number(*page))?;
        }
        _ => {}
    }
    Ok(())
}
