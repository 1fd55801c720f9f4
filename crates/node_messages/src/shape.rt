//! Bodies that several kinds have.
ghost use Rattle.std.specs.Prelude.{◌≡◌, ◌≤◌, ◌++◌, length, OnOk};
ghost use Rattle.wire_fields.specs.Reading.{Gives};
ghost use Rattle.node_messages.specs.Spelling.{pair_bytes, end_bytes, lease_bytes, left_bytes};
ghost use Rattle.message_parts.specs.Spelling.{AreTags};
ghost use Rattle.node_messages.specs.Reading.{pair_note, pair_at, ending_note, ending_at, lease_at, recall_note, recall_at, grant_note, grant_at};

use log_record::{put_vector, read_vector};
use message_parts::{put_tags, read_page, read_stamp, read_tags, read_writer};
use std::alloc::{AllocError, Global};
use tm_base::{Note, Page, Stamp, TagList, Vector, Writer};
use wire_fields::{ReadError, put_u8, put_u32, put_u64, read_u8, read_u32};

fn pair_note(kind: u8, writer: Writer, number: u32) -> Note
    ensures { result ≡ pair_note kind writer number }
{
    match kind {
        4 => Note::Ack {
            writer,
            seq: number,
        },
        5 => Note::Gap {
            writer,
            next: number,
        },
        6 => Note::Sealed {
            writer,
            length: number,
        },
        7 => Note::Stable {
            writer,
            seq: number,
        },
        8 => Note::Fetch {
            writer,
            first: number,
        },
        11 => Note::SealedAt {
            writer,
            length: number,
        },
        15 => Note::Taken {
            writer,
            part: number,
        },
        18 => Note::Request {
            writer,
            page: Page(number),
        },
        _ => Note::RequestFresh {
            writer,
            nth: number,
        },
    }
}

/// Reads a note of a writer and a number.
#[tactic(auto, unfolding(crate::specs::Reading::pair_at))]
pub(crate) fn read_pair(total: usize, kind: u8, bytes: &[u8]) -> Result<(Note, &[u8]), ReadError>
    ensures { Gives (λ x. (x.0, x.1.now)) result (pair_at total kind bytes.now) }
{
    let (writer, rest) = read_writer(total, bytes)?;
    let (number, rest) = read_u32(total, 0, u32::MAX, rest)?;
    Ok((pair_note(kind, writer, number), rest))
}

/// Writes a writer and a number.
pub(crate) fn put_pair(out: &mut Vec<u8>, writer: Writer, number: u32) -> Result<(), AllocError>
    ensures { OnOk result (out.new.items ≡ out.old.items ++ pair_bytes writer number) }
{
    put_u32(out, writer.0)?;
    put_u32(out, number)?;
    Ok(())
}

fn ending_note(kind: u8, writer: Writer, length: u32, store: u8) -> Note
    ensures { result ≡ ending_note kind writer length store }
{
    if kind == 12 {
        return Note::Close {
            writer,
            length,
            store,
        };
    }
    Note::Closed {
        writer,
        length,
        store,
    }
}

/// Reads a note of the end of a log.
#[tactic(auto, unfolding(crate::specs::Reading::ending_at))]
pub(crate) fn read_ending(total: usize, kind: u8, bytes: &[u8]) -> Result<(Note, &[u8]), ReadError>
    ensures { Gives (λ x. (x.0, x.1.now)) result (ending_at total kind bytes.now) }
{
    let (writer, rest) = read_writer(total, bytes)?;
    let (length, rest) = read_u32(total, 0, u32::MAX, rest)?;
    let (store, rest) = read_u8(total, 0, u8::MAX, rest)?;
    Ok((ending_note(kind, writer, length, store), rest))
}

/// Writes the end of a log.
pub(crate) fn put_ending(
    out: &mut Vec<u8>,
    writer: Writer,
    length: u32,
    store: u8,
) -> Result<(), AllocError>
    ensures { OnOk result (out.new.items ≡ out.old.items ++ end_bytes writer length store) }
{
    put_u32(out, writer.0)?;
    put_u32(out, length)?;
    put_u8(out, store)?;
    Ok(())
}

/// A lease: whose it is, of which page, and its epoch.
#[derive(Clone, Copy)]
pub(crate) struct Lease {
    pub(crate) writer: Writer,
    pub(crate) page: Page,
    pub(crate) epoch: u32,
}

#[tactic(auto, unfolding(crate::specs::Reading::lease_at))]
fn read_lease(total: usize, bytes: &[u8]) -> Result<(Lease, &[u8]), ReadError>
    ensures { Gives (λ x. (x.0, x.1.now)) result (lease_at total bytes.now) }
{
    let (writer, rest) = read_writer(total, bytes)?;
    let (page, rest) = read_page(total, rest)?;
    let (epoch, rest) = read_u32(total, 0, u32::MAX, rest)?;
    let lease = Lease {
        writer,
        page,
        epoch,
    };
    Ok((lease, rest))
}

/// Writes a lease.
pub(crate) fn put_lease(
    out: &mut Vec<u8>,
    writer: Writer,
    page: Page,
    epoch: u32,
) -> Result<(), AllocError>
    ensures { OnOk result (out.new.items ≡ out.old.items ++ lease_bytes writer page epoch) }
{
    put_u32(out, writer.0)?;
    put_u32(out, page.0)?;
    put_u32(out, epoch)?;
    Ok(())
}

fn recall_note(kind: u8, lease: Lease) -> Note
    ensures { result ≡ recall_note kind lease }
{
    let Lease {
        writer,
        page,
        epoch,
    } = lease;
    if kind == 20 {
        return Note::Recall {
            writer,
            page,
            epoch,
        };
    }
    Note::Released {
        writer,
        page,
        epoch,
    }
}

/// Reads a note of a lease alone.
#[tactic(auto, unfolding(crate::specs::Reading::recall_at))]
pub(crate) fn read_recall(total: usize, kind: u8, bytes: &[u8]) -> Result<(Note, &[u8]), ReadError>
    ensures { Gives (λ x. (x.0, x.1.now)) result (recall_at total kind bytes.now) }
{
    let (lease, rest) = read_lease(total, bytes)?;
    Ok((recall_note(kind, lease), rest))
}

fn grant_note(kind: u8, lease: Lease, stamp: Stamp, tags: TagList, vector: Vector) -> Note
    ensures { result ≡ grant_note kind lease stamp tags vector }
{
    let Lease {
        writer,
        page,
        epoch,
    } = lease;
    if kind == 21 {
        return Note::Grant {
            writer,
            page,
            epoch,
            stamp,
            tags,
            vector,
        };
    }
    Note::Release {
        writer,
        page,
        epoch,
        stamp,
        tags,
        vector,
    }
}

/// Reads a note of a lease with what it hands on.
#[tactic(auto, unfolding(crate::specs::Reading::grant_at))]
pub(crate) fn read_grant(
    alloc: Global,
    total: usize,
    kind: u8,
    bytes: &[u8],
) -> Result<(Note, &[u8]), ReadError>
    ensures { Gives (λ x. (x.0, x.1.now)) result (grant_at total kind bytes.now) }
{
    let (lease, rest) = read_lease(total, bytes)?;
    let (stamp, rest) = read_stamp(total, rest)?;
    let (tags, rest) = read_tags(alloc, total, rest)?;
    let (vector, rest) = read_vector(alloc, total, 0, rest)?;
    Ok((grant_note(kind, lease, stamp, tags, vector), rest))
}

/// Writes what a lease hands on.
pub(crate) fn put_left(
    out: &mut Vec<u8>,
    stamp: Stamp,
    tags: &TagList,
    vector: &Vector,
) -> Result<(), AllocError>
    requires tags { AreTags tags.now }
    requires vector { length vector.now ≤ 65535 }
    ensures { OnOk result (out.new.items ≡ out.old.items ++ left_bytes stamp tags.now vector.now) }
{
    put_u64(out, stamp.0)?;
    put_tags(out, tags.as_slice())?;
    put_vector(out, vector)?;
    Ok(())
}
