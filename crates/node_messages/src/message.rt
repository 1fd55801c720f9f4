//! Messages as bytes.
ghost use Rattle.std.specs.Prelude.{◌≡◌, ◌++◌, IfOk, OnOk, Ok};
ghost use Rattle.wire_fields.specs.Reading.{Gives};
ghost use Rattle.tm_base.specs.declared.message.Message.{Message as One};
ghost use Rattle.node_messages.specs.Spelling.{kind_of, body_bytes, IsSound, message_bytes, IsMessage};
ghost use Rattle.node_messages.specs.Reading.{note_at, message_at, message_of};

use crate::end_note::{put_end_note, read_end_note};
use crate::lease_note::{put_lease_note, read_lease_note};
use crate::log_note::{put_log_note, read_log_note};
use crate::page_note::{put_page_note, read_page_note};
use message_parts::{put_node, read_node, read_stamp};
use std::alloc::{AllocError, Global};
use tm_base::{ByteList, Mem, Message, Note};
use wire_fields::{ReadError, check_end, put_u8, put_u64, read_kind};

fn kind_of(note: &Note) -> u8
    ensures { result ≡ kind_of note.now }
{
    match note {
        Note::Register { .. } => 1,
        Note::Registered { .. } => 2,
        Note::Append { .. } => 3,
        Note::Ack { .. } => 4,
        Note::Gap { .. } => 5,
        Note::Sealed { .. } => 6,
        Note::Stable { .. } => 7,
        Note::Fetch { .. } => 8,
        Note::Groups { .. } => 9,
        Note::Seal { .. } => 10,
        Note::SealedAt { .. } => 11,
        Note::Close { .. } => 12,
        Note::Closed { .. } => 13,
        Note::Takeover { .. } => 14,
        Note::Taken { .. } => 15,
        Note::Undone { .. } => 16,
        Note::Recovered { .. } => 17,
        Note::Request { .. } => 18,
        Note::RequestFresh { .. } => 19,
        Note::Recall { .. } => 20,
        Note::Grant { .. } => 21,
        Note::FreshIs { .. } => 22,
        Note::Release { .. } => 23,
        Note::Released { .. } => 24,
        Note::ReadPage { .. } => 25,
        Note::PageIs { .. } => 26,
        Note::Missing { .. } => 27,
        Note::Ask { .. } => 28,
        Note::Fate { .. } => 29,
        Note::Roster { .. } => 30,
        Note::Want { .. } => 31,
    }
}

#[tactic(auto, unfolding(crate::specs::Reading::note_at))]
fn read_note(
    alloc: Global,
    total: usize,
    kind: u8,
    bytes: &[u8],
) -> Result<(Note, &[u8]), ReadError>
    ensures { Gives (λ x. (x.0, x.1.now)) result (note_at total kind bytes.now) }
{
    if kind <= 11 {
        return read_log_note(alloc, total, kind, bytes);
    }
    if kind <= 17 {
        return read_end_note(alloc, total, kind, bytes);
    }
    if kind <= 24 {
        return read_lease_note(alloc, total, kind, bytes);
    }
    read_page_note(alloc, total, kind, bytes)
}

fn put_note(out: &mut Vec<u8>, note: &Note) -> Result<(), AllocError>
    requires { IsSound note.now }
    ensures { OnOk result (out.new.items ≡ out.old.items ++ body_bytes note.now) }
{
    let kind = kind_of(note);
    if kind <= 11 {
        return put_log_note(out, note);
    }
    if kind <= 17 {
        return put_end_note(out, note);
    }
    if kind <= 24 {
        return put_lease_note(out, note);
    }
    put_page_note(out, note)
}

#[tactic(auto, unfolding(crate::specs::Reading::message_at))]
fn read_message(alloc: Global, total: usize, bytes: &[u8]) -> Result<(Message, &[u8]), ReadError>
    ensures { Gives (λ x. (x.0, x.1.now)) result (message_at total bytes.now) }
{
    let (from, rest) = read_node(total, bytes)?;
    let (to, rest) = read_node(total, rest)?;
    let (stamp, rest) = read_stamp(total, rest)?;
    let (kind, rest) = read_kind(total, 1, 31, rest)?;
    let (note, rest) = read_note(alloc, total, kind, rest)?;
    let message = Message {
        from,
        to,
        stamp,
        note,
    };
    Ok((message, rest))
}

fn put_message(out: &mut Vec<u8>, message: &Message) -> Result<(), AllocError>
    requires { IsMessage message.now }
    ensures { OnOk result (out.new.items ≡ out.old.items ++ message_bytes message.now) }
{
    put_node(out, message.from)?;
    put_node(out, message.to)?;
    put_u64(out, message.stamp.0)?;
    put_u8(out, kind_of(&message.note))?;
    put_note(out, &message.note)?;
    Ok(())
}

#[tactic(auto, unfolding(crate::specs::Reading::message_of))]
fn read_whole(alloc: Global, bytes: &[u8]) -> Result<Message, ReadError>
    ensures { Gives (λ x. x) result (message_of bytes.now) }
{
    let total = bytes.len();
    let (message, rest) = read_message(alloc, total, bytes)?;
    check_end(total, rest)?;
    Ok(message)
}

/// The message that the bytes spell, all of the bytes.
///
/// Refuses other bytes by the cause and the offset of their first wrong field. Memory is taken for what
/// the bytes have, and not for what they claim to have.
pub fn decode(alloc: Global, bytes: &[u8]) -> Result<Message, ReadError>
    // What is read is spelled so.
    ensures found { IfOk result (λ m. IsMessage m × (bytes.now ≡ message_bytes m)) }
    // What is spelled so is read, unless memory runs out.
    ensures only { (m : One) → IsMessage m → bytes.now ≡ message_bytes m → Gives (λ x. x) result (Ok m) }
    // Which fault it is.
    ensures exact { Gives (λ x. x) result (message_of bytes.now) }
{
    read_whole(alloc, bytes)
}

/// The one spelling of the message.
pub fn encode(alloc: Global, message: &Message) -> Mem<ByteList>
    requires { IsMessage message.now }
    ensures { IfOk result (λ bytes. bytes ≡ message_bytes message.now) }
{
    let mut out = Vec::new(alloc);
    put_message(&mut out, message)?;
    Ok(ByteList::from_vec(out))
}
