//! The text of messages.
ghost use Rattle.std.specs.Prelude.{◌≡◌, IfOk, string_bytes};
ghost use Rattle.node_messages.specs.Spelling.{IsMessage};
ghost use Rattle.schedule_text.specs.Messages.{note_name, message_text};

use crate::outcome::print_node;
use node_messages::encode;
use std::alloc::{AllocError, Global};
use text_fields::print_hex;
use tm_base::{ByteList, Mem, Message, Note};

/// The line of a transcript that shows a message, without its line feed. `number` is the message's
/// number there.
pub fn print_message(alloc: Global, number: u32, message: &Message) -> Mem<ByteList>
    requires { IsMessage message.now }
    ensures { IfOk result (λ text. text ≡ message_text number message.now) }
{
    let text = print(alloc, number, message)?;
    Ok(ByteList::from_vec(text.into_bytes()))
}

fn print(alloc: Global, number: u32, message: &Message) -> Result<String, AllocError>
    requires { IsMessage message.now }
    ensures { IfOk result (λ text. string_bytes text ≡ message_text number message.now) }
{
    let Ok(bytes) = encode(alloc, message) else {
        return Err(AllocError);
    };
    let bytes = print_hex(alloc, bytes.as_slice())?;
    let from = print_node(alloc, message.from, ">")?;
    let to = print_node(alloc, message.to, " ")?;
    let name = note_name(&message.note);
    format!(in alloc; "#{number} {from}{to}{name} {bytes}")
}

fn note_name(note: &Note) -> &'static str
    ensures { result.now ≡ note_name note.now }
{
    match note {
        Note::Register { .. } => "Register",
        Note::Registered { .. } => "Registered",
        Note::Append { .. } => "Append",
        Note::Ack { .. } => "Ack",
        Note::Gap { .. } => "Gap",
        Note::Sealed { .. } => "Sealed",
        Note::Stable { .. } => "Stable",
        Note::Fetch { .. } => "Fetch",
        Note::Groups { .. } => "Groups",
        Note::Seal { .. } => "Seal",
        Note::SealedAt { .. } => "SealedAt",
        Note::Close { .. } => "Close",
        Note::Closed { .. } => "Closed",
        Note::Takeover { .. } => "Takeover",
        Note::Taken { .. } => "Taken",
        Note::Undone { .. } => "Undone",
        Note::Recovered { .. } => "Recovered",
        Note::Request { .. } => "Request",
        Note::RequestFresh { .. } => "RequestFresh",
        Note::Recall { .. } => "Recall",
        Note::Grant { .. } => "Grant",
        Note::FreshIs { .. } => "FreshIs",
        Note::Release { .. } => "Release",
        Note::Released { .. } => "Released",
        Note::ReadPage { .. } => "ReadPage",
        Note::PageIs { .. } => "PageIs",
        Note::Missing { .. } => "Missing",
        Note::Ask { .. } => "Ask",
        Note::Fate { .. } => "Fate",
        Note::Roster { .. } => "Roster",
        Note::Want { .. } => "Want",
    }
}
