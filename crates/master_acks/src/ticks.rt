//! What is sent on a tick.
ghost use Rattle.std.specs.Prelude.{◌≡◌, IfOk};
ghost use Rattle.master_model.specs.Acks.{releases_again, resends, stable, ticked};
ghost use Rattle.master_model.specs.Leases.{releasing_pages};

use crate::walk::pages_in;
use lease_desk::Lease;
use master_leases::again;
use master_work::WorkState;
use tm_base::{Mem, Message, MessageList, Node, Note, Page};

/// How far the log is durable, to a log store.
pub(crate) fn stable(work: &WorkState, store: u8) -> Message
    ensures { result ≡ stable work.now store }
{
    let note = Note::Stable {
        writer: work.writer(),
        seq: work.timed.durable_seq(),
    };
    work.message(Node::LogStore { number: store }, note)
}

/// To a log store its lowest groups that it hasn't acknowledged, and how far the log is durable.
fn resends(work: &WorkState, store: u8) -> Mem<MessageList>
    ensures { IfOk result (λ messages. messages ≡ resends work.now store) }
{
    let groups = work.timed.resend(store)?;
    let mut messages = MessageList::new(work.alloc);
    for group in groups.into_vec() {
        let note = Note::Append { group };
        messages.push(work.message(Node::LogStore { number: store }, note))?;
    }
    if work.timed.durable_seq() > 0 {
        messages.push(stable(work, store))?;
    }
    Ok(messages)
}

/// What was told of each page that is being given back.
fn releases_again(work: &WorkState) -> Mem<MessageList>
    ensures { IfOk result (λ messages. messages ≡ releases_again work.now (releasing_pages work.now)) }
{
    let pages = pages_in(work.alloc, &work.desk, Lease::Releasing)?;
    let mut messages = MessageList::new(work.alloc);
    for page in pages.as_slice() {
        messages.append(again(work, Page(*page))?)?;
    }
    Ok(messages)
}

/// What is sent on a tick, which changes nothing: to each log store its lowest groups that it hasn't acknowledged, and
/// how far the log is durable; once more, what was told of each page that is being given back; and the question which
/// roster is the last.
#[tactic(auto, using(crate::proofs::ListLemmas::in_turn))]
pub fn ticked(work: &WorkState) -> Mem<MessageList>
    ensures { IfOk result (λ messages. messages ≡ ticked work.now) }
{
    let mut messages = resends(work, 1)?;
    messages.append(resends(work, 2)?)?;
    messages.append(resends(work, 3)?)?;
    messages.append(releases_again(work)?)?;
    messages.push(work.to_locks(Note::Want { writer: None }))?;
    Ok(messages)
}
