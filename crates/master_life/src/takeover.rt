//! The pages of the writer are taken over.
ghost use Rattle.std.specs.Prelude.{◌≡◌, ◌∷◌, ◌≤◌, [], IfOk, OnErr};
ghost use Rattle.std.specs.Vec.{vec_capacity};
ghost use Rattle.tm_data.specs.declared.transaction.Writer.{Writer};
ghost use Rattle.master_life.specs.Moves.{on_taken_one, takes, taken_says};

use master_model::Stage;
use master_recovery::Recovery;
use master_work::WorkState;
use std::alloc::Global;
use tm_base::{Mem, Message, MessageList, Note};

/// One message.
pub(crate) fn one(alloc: Global, message: Message) -> Mem<MessageList>
    ensures { IfOk result (λ messages. messages ≡ message ∷ []) }
{
    let mut messages = MessageList::new(alloc);
    messages.push(message)?;
    Ok(messages)
}

/// What takes a part of the writer's pages over, counted from 1.
pub(crate) fn takes(work: &WorkState, recovery: &Recovery, part: u32) -> Mem<MessageList>
    ensures { IfOk result (λ messages. messages ≡ takes work.now recovery.now part) }
{
    let pages = recovery.part(part)?;
    let vector = work.vector()?;
    let note = Note::Takeover {
        writer: recovery.writer(),
        part,
        rest: recovery.is_last(part),
        pages,
        vector,
    };
    let messages = one(work.alloc, work.to_locks(note))?;
    Ok(messages)
}

/// What is sent once a part is taken over: the next part, if there is one.
fn taken_says(work: &WorkState, recovery: &Recovery, told: u32) -> Mem<MessageList>
    ensures { IfOk result (λ messages. messages ≡ taken_says work.now recovery.now told recovery.now.stage) }
{
    let Stage::Take { part, rest } = recovery.stage() else {
        return Ok(MessageList::new(work.alloc));
    };
    if told != part || rest {
        return Ok(MessageList::new(work.alloc));
    }
    let messages = takes(work, recovery, recovery.part_after(part))?;
    Ok(messages)
}

/// A part is taken over. With want of memory nothing changes.
pub(crate) fn on_taken_one(work: &WorkState, recovery: &mut Recovery, told: u32) -> Mem<MessageList>
    ensures ok { IfOk result (λ messages. (work.now, recovery.new, messages) ≡ on_taken_one work.now recovery.old told) }
    ensures err { OnErr result (recovery.new ≡ recovery.old) }
{
    let messages = taken_says(work, recovery, told)?;
    recovery.on_taken(told);
    Ok(messages)
}
