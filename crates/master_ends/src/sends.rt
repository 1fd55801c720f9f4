//! Groups that are sent.
ghost use Rattle.std.specs.Prelude.{◌≡◌, IfOk};
ghost use Rattle.master_model.specs.Acks.{append, appends, to_stores};

use master_work::WorkState;
use tm_base::{Group, Mem, Message, MessageList, Node, Note, Stamp, TryCopy};

/// A group to a log store, with this scalar.
fn append(work: &WorkState, group: &Group, scalar: Stamp, store: u8) -> Mem<Message>
    ensures { IfOk result (λ message. message ≡ record (append work.now group.now store) { stamp = scalar }) }
{
    let note = Note::Append {
        group: group.copy()?,
    };
    let mut message = work.message(Node::LogStore { number: store }, note);
    message.stamp = scalar;
    Ok(message)
}

/// A group to each of the three log stores, with this scalar.
pub(crate) fn append_to_all(work: &WorkState, group: &Group, scalar: Stamp) -> Mem<MessageList>
    ensures { IfOk result (λ messages. messages ≡ to_stores (λ store. record (append work.now group.now store) { stamp = scalar })) }
{
    let mut messages = MessageList::new(work.alloc);
    messages.push(append(work, group, scalar, 1)?)?;
    messages.push(append(work, group, scalar, 2)?)?;
    messages.push(append(work, group, scalar, 3)?)?;
    Ok(messages)
}

/// A group to each of the three log stores, with the present scalar.
fn append_now(work: &WorkState, group: &Group) -> Mem<MessageList>
    ensures { IfOk result (λ messages. messages ≡ to_stores (append work.now group.now)) }
{
    let scalar = work.timed.scalar();
    let messages = append_to_all(work, group, scalar)?;
    Ok(messages)
}

/// Groups go one after another, each to the three log stores, with the present scalar.
pub fn appends(work: &WorkState, groups: &[Group]) -> Mem<MessageList>
    ensures { IfOk result (λ messages. messages ≡ appends work.now groups.now) }
{
    let mut messages = MessageList::new(work.alloc);
    for group in groups {
        messages.append(append_now(work, group)?)?;
    }
    Ok(messages)
}
