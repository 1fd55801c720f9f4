//! A log store acknowledges a group.
ghost use Rattle.std.specs.Prelude.{◌≡◌, ◌≤◌, true, IfOk, OnErr};
ghost use Rattle.tm_base.specs.declared.message.Node.TheVariants.{LogStore};
ghost use Rattle.master_model.specs.Acks.{on_ack, on_more};

use crate::ends::{end_all, ended_between};
use crate::gone::{clear_each, cut_each, draw_each, keep_each, release_each};
use crate::leaving::{planned, told};
use log_writer::laws::an_acknowledgement_is_taken_back_whole;
use master_work::WorkState;
use tm_base::{Mem, MessageList, Node};

/// More is durable than the groups up to a number, of which the log has let none behind it go. With want of memory
/// nothing changes.
fn on_more(work: &mut WorkState, old: u32) -> Mem<MessageList>
    requires { work.old.log.gone ≤ old }
    ensures ok { IfOk result (λ messages. (work.new, messages) ≡ on_more work.old old true) }
    ensures err { OnErr result (work.new ≡ work.old) }
{
    let all_ended = ended_between(work, old, work.timed.durable_seq())?;
    let ended = all_ended.as_slice();
    let leaving = planned(work, ended)?;
    let pages = leaving.as_slice();
    let messages = told(work, pages)?;
    work.left.make_room(pages.len())?;
    end_all(&mut work.tags, ended);
    release_each(&mut work.desk, pages);
    clear_each(&mut work.pool, pages);
    cut_each(&mut work.tags, pages);
    draw_each(&mut work.stock, pages);
    keep_each(&mut work.left, leaving);
    work.timed.let_go();
    Ok(messages)
}

/// A log store acknowledged a group. With want of memory nothing changes: the acknowledgement is taken back.
fn acknowledged(work: &mut WorkState, store: u8, seq: u32) -> Mem<MessageList>
    ensures ok { IfOk result (λ messages. (work.new, messages) ≡ on_ack work.old (LogStore store) seq) }
    ensures err { OnErr result (work.new ≡ work.old) }
{
    an_acknowledgement_is_taken_back_whole();
    let old = work.timed.durable_seq();
    work.timed.on_ack(store, seq);
    if work.timed.durable_seq() <= old {
        return Ok(MessageList::new(work.alloc));
    }
    let messages = match on_more(work, old) {
        Ok(messages) => messages,
        Err(no_memory) => {
            work.timed.take_back(store, seq);
            return Err(no_memory);
        }
    };
    Ok(messages)
}

/// A node acknowledged the group of that number; only of a log store it is noted. Where more is durable than before, the
/// three log stores are told, the tags of transactions go whose ends became durable, the recalled pages go whose last
/// change is durable, each with a release to the lock manager, and the log lets its durable groups go. With want of
/// memory nothing has changed.
pub fn on_ack(work: &mut WorkState, from: Node, seq: u32) -> Mem<MessageList>
    ensures ok { IfOk result (λ messages. (work.new, messages) ≡ on_ack work.old from seq) }
    ensures err { OnErr result (work.new ≡ work.old) }
{
    let Node::LogStore { number } = from else {
        return Ok(MessageList::new(work.alloc));
    };
    let messages = acknowledged(work, number, seq)?;
    Ok(messages)
}
