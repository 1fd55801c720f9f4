//! A writer is asked to come to a stamp.
ghost use Rattle.std.specs.Prelude.{◌≡◌, true, IfOk, OnErr};
ghost use Rattle.master_model.specs.Acks.{beats, on_want};
ghost use Rattle.master_model.specs.Logging.{has_numbers, has_stamps};

use crate::sends::append_to_all;
use master_work::WorkState;
use tm_base::{Mem, MessageList, Record, Stamp};

/// Logs a group that says nothing, and sends it. With want of memory nothing changes.
fn beat(work: &mut WorkState) -> Mem<MessageList>
    requires number { has_numbers work.old 1 ≡ true }
    requires stamp { has_stamps work.old 1 ≡ true }
    ensures ok { IfOk result (λ messages. (work.new, messages) ≡ beats work.old true) }
    ensures err { OnErr result (work.new ≡ work.old) }
{
    let group = work.next_group(Record::Beat)?;
    let messages = append_to_all(work, &group, group.stamp)?;
    work.log_plain(group)?;
    Ok(messages)
}

/// A stamp is wanted, which the scalar has heard: where the last group's is below it, and a number and a stamp are left,
/// a group that says nothing is logged and sent. With want of memory nothing changes.
pub fn on_want(work: &mut WorkState, wanted: Stamp) -> Mem<MessageList>
    ensures ok { IfOk result (λ messages. (work.new, messages) ≡ on_want work.old wanted.0) }
    ensures err { OnErr result (work.new ≡ work.old) }
{
    if work.timed.last_stamp().0 >= wanted.0 {
        return Ok(MessageList::new(work.alloc));
    }
    if !work.has_numbers(1) {
        return Ok(MessageList::new(work.alloc));
    }
    if !work.has_stamps(1) {
        return Ok(MessageList::new(work.alloc));
    }
    let messages = beat(work)?;
    Ok(messages)
}
