//! Whether transactions have ended: what is asked and told.
ghost use Rattle.std.specs.Prelude.{◌≡◌, ◌≤◌, ◌-◌, ◌^◌, true, false, [], IfOk, OnOk, OnErr};
ghost use Rattle.std.specs.FinSet as sets;
ghost use Rattle.tm_data.specs.Vectors.{greatest};
ghost use Rattle.master_model.specs.Fates.{hears, on_ask, on_fate, with_end, with_mark};

use master_work::{WorkState, end_tags};
use tm_base::{Mem, MessageList, Node, Note, Txn, Vector};

/// A master asks whether a transaction has ended. It is told if the transaction is this writer's.
pub fn on_ask(work: &WorkState, txn: Txn, master: u8) -> Mem<MessageList>
    ensures { IfOk result (λ messages. (work.now, messages) ≡ on_ask work.now txn master) }
{
    let mut messages = MessageList::new(work.alloc);
    if !work.is_own(txn) {
        return Ok(messages);
    }
    let ended = work.has_ended(txn.number);
    let vector = work.vector()?;
    let note = Note::Fate { txn, ended, vector };
    messages.push(work.message(Node::Master { number: master }, note))?;
    Ok(messages)
}

/// What is known of each writer is heard. With want of memory nothing changes.
fn hear(work: &mut WorkState, vector: &Vector) -> Mem<()>
    requires { greatest vector.now ≤ 2 ^ 63 - 1 }
    ensures ok { OnOk result (work.new ≡ hears work.old vector.now) }
    ensures err { OnErr result (work.new ≡ work.old) }
{
    work.timed.hear_vector(vector)?;
    Ok(())
}

/// A transaction's end is kept for ever, and its tags go. With want of memory nothing changes.
fn end(work: &mut WorkState, txn: Txn, vector: &Vector) -> Mem<()>
    requires { greatest vector.now ≤ 2 ^ 63 - 1 }
    ensures ok { OnOk result (work.new ≡ with_end (hears work.old vector.now) txn) }
    ensures err { OnErr result (work.new ≡ work.old) }
{
    let mut clock = work.timed.clock()?;
    clock.hear_vector(vector)?;
    work.ended.insert(txn)?;
    work.timed.set_clock(clock);
    work.told_open.remove(txn);
    end_tags(&mut work.tags, txn);
    Ok(())
}

/// That a transaction is open is noted, unless its end is known. With want of memory nothing changes.
fn mark(work: &mut WorkState, txn: Txn, vector: &Vector) -> Mem<()>
    requires { greatest vector.now ≤ 2 ^ 63 - 1 }
    ensures ok { OnOk result (work.new ≡ with_mark (hears work.old vector.now) txn (sets.contains work.old.ended txn)) }
    ensures err { OnErr result (work.new ≡ work.old) }
{
    if work.ended.contains(txn) {
        hear(work, vector)?;
        return Ok(());
    }
    let mut clock = work.timed.clock()?;
    clock.hear_vector(vector)?;
    work.told_open.insert(txn)?;
    work.timed.set_clock(clock);
    Ok(())
}

/// A transaction has ended, or is open, as its writer says, with what that writer knows of each other: stamps up to
/// `2^63 - 1`. Only of another writer's transaction is it noted. With want of memory nothing changes.
pub fn on_fate(work: &mut WorkState, txn: Txn, ended: bool, vector: &Vector) -> Mem<()>
    requires { greatest vector.now ≤ 2 ^ 63 - 1 }
    ensures ok { OnOk result ((work.new, []) ≡ on_fate work.old txn ended vector.now) }
    ensures err { OnErr result (work.new ≡ work.old) }
{
    if work.is_own(txn) {
        hear(work, vector)?;
        return Ok(());
    }
    if ended {
        end(work, txn, vector)?;
        return Ok(());
    }
    mark(work, txn, vector)?;
    Ok(())
}
