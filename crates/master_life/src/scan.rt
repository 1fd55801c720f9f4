//! The writer's log is sealed, closed and read.
ghost use Rattle.std.specs.Prelude.{◌≡◌, ◌∷◌, ◌≤◌, ◌+◌, ◌-◌, ◌^◌, [], length, nat_le, true, false, IfOk, OnOk, OnErr};
ghost use Rattle.std.specs.List.{AllByRecursion};
ghost use Rattle.std.specs.Vec.{vec_capacity};
ghost use Rattle.vs_clock.specs.State.{heard_vector, sending};
ghost use Rattle.log_writer.specs.Log.{durable_stamp};
ghost use Rattle.master_model.specs.Recovery.{closes, fetches, in_turn, takes_over};
ghost use Rattle.master_recovery.specs.Seen.{listed, scanned};
ghost use Rattle.master_life.specs.Moves.{Fits, closed_says, hears_all, on_closed_one, on_groups_one, on_sealed_one, scans_with, sealed_says, told_by};

use crate::takeover::{one, takes};
use master_model::Stage;
use master_recovery::{Recovery, is_next};
use master_work::WorkState;
use tm_base::{Group, Mem, Message, MessageList, Node, Note, Vector, Writer};
use vs_clock::Clock;

/// What is sent once a log store has sealed the log: the lock manager is asked to close it there.
fn sealed_says(work: &WorkState, recovery: &Recovery, store: u8, length: u32) -> Mem<MessageList>
    ensures { IfOk result (λ messages. messages ≡ sealed_says work.now recovery.now store length recovery.now.stage) }
{
    if !matches!(recovery.stage(), Stage::Seal) {
        return Ok(MessageList::new(work.alloc));
    }
    let note = Note::Close {
        writer: recovery.writer(),
        length,
        store,
    };
    let messages = one(work.alloc, work.to_locks(note))?;
    Ok(messages)
}

/// A log store has sealed the log. With want of memory nothing changes.
pub(crate) fn on_sealed_one(
    work: &WorkState,
    recovery: &mut Recovery,
    store: u8,
    length: u32,
) -> Mem<MessageList>
    ensures ok { IfOk result (λ messages. (work.now, recovery.new, messages) ≡ on_sealed_one work.now recovery.old store length) }
    ensures err { OnErr result (recovery.new ≡ recovery.old) }
{
    let messages = sealed_says(work, recovery, store, length)?;
    recovery.on_sealed(store, length);
    Ok(messages)
}

/// The request for the groups of a writer's log from a number on.
fn fetch(work: &WorkState, writer: Writer, store: u8, first: u32) -> Message
    ensures { result ∷ [] ≡ fetches work.now writer.0 store first }
{
    let note = Note::Fetch { writer, first };
    work.message(Node::LogStore { number: store }, note)
}

/// What is sent once the log is closed: the first group is asked for, or, where there is none, the pages are taken over.
fn closed_says(work: &WorkState, recovery: &Recovery, store: u8, length: u32) -> Mem<MessageList>
    ensures { IfOk result (λ messages. messages ≡ closed_says work.now recovery.now store length recovery.now.stage) }
{
    if !matches!(recovery.stage(), Stage::Close { .. }) {
        return Ok(MessageList::new(work.alloc));
    }
    if length == 0 {
        let messages = takes(work, recovery, 1)?;
        return Ok(messages);
    }
    let messages = one(work.alloc, fetch(work, recovery.writer(), store, 1))?;
    Ok(messages)
}

/// The log is closed. With want of memory nothing changes.
pub(crate) fn on_closed_one(
    work: &WorkState,
    recovery: &mut Recovery,
    store: u8,
    length: u32,
) -> Mem<MessageList>
    ensures ok { IfOk result (λ messages. (work.now, recovery.new, messages) ≡ on_closed_one work.now recovery.old store length) }
    ensures err { OnErr result (recovery.new ≡ recovery.old) }
{
    let messages = closed_says(work, recovery, store, length)?;
    recovery.on_closed(store, length);
    Ok(messages)
}

/// A clock hears what a group tells, with the group's own stamp as the entry of its writer.
#[tactic(auto, using(crate::proofs::HearLemmas::told_fits))]
fn hear_group(clock: &mut Clock, group: &Group) -> Mem<()>
    requires { Fits group.now }
    ensures ok { OnOk result (clock.new ≡ heard_vector clock.old (told_by group.now)) }
    ensures later { OnOk result (clock.old.scalar ≤ clock.new.scalar) }
{
    let own = Vector::single(group.learnt.allocator(), group.writer, group.stamp)?;
    let told = group.learnt.joined(&own)?;
    clock.hear_vector(&told)?;
    Ok(())
}

/// A clock hears those groups that come next in the closed log, from the one of number `first` on, and the number of the
/// one that comes next after them is given.
fn hear_in_turn(
    clock: &mut Clock,
    writer: Writer,
    first: u32,
    most: u32,
    groups: &[Group],
) -> Mem<u64>
    requires { AllByRecursion Fits groups.now }
    ensures next { IfOk result (λ next. next ≡ first + length (in_turn writer.0 first most groups.now)) }
    ensures most { IfOk result (λ next. next ≤ 2 ^ 32) }
    ensures ok { OnOk result (clock.new ≡ hears_all clock.old (in_turn writer.0 first most groups.now)) }
    ensures later { OnOk result (clock.old.scalar ≤ clock.new.scalar) }
{
    let mut next = u64::from(first);
    for group in groups {
        if is_next(writer, next, most, group) {
            hear_group(clock, group)?;
            next += 1;
        }
    }
    Ok(next)
}

/// The next groups are asked for: what is sent once the clock stands there.
fn scans_on(
    work: &mut WorkState,
    recovery: &mut Recovery,
    clock: Clock,
    store: u8,
    next: u32,
    groups: &[Group],
) -> Mem<MessageList>
    requires { work.old.clock.scalar ≤ clock.scalar }
    ensures ok { IfOk result (λ messages. (work.new, recovery.new, messages) ≡ scans_with work.old recovery.old (scanned recovery.old groups.now) clock store next true) }
    ensures err { OnErr result ((work.new ≡ work.old) × (recovery.new ≡ recovery.old)) }
{
    let mut message = fetch(work, recovery.writer(), store, next);
    message.stamp = clock.scalar();
    let messages = one(work.alloc, message)?;
    recovery.on_groups(groups)?;
    work.timed.set_clock(clock);
    Ok(messages)
}

/// The pages are taken over once the last group is read: what is sent once the clock stands there.
fn scans_out(
    work: &mut WorkState,
    recovery: &mut Recovery,
    clock: Clock,
    groups: &[Group],
) -> Mem<MessageList>
    requires { work.old.clock.scalar ≤ clock.scalar }
    ensures ok { IfOk result (λ messages. (work.new, recovery.new, messages) ≡ scans_with work.old recovery.old (scanned recovery.old groups.now) clock 0 0 false) }
    ensures err { OnErr result ((work.new ≡ work.old) × (recovery.new ≡ recovery.old)) }
{
    let writer = recovery.writer();
    let vector = clock.vector_for_sending(work.timed.own_entry())?;
    let mut messages = Vec::with_capacity(work.alloc, 1)?;
    let pages = recovery.on_last_groups(groups)?;
    let note = Note::Takeover {
        writer,
        part: 1,
        rest: recovery.is_last(1),
        pages,
        vector,
    };
    let mut message = work.to_locks(note);
    message.stamp = clock.scalar();
    let _ = messages.push(message);
    work.timed.set_clock(clock);
    Ok(MessageList::from_vec(messages))
}

/// Groups of the closed log came. With want of memory nothing changes.
pub(crate) fn on_groups_one(
    work: &mut WorkState,
    recovery: &mut Recovery,
    groups: &[Group],
) -> Mem<MessageList>
    requires { AllByRecursion Fits groups.now }
    ensures ok { IfOk result (λ messages. (work.new, recovery.new, messages) ≡ on_groups_one work.old recovery.old groups.now) }
    ensures err { OnErr result ((work.new ≡ work.old) × (recovery.new ≡ recovery.old)) }
{
    let Stage::Scan {
        store,
        length,
        next,
    } = recovery.stage()
    else {
        return Ok(MessageList::new(work.alloc));
    };
    let mut clock = work.timed.clock()?;
    let after = hear_in_turn(&mut clock, recovery.writer(), next, length, groups)?;
    if after == u64::from(next) {
        return Ok(MessageList::new(work.alloc));
    }
    if after > u64::from(length) {
        let messages = scans_out(work, recovery, clock, groups)?;
        return Ok(messages);
    }
    let messages = scans_on(work, recovery, clock, store, after as u32, groups)?;
    Ok(messages)
}
