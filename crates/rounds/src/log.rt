//! A writer's log, at its master and at a log store.
ghost use Rattle.std.specs.Prelude.{◌≡◌, ◌+◌, ◌<◌, ◌≤◌, IfOk, OnOk};
ghost use Rattle.std.specs.Bool.{OnTrue};
ghost use Rattle.log_writer.specs.Log.{durable_seq, last_seq, last_stamp};
ghost use Rattle.rounds.specs.Answers.{all_acked, answers, moved, stored};

use log_store::LogStore;
use log_writer::LogWriter;
use round_works::Failure;
use std::alloc::Global;
use tm_base::{Group, Mem, Message, Node, Note, Record, RecordList, Stamp, Vector, Writer};

/// So many more groups than are acknowledged at first are logged where acknowledgements are counted.
const AHEAD: u32 = 100_000;

/// That a store has a group.
#[derive(Clone, Copy)]
pub struct Ack {
    pub store: u8,
    pub seq: u32,
}

// A group of writer 1, with a Beat.
fn group(alloc: Global, seq: u32) -> Mem<Group> {
    let mut records = RecordList::new(alloc);
    records.push(Record::Beat)?;
    Ok(Group {
        writer: Writer(1),
        seq,
        stamp: Stamp(seq as u64),
        learnt: Vector::new(alloc),
        records,
    })
}

// A message of master 1 to log store 1.
fn said(note: Note) -> Message {
    Message {
        from: Node::Master { number: 1 },
        to: Node::LogStore { number: 1 },
        stamp: Stamp(0),
        note,
    }
}

// The Appends of so many groups, after so many.
fn appends(alloc: Global, before: u32, count: u32) -> Mem<Vec<Message>> {
    let mut messages = Vec::new(alloc);
    for at in 0..count {
        let seq = before.saturating_add(at).saturating_add(1);
        messages.push(said(Note::Append {
            group: group(alloc, seq)?,
        }))?;
    }
    Ok(messages)
}

// So many times the Fetch of the group of that number.
fn fetches(alloc: Global, first: u32, count: u32) -> Mem<Vec<Message>> {
    let mut messages = Vec::new(alloc);
    let writer = Writer(1);
    for _ in 0..count {
        messages.push(said(Note::Fetch { writer, first }))?;
    }
    Ok(messages)
}

// Hands a message to the store. Gives 1 where it is answered, else 0.
#[tactic(auto, unfolding(crate::specs::Answers::answers, crate::specs::Answers::moved))]
fn answered(store: &mut LogStore, message: &Message) -> Mem<usize>
    ensures value { IfOk result (λ n. n ≡ answers store.old message.now) }
    ensures moved { OnOk result (store.new ≡ moved store.old message.now) }
    ensures most { IfOk result (λ n. n ≤ 1) }
{
    let outputs = store.step(message)?;
    if outputs.is_empty() {
        return Ok(0);
    }
    Ok(1)
}

/// Hands these messages to the store. Gives the number of those that it answers.
fn hand_in(store: &mut LogStore, messages: &[Message]) -> Mem<usize>
    ensures { IfOk result (λ sum. sum ≡ stored store.old messages.now) }
{
    let mut sum: usize = 0;
    for message in messages {
        sum += answered(store, message)?;
    }
    Ok(sum)
}

// A store with so many groups, all of which may be served.
fn filled(alloc: Global, groups: u32) -> Result<LogStore, Failure> {
    let mut store = LogStore::open(alloc, 1);
    let messages = appends(alloc, 0, groups)?;
    hand_in(&mut store, &messages)?;
    let writer = Writer(1);
    store.step(&said(Note::Stable {
        writer,
        seq: groups,
    }))?;
    Ok(store)
}

/// Appends the next group in each round. Gives the number of answers.
pub fn append(alloc: Global, groups: u32, rounds: u32) -> Result<usize, Failure> {
    let mut store = filled(alloc, groups)?;
    let messages = appends(alloc, groups, rounds)?;
    Ok(hand_in(&mut store, &messages)?)
}

/// Fetches the last group in each round. Gives the number of answers.
pub fn fetch(alloc: Global, groups: u32, rounds: u32) -> Result<usize, Failure> {
    let mut store = filled(alloc, groups)?;
    let messages = fetches(alloc, groups, rounds)?;
    Ok(hand_in(&mut store, &messages)?)
}

/// Notes these acknowledgements, and lets what is durable go after each. Gives the number of the last durable group.
fn note_all(log: &mut LogWriter, acks: &[Ack]) -> u32
    ensures all { log.new ≡ all_acked log.old acks.now }
    ensures value { result ≡ durable_seq log.new }
{
    for ack in acks {
        log.on_ack(ack.store, ack.seq);
        log.let_go();
    }
    log.durable_seq()
}

// The acknowledgements of the groups after so many, by each store in turn.
fn acks(alloc: Global, before: u32, count: u32) -> Mem<Vec<Ack>> {
    let mut acks = Vec::new(alloc);
    for at in 0..count {
        acks.push(Ack {
            store: (at % 3) as u8 + 1,
            seq: before.saturating_add(at / 3).saturating_add(1),
        })?;
    }
    Ok(acks)
}

// Whether the group is the next one of the log.
fn follows(log: &LogWriter, group: &Group) -> bool
    ensures own { OnTrue result (group.now.writer ≡ log.now.writer) }
    ensures next { OnTrue result (group.now.seq ≡ last_seq log.now + 1) }
    ensures later { OnTrue result (last_stamp log.now < group.now.stamp.0) }
{
    group.writer.0 == log.writer().0
        && u64::from(group.seq) == u64::from(log.last_seq()) + 1
        && log.last_stamp().0 < group.stamp.0
}

// The log of writer 1 with so many groups.
fn logged(alloc: Global, groups: u32) -> Result<LogWriter, Failure> {
    let mut log = LogWriter::new(alloc, Writer(1));
    for at in 0..groups {
        let group = group(alloc, at.saturating_add(1))?;
        if !follows(&log, &group) {
            return Err(Failure::Refused);
        }
        log.append(group)?;
    }
    Ok(log)
}

/// Has a group acknowledged by one store in each round. Gives the number of the last durable group.
pub fn acknowledge(alloc: Global, groups: u32, rounds: u32) -> Result<u32, Failure> {
    let mut log = logged(alloc, groups.saturating_add(AHEAD))?;
    note_all(&mut log, &acks(alloc, 0, groups.saturating_mul(3))?);
    Ok(note_all(&mut log, &acks(alloc, groups, rounds)?))
}
