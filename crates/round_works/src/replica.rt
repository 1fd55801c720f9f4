//! A replica: groups that it applies, and what it reads at a point.
ghost use Rattle.std.specs.Prelude.{◌≡◌, ◌≤◌, IfOk, OnOk};
ghost use Rattle.round_works.specs.Seen.{all_on, applied_of, comes, HasValue, is_found, one_on, seen};

use crate::Failure;
use replica_apply::Order;
use replica_view::Replica;
use std::alloc::Global;
use tm_base::{
    Before, Group, GroupList, Key, Mem, Message, Node, Note, Page, Record, RecordList, RosterEntry,
    RosterEntryList, Row, Stamp, Txn, Value, Vector, Writer, WriterState,
};

/// Groups that are applied are of so many writers in turn.
const WRITERS: u32 = 3;

/// The writer of all that a replica reads here.
const WRITER: Writer = Writer(1);

/// Its transaction.
const TXN: Txn = Txn {
    writer: WRITER,
    number: 1,
};

/// The table that is read, whose root is the one page with records.
const TABLE: u16 = 1;

// What the group at this place had learnt: the group before it, which is another writer's.
fn learnt(alloc: Global, at: u32) -> Mem<Vector> {
    if at == 0 {
        return Ok(Vector::new(alloc));
    }
    let writer = Writer((at - 1) % WRITERS + 1);
    Vector::single(alloc, writer, Stamp(u64::from(at)))
}

// The group at this place of all, whose stamp is the next number.
fn turn(alloc: Global, at: u32) -> Mem<Group> {
    let mut records = RecordList::new(alloc);
    records.push(Record::Beat)?;
    Ok(Group {
        writer: Writer(at % WRITERS + 1),
        seq: (at / WRITERS).saturating_add(1),
        stamp: Stamp(u64::from(at) + 1),
        learnt: learnt(alloc, at)?,
        records,
    })
}

// So many groups of several writers in turn, after so many.
fn turns(alloc: Global, before: u32, count: u32) -> Mem<Vec<Group>> {
    let mut groups = Vec::new(alloc);
    for at in 0..count {
        groups.push(turn(alloc, before.saturating_add(at))?)?;
    }
    Ok(groups)
}

// Offers a group and has the next one applied. Gives 1 where there is one, else 0.
#[tactic(auto, unfolding(crate::specs::Seen::comes, crate::specs::Seen::one_on))]
fn applied(order: &mut Order, group: &Group) -> Mem<usize>
    ensures value { IfOk result (λ n. n ≡ comes order.old group.now) }
    ensures moved { OnOk result (order.new ≡ one_on order.old group.now) }
    ensures most { IfOk result (λ n. n ≤ 1) }
{
    order.offer(group)?;
    if order.next()?.is_none() {
        return Ok(0);
    }
    Ok(1)
}

/// Offers each of these groups and has the next one applied after each. Gives how many were applied.
fn apply_all(order: &mut Order, groups: &[Group]) -> Mem<usize>
    ensures sum { IfOk result (λ sum. sum ≡ applied_of order.old groups.now) }
    ensures moved { OnOk result (order.new ≡ all_on order.old groups.now) }
{
    let mut sum: usize = 0;
    for group in groups {
        sum += applied(order, group)?;
    }
    Ok(sum)
}

/// Has an order receive and apply a group in each round, of three writers in turn, after so many, and refuses where one isn't
/// applied. Gives how many were applied.
pub fn apply(alloc: Global, before: u32, rounds: u32) -> Result<usize, Failure>
    ensures { IfOk result (λ sum. sum ≡ rounds) }
{
    let mut order = Order::new(alloc);
    apply_all(&mut order, &turns(alloc, 0, before)?)?;
    let sum = apply_all(&mut order, &turns(alloc, before, rounds)?)?;
    if sum as u64 != u64::from(rounds) {
        return Err(Failure::Refused);
    }
    Ok(sum)
}

// The key that is read.
fn key(alloc: Global) -> Result<Key, Failure> {
    Ok(Key::new(alloc, b"k")?)
}

// The record that sets the key's row on the version of this stamp.
fn change(alloc: Global, prev: Stamp) -> Result<Record, Failure> {
    let row = Row {
        key: key(alloc)?,
        txn: TXN,
        now: Some(Value::new(alloc, b"value")?),
        before: Before::Was(None),
    };
    Ok(Record::RowSet {
        page: Page(u32::from(TABLE)),
        prev,
        table: TABLE,
        row,
    })
}

// The message that brings the group of this number, whose stamp is its number, with this record alone.
fn brings(alloc: Global, seq: u32, record: Record) -> Mem<Note> {
    let mut records = RecordList::new(alloc);
    records.push(record)?;
    let mut groups = GroupList::new(alloc);
    groups.push(Group {
        writer: WRITER,
        seq,
        stamp: Stamp(u64::from(seq)),
        learnt: Vector::new(alloc),
        records,
    })?;
    let writer = WRITER;
    Ok(Note::Groups { writer, groups })
}

// The roster with the writer alone.
fn roster(alloc: Global) -> Mem<Note> {
    let mut entries = RosterEntryList::new(alloc);
    entries.push(RosterEntry {
        writer: WRITER,
        master: 1,
        state: WriterState::Live,
        length: 0,
        start: Stamp(0),
    })?;
    Ok(Note::Roster { entries })
}

fn hear(replica: &mut Replica, note: Note) -> Result<(), Failure> {
    if !replica.is_running() {
        return Err(Failure::Refused);
    }
    replica.step(&Message {
        from: Node::LogStore { number: 1 },
        to: Node::Replica { number: 1 },
        stamp: Stamp(0),
        note,
    })?;
    Ok(())
}

// Publishes all that is applied.
fn publish(alloc: Global, replica: &mut Replica) -> Result<(), Failure> {
    if !replica.is_running() {
        return Err(Failure::Refused);
    }
    replica.publish(&Vector::new(alloc))?;
    Ok(())
}

// A replica whose point 1 has a page with so many records, which a committed transaction has made.
fn filled(alloc: Global, records: u32) -> Result<Replica, Failure> {
    let mut replica = Replica::start(alloc, 1);
    hear(&mut replica, roster(alloc)?)?;
    for prev in 0..records {
        let change = change(alloc, Stamp(u64::from(prev)))?;
        hear(&mut replica, brings(alloc, prev.saturating_add(1), change)?)?;
    }
    let end = Record::End {
        txn: TXN,
        committed: true,
    };
    hear(&mut replica, brings(alloc, records.saturating_add(1), end)?)?;
    publish(alloc, &mut replica)?;
    Ok(replica)
}

// Whether a key of the table has a value at point 1.
#[tactic(auto, using(crate::proofs::ReadLemmas::told))]
fn has_value(replica: &Replica, key: &Key) -> Result<bool, Failure>
    ensures { IfOk result (λ has. has ≡ is_found (seen replica.now 1 1 key.now)) }
{
    let value = replica.get(1, TABLE, key)?;
    Ok(value.is_some())
}

/// Reads a key at point 1 in each round, and refuses where it has no value there. Gives the number of rounds.
fn read_all(replica: &Replica, key: &Key, rounds: u32) -> Result<u32, Failure>
    ensures there { OnOk result (1 ≤ rounds → HasValue replica.now 1 1 key.now) }
    ensures sum { IfOk result (λ sum. sum ≡ rounds) }
{
    let mut sum: u32 = 0;
    for _ in 0..rounds {
        if !has_value(replica, key)? {
            return Err(Failure::Refused);
        }
        sum += 1;
    }
    Ok(sum)
}

/// Reads a row at a point in each round, from a page with so many records. Gives how often it has a value there.
pub fn read(alloc: Global, records: u32, rounds: u32) -> Result<u32, Failure>
    ensures { IfOk result (λ sum. sum ≡ rounds) }
{
    let replica = filled(alloc, records)?;
    let key = key(alloc)?;
    read_all(&replica, &key, rounds)
}
