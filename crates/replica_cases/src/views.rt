//! What no clause says: that the calls answer with ample memory; and reads by hand.
//!
//! The proof of a test owes safety alone, but it follows every value that the test makes. So each table is a function of a row's
//! number, and one row at a time is made and let go.
use replica_view::{PublishError, Replica, ViewError};
use std::alloc::Global;
use std::process::Abort;
use std::test::Fail;
use tm_base::{
    Before, Body, Child, ChildList, Group, ItemList, Key, Mem, Message, NoMemory, Node, Note, Page,
    PairList, Record, RosterEntry, Row, RowList, Stamp, Txn, Value, Vector, Writer, WriterState,
};

const WRITER: Writer = Writer(1);

fn key(alloc: Global, byte: u8) -> Mem<Key> {
    let Ok(key) = Key::new(alloc, &[byte]) else {
        return Err(NoMemory);
    };
    Ok(key)
}

/// 0 is no value.
fn some_value(alloc: Global, byte: u8) -> Mem<Option<Value>> {
    if byte == 0 {
        return Ok(None);
    }
    let Ok(value) = Value::new(alloc, &[byte]) else {
        return Err(NoMemory);
    };
    Ok(Some(value))
}

fn row(alloc: Global, txn: u32, byte: u8, was: u8, now: u8) -> Mem<Row> {
    let before = Before::Was(some_value(alloc, was)?);
    let key = key(alloc, byte)?;
    Ok(Row {
        key,
        txn: Txn {
            writer: WRITER,
            number: txn,
        },
        now: some_value(alloc, now)?,
        before,
    })
}

/// The row is set in a leaf of table 1, which was of the stamp `prev`.
fn set(page: u32, prev: u64, row: Row) -> Record {
    Record::RowSet {
        page: Page(page),
        prev: Stamp(prev),
        table: 1,
        row,
    }
}

/// The writer's first transaction gives a key of a leaf the value `v`.
fn put(alloc: Global, page: u32, prev: u64, byte: u8) -> Mem<Record> {
    Ok(set(page, prev, row(alloc, 1, byte, 0, b'v')?))
}

/// The writer's transaction of that number ends.
fn end(txn: u32) -> Record {
    Record::End {
        txn: Txn {
            writer: WRITER,
            number: txn,
        },
        committed: true,
    }
}

fn format(page: u32, body: Body) -> Record {
    Record::Format {
        page: Page(page),
        prev: Stamp(0),
        body,
    }
}

fn add_child(alloc: Global, children: &mut ChildList, byte: u8, page: u32) -> Mem<()> {
    let key = key(alloc, byte)?;
    let place = children.place(key.as_slice());
    let child = Child {
        key,
        page: Page(page),
    };
    children.set(child, place)
}

/// The root of table 1 gets three leaves as children: pages 1,025 to 1,027, with the keys below `b`, those from `b` on and
/// below `c`, and the others.
fn root(alloc: Global) -> Mem<Record> {
    let mut entries = ChildList::new(alloc);
    add_child(alloc, &mut entries, b'b', 1026)?;
    add_child(alloc, &mut entries, b'c', 1027)?;
    let body = Body::Inner {
        table: 1,
        level: 1,
        low: None,
        high: None,
        first: Page(1025),
        entries,
    };
    Ok(format(1, body))
}

/// 0 is no key.
fn some_key(alloc: Global, byte: u8) -> Mem<Option<Key>> {
    if byte == 0 {
        return Ok(None);
    }
    Ok(Some(key(alloc, byte)?))
}

/// One of the three leaves gets its fences.
fn leaf(alloc: Global, page: u32, low: u8, high: u8) -> Mem<Record> {
    let body = Body::Leaf {
        table: 1,
        low: some_key(alloc, low)?,
        high: some_key(alloc, high)?,
        rows: RowList::new(alloc),
    };
    Ok(format(page, body))
}

/// The writer's group of this number, whose stamp is its number.
fn group(alloc: Global, seq: u32, record: Record) -> Mem<Group> {
    let mut records = ItemList::new(alloc);
    records.push(record)?;
    Ok(Group {
        writer: WRITER,
        seq,
        stamp: Stamp(u64::from(seq)),
        learnt: Vector::new(alloc),
        records,
    })
}

fn brings(alloc: Global, group: Group) -> Mem<Note> {
    let mut groups = ItemList::new(alloc);
    groups.push(group)?;
    Ok(Note::Groups {
        writer: WRITER,
        groups,
    })
}

fn roster(alloc: Global) -> Mem<Note> {
    let mut entries = ItemList::new(alloc);
    entries.push(RosterEntry {
        writer: WRITER,
        master: 1,
        state: WriterState::Live,
        length: 0,
        start: Stamp(0),
    })?;
    Ok(Note::Roster { entries })
}

/// What the writer logs.
#[derive(Clone, Copy)]
enum Log {
    /// Of the leaf that is the root: a transaction puts `v` for the key `k` and ends, and another one deletes it and ends.
    Deleted,
    /// Three leaves get two, one and two keys.
    Planted,
    /// The middle one of three leaves isn't there, and of the last one the first record.
    Gap,
}

fn deleted(alloc: Global, number: u32) -> Mem<Record> {
    match number {
        0 => put(alloc, 1, 0, b'k'),
        1 => Ok(end(1)),
        2 => Ok(set(1, 1, row(alloc, 2, b'k', b'v', 0)?)),
        _ => Ok(end(2)),
    }
}

fn planted(alloc: Global, number: u32) -> Mem<Record> {
    match number {
        0 => root(alloc),
        1 => leaf(alloc, 1025, 0, b'b'),
        2 => leaf(alloc, 1026, b'b', b'c'),
        3 => leaf(alloc, 1027, b'c', 0),
        4 => put(alloc, 1025, 2, b'A'),
        5 => put(alloc, 1025, 5, b'B'),
        6 => put(alloc, 1026, 3, b'b'),
        7 => put(alloc, 1027, 4, b'c'),
        8 => put(alloc, 1027, 8, b'd'),
        _ => Ok(end(1)),
    }
}

fn gap(alloc: Global, number: u32) -> Mem<Record> {
    match number {
        0 => root(alloc),
        1 => leaf(alloc, 1025, 0, b'b'),
        2 => put(alloc, 1025, 2, b'A'),
        3 => put(alloc, 1027, 2, b'd'),
        _ => Ok(end(1)),
    }
}

fn record_of(alloc: Global, log: Log, number: u32) -> Mem<Record> {
    match log {
        Log::Deleted => deleted(alloc, number),
        Log::Planted => planted(alloc, number),
        Log::Gap => gap(alloc, number),
    }
}

/// A replica that hears the writer's groups, one after another.
#[derive(Drop)]
struct Case {
    alloc: Global,
    replica: Replica,
    /// The number of the last group that came.
    seq: u32,
    /// How many messages the replica sent.
    sent: usize,
}

impl Case {
    fn hears(&mut self, note: Note) -> Mem<()> {
        if !self.replica.is_running() {
            return Err(NoMemory);
        }
        let sent = self.replica.step(&Message {
            from: Node::LogStore { number: 1 },
            to: Node::Replica { number: 1 },
            stamp: Stamp(9),
            note,
        })?;
        self.sent = self.sent.saturating_add(sent.len());
        Ok(())
    }

    /// The replica knows the writer.
    fn started(alloc: Global) -> Mem<Case> {
        let mut case = Case {
            alloc,
            replica: Replica::start(alloc, 1),
            seq: 0,
            sent: 0,
        };
        case.hears(roster(alloc)?)?;
        Ok(case)
    }

    /// The next group comes, with this record alone.
    fn comes(&mut self, record: Record) -> Mem<()> {
        self.seq = self.seq.saturating_add(1);
        let group = group(self.alloc, self.seq, record)?;
        self.hears(brings(self.alloc, group)?)
    }

    /// The first so many records of a log come, each in a group.
    fn has_heard(alloc: Global, log: Log, count: u32) -> Mem<Case> {
        let mut case = Case::started(alloc)?;
        for number in 0..count {
            case.comes(record_of(alloc, log, number)?)?;
        }
        Ok(case)
    }

    /// Publishes a point that covers the stamp of the writer.
    fn publishes(&mut self, upto: u64) -> Result<u32, PublishError> {
        if !self.replica.is_running() {
            return Err(PublishError::NoMemory);
        }
        let bound = Vector::single(self.alloc, WRITER, Stamp(upto))?;
        let number = self.replica.publish(&bound)?;
        Ok(number)
    }

    /// The stamp of the writer in a point.
    fn stamp_in(&self, point: u32) -> Option<u64> {
        let vector = self.replica.point(point)?;
        Some(vector.get(WRITER).0)
    }

    /// The value of a key of a table at a point.
    fn sees(&self, point: u32, table: u16, byte: u8) -> Result<Option<u8>, ViewError> {
        let key = key(self.alloc, byte)?;
        let Some(value) = self.replica.get(point, table, &key)? else {
            return Ok(None);
        };
        Ok(value.as_slice().first().copied())
    }

    /// The first so many keys of table 1 at a point, from one on, each with its value behind it. From 0 on are all of them.
    fn scans(&self, point: u32, from: u8, count: usize) -> Result<Vec<u8>, ViewError> {
        let from = some_key(self.alloc, from)?;
        let pairs = self.replica.scan(point, 1, from.as_ref(), count)?;
        let bytes = spelled(&pairs)?;
        Ok(bytes)
    }
}

fn spelled(pairs: &PairList) -> Mem<Vec<u8>> {
    let mut bytes = Vec::new(pairs.allocator());
    for pair in pairs.as_slice() {
        bytes.extend_from_slice(pair.key.as_slice())?;
        bytes.extend_from_slice(pair.value.as_slice())?;
    }
    Ok(bytes)
}

fn must_see(rt: &impl Abort, case: &Case, point: u32, wanted: Option<u8>) {
    assert_eq!(rt; case.sees(point, 1, b'k'), Ok(wanted), "at point {point}");
}

fn must_refuse(rt: &impl Abort, case: &Case, point: u32, table: u16, wanted: ViewError) {
    assert_eq!(rt;
        case.sees(point, table, b'k'),
        Err(wanted),
        "of table {table}"
    );
}

fn must_scan(rt: &impl Abort, case: &Case, point: u32, from: u8, count: usize, wanted: &str) {
    let given = case.scans(point, from, count);
    let is_wanted = match &given {
        Ok(bytes) => bytes.as_slice() == wanted.as_bytes(),
        Err(_) => false,
    };
    assert!(rt; is_wanted, "{count} pairs from {from} on");
}

fn must_lack(rt: &impl Abort, case: &Case, from: u8, count: usize, stamp: u64) {
    let unfit = ViewError::Unfit {
        stamp: Stamp(stamp),
    };
    assert_eq!(rt;
        case.scans(1, from, count).err(),
        Some(unfit),
        "{count} pairs from {from} on"
    );
}

#[test]
fn a_committed_value_is_read_at_a_point(rt: HostRuntime) -> Result<(), Fail> {
    let mut case = Case::has_heard(rt.alloc(), Log::Deleted, 2)?;
    assert_eq!(rt; case.sent, 2);
    assert_eq!(rt; case.publishes(2), Ok(1));
    assert_eq!(rt; case.stamp_in(1), Some(2));
    must_see(&rt, &case, 1, Some(b'v'));
    must_scan(&rt, &case, 1, 0, 100, "kv");
    Ok(())
}

#[test]
fn a_point_waits_for_its_bound(rt: HostRuntime) -> Result<(), Fail> {
    let mut case = Case::has_heard(rt.alloc(), Log::Deleted, 2)?;
    let waits = PublishError::Waits {
        writer: WRITER,
        stamp: Stamp(9),
    };
    assert_eq!(rt; case.publishes(9), Err(waits));
    assert_eq!(rt; case.publishes(1), Ok(1));
    assert_eq!(rt; case.replica.lag(), None);
    Ok(())
}

/// A point, a table, and why a read there is refused.
fn refusal(number: u32) -> (u32, u16, ViewError) {
    match number {
        0 => (0, 1, ViewError::NoPoint),
        1 => (2, 0, ViewError::NoPoint),
        2 => (1, 0, ViewError::NoTable),
        _ => (1, 1025, ViewError::NoTable),
    }
}

#[test]
fn a_read_names_why_it_is_refused(rt: HostRuntime) -> Result<(), Fail> {
    let mut case = Case::has_heard(rt.alloc(), Log::Deleted, 2)?;
    case.publishes(2)?;
    for number in 0..4 {
        let (point, table, wanted) = refusal(number);
        must_refuse(&rt, &case, point, table, wanted);
    }
    Ok(())
}

/// After each group a point is published.
fn point_by_point(alloc: Global) -> Result<Case, Fail> {
    let mut case = Case::started(alloc)?;
    for number in 0..4 {
        case.comes(record_of(alloc, Log::Deleted, number)?)?;
        case.publishes(u64::from(number) + 1)?;
    }
    Ok(case)
}

/// A value is there from its transaction's end on, and gone from the end of the one that deletes it on.
fn value_at(point: u32) -> Option<u8> {
    match point {
        2 | 3 => Some(b'v'),
        _ => None,
    }
}

#[test]
fn a_value_is_there_from_its_end_on(rt: HostRuntime) -> Result<(), Fail> {
    let case = point_by_point(rt.alloc())?;
    for point in 1..5 {
        must_see(&rt, &case, point, value_at(point));
    }
    must_scan(&rt, &case, 4, 0, 100, "");
    Ok(())
}

/// A first key, a count, and the pairs.
fn pairs_from(number: u32) -> (u8, usize, &'static str) {
    match number {
        0 => (0, 100, "AvBvbvcvdv"),
        1 => (0, 5, "AvBvbvcvdv"),
        2 => (0, 4, "AvBvbvcv"),
        3 => (b'B', 2, "Bvbv"),
        4 => (b'B', 3, "Bvbvcv"),
        5 => (b'C', 1, "bv"),
        6 => (b'c', 1, "cv"),
        7 => (b'e', 9, ""),
        _ => (0, 0, ""),
    }
}

#[test]
fn a_scan_goes_on_in_the_next_leaf(rt: HostRuntime) -> Result<(), Fail> {
    let mut case = Case::has_heard(rt.alloc(), Log::Planted, 10)?;
    case.publishes(10)?;
    for number in 0..9 {
        let (from, count, wanted) = pairs_from(number);
        must_scan(&rt, &case, 1, from, count, wanted);
    }
    Ok(())
}

/// A first key, a count, and the stamp at which a record is missing.
fn missing(number: u32) -> (u8, usize, u64) {
    match number {
        0 => (0, 2, 0),
        1 => (b'b', 1, 0),
        _ => (b'c', 1, 2),
    }
}

#[test]
fn a_page_that_is_not_there_is_named(rt: HostRuntime) -> Result<(), Fail> {
    let mut case = Case::has_heard(rt.alloc(), Log::Gap, 5)?;
    case.publishes(5)?;
    must_scan(&rt, &case, 1, 0, 1, "Av");
    for number in 0..3 {
        let (from, count, stamp) = missing(number);
        must_lack(&rt, &case, from, count, stamp);
    }
    must_refuse(&rt, &case, 1, 1, ViewError::Unfit { stamp: Stamp(2) });
    Ok(())
}
