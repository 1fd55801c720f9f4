//! Worked cases of cuts, by hand.
use event_cuts::{full_vector, map_at, rows_at};
use key_model::{EntryList, Event, EventKind, EventList};
use std::alloc::Global;
use std::test::Fail;
use tm_base::{Before, Key, Stamp, Txn, Value, Vector, Writer};

const FIRST: Txn = Txn {
    writer: Writer(1),
    number: 1,
};

const NEXT: Txn = Txn {
    writer: Writer(1),
    number: 2,
};

const OTHER: Txn = Txn {
    writer: Writer(2),
    number: 1,
};

const THIRD: Txn = Txn {
    writer: Writer(3),
    number: 1,
};

// What a transaction does, in the order of the list, by its own writer, at a stamp.
#[derive(Drop)]
enum Deed {
    Reads(Txn, &'static [u8]),
    Puts(Txn, u64, &'static [u8], Option<&'static [u8]>),
    Ends(Txn, u64, bool),
    /// Another writer ends it, undone.
    IsUndone(Txn, Writer),
}

fn value(alloc: Global, bytes: Option<&[u8]>) -> Result<Option<Value>, Fail> {
    let Some(bytes) = bytes else {
        return Ok(None);
    };
    Ok(Some(Value::new(alloc, bytes)?))
}

fn events(alloc: Global, deeds: &[Deed]) -> Result<EventList, Fail> {
    let mut events = EventList::new(alloc);
    for deed in deeds {
        let (actor, stamp, kind) = match deed {
            Deed::Reads(txn, key) => {
                let key = Key::new(alloc, key)?;
                (
                    txn.writer,
                    0,
                    EventKind::Read {
                        txn: *txn,
                        table: 1,
                        key,
                    },
                )
            }
            Deed::Puts(txn, stamp, key, bytes) => {
                let key = Key::new(alloc, key)?;
                let value = value(alloc, *bytes)?;
                (
                    txn.writer,
                    *stamp,
                    EventKind::Put {
                        txn: *txn,
                        table: 1,
                        key,
                        value,
                    },
                )
            }
            Deed::Ends(txn, stamp, committed) => {
                (
                    txn.writer,
                    *stamp,
                    EventKind::End {
                        txn: *txn,
                        committed: *committed,
                    },
                )
            }
            Deed::IsUndone(txn, actor) => (
                *actor,
                1,
                EventKind::End {
                    txn: *txn,
                    committed: false,
                },
            ),
        };
        events.push(Event {
            actor,
            seq: 0,
            stamp: Stamp(stamp),
            kind,
        })?;
    }
    Ok(events)
}

// The cut of these stamps of writers 1 and 2.
fn cut(alloc: Global, stamps: (u64, u64)) -> Result<Vector, Fail> {
    let mut cut = Vector::single(alloc, Writer(1), Stamp(stamps.0))?;
    cut.join(&Vector::single(alloc, Writer(2), Stamp(stamps.1))?)?;
    Ok(cut)
}

// Whether the map has this entry of table 1 in a place.
fn is_entry(map: &EntryList, place: usize, key: &[u8], value: &[u8]) -> bool {
    match map.as_slice().get(place) {
        Some(entry) => {
            entry.table == 1 && entry.key.as_slice() == key && entry.value.as_slice() == value
        }
        None => false,
    }
}

/// An abort changes the map at no cut: its undo is a put of the value before, and its end enters nothing.
/// Where stamps of two writers cross, a cut leaves one out, and a vector's cut has each by its own stamp.
#[test]
fn maps_at_cuts(rt: HostRuntime) -> Result<(), Fail> {
    let alloc = rt.alloc();
    let deeds = [
        Deed::Puts(FIRST, 1, b"k", Some(b"a")),
        Deed::Ends(FIRST, 2, true),
        Deed::Reads(OTHER, b"k"),
        Deed::Puts(OTHER, 1, b"l", Some(b"d")),
        Deed::Puts(NEXT, 3, b"k", Some(b"b")),
        Deed::Puts(NEXT, 4, b"k", Some(b"a")),
        Deed::Ends(OTHER, 9, true),
        Deed::Ends(NEXT, 5, false),
        Deed::Puts(FIRST, 6, b"k", None),
    ];
    let events = events(alloc, deeds.as_slice())?;
    // the stamps of the cut, and whether the map there has k with a, and l with d
    let cases = [
        ((0, 0), false, false),
        ((1, 0), false, false),
        ((2, 0), true, false),
        ((3, 0), true, false),
        ((4, 0), true, false),
        ((5, 0), true, false),
        ((6, 6), false, false),
        ((5, 5), true, false),
        ((5, 9), true, true),
        ((1, 9), false, true),
    ];
    for (stamps, k, l) in cases.iter() {
        let map = map_at(&events, &cut(alloc, *stamps)?)?;
        let behind = if *k { 1 } else { 0 };
        assert_eq!(rt; map.len(), if *l { behind + 1 } else { behind });
        assert_eq!(rt; is_entry(&map, 0, b"k", b"a"), *k);
        assert_eq!(rt; is_entry(&map, behind, b"l", b"d"), *l);
    }
    Ok(())
}

/// A row has the value before its transaction's first put on the key, also where another put stands between
/// the transaction's own.
#[test]
fn rows_at_cuts(rt: HostRuntime) -> Result<(), Fail> {
    let alloc = rt.alloc();
    let deeds = [
        Deed::Puts(FIRST, 1, b"k", Some(b"a")),
        Deed::Ends(FIRST, 2, true),
        Deed::Puts(NEXT, 3, b"k", Some(b"b")),
        Deed::Puts(NEXT, 4, b"k", None),
        Deed::Puts(NEXT, 5, b"k", Some(b"a")),
        Deed::Puts(OTHER, 7, b"k", Some(b"d")),
        Deed::Puts(NEXT, 8, b"k", Some(b"e")),
    ];
    let events = events(alloc, deeds.as_slice())?;
    let cases: [((u64, u64), Txn, Option<&[u8]>, Before); 6] = [
        ((1, 0), FIRST, Some(b"a"), Before::Was(None)),
        (
            (3, 0),
            NEXT,
            Some(b"b"),
            Before::Was(value(alloc, Some(b"a"))?),
        ),
        ((4, 0), NEXT, None, Before::Was(value(alloc, Some(b"a"))?)),
        ((5, 0), NEXT, Some(b"a"), Before::Same),
        ((4, 7), OTHER, Some(b"d"), Before::Was(None)),
        (
            (8, 7),
            NEXT,
            Some(b"e"),
            Before::Was(value(alloc, Some(b"a"))?),
        ),
    ];
    for (stamps, txn, now, before) in cases.iter() {
        let rows = rows_at(&events, &cut(alloc, *stamps)?)?;
        assert_eq!(rt; rows.len(), 1);
        let Some(one) = rows.get(0) else {
            return Err(Fail::from("a row"));
        };
        assert_eq!(rt; one.table, 1);
        assert_eq!(rt; one.row.key.as_slice(), b"k".as_slice());
        assert_eq!(rt; one.row.txn, *txn);
        assert_eq!(rt; one.row.now, value(alloc, *now)?);
        assert_eq!(rt; one.row.before, *before);
    }
    Ok(())
}

/// A put of writer 3 that is reached from writer 1 through a read of writer 2 alone; reads that don't touch
/// each other; ends that touch a later put on a key of their transactions, as nothing else does; and a list before
/// and after the close of writer 2 with a length of one group, which strikes the read that led on to its put.
#[test]
fn full_vectors(rt: HostRuntime) -> Result<(), Fail> {
    let alloc = rt.alloc();
    let chain = [
        Deed::Puts(FIRST, 1, b"k", Some(b"a")),
        Deed::Reads(OTHER, b"k"),
        Deed::Puts(OTHER, 2, b"l", Some(b"b")),
        Deed::Puts(THIRD, 3, b"l", Some(b"d")),
        Deed::Puts(THIRD, 4, b"k", None),
        Deed::Reads(FIRST, b"m"),
        Deed::Reads(THIRD, b"m"),
    ];
    let ends = [
        Deed::Puts(NEXT, 1, b"n", Some(b"a")),
        Deed::Reads(FIRST, b"k"),
        Deed::IsUndone(FIRST, Writer(3)),
        Deed::Puts(OTHER, 1, b"l", Some(b"b")),
        Deed::Puts(OTHER, 2, b"k", Some(b"d")),
    ];
    let open = [
        Deed::Puts(OTHER, 1, b"m", Some(b"a")),
        Deed::Reads(OTHER, b"k"),
        Deed::Puts(THIRD, 1, b"k", Some(b"b")),
    ];
    let closed = [
        Deed::Puts(OTHER, 1, b"m", Some(b"a")),
        Deed::Puts(THIRD, 1, b"k", Some(b"b")),
    ];
    let open = events(alloc, open.as_slice())?;
    let closed = events(alloc, closed.as_slice())?;
    let chain = events(alloc, chain.as_slice())?;
    let ends = events(alloc, ends.as_slice())?;
    let cases: [(&EventList, usize, &[(u32, u32)]); 10] = [
        (&chain, 0, &[(1, 1)]),
        (&chain, 1, &[(1, 1)]),
        (&chain, 2, &[(1, 1), (2, 1)]),
        (&chain, 3, &[(1, 1), (2, 1), (3, 1)]),
        (&chain, 4, &[(1, 1), (2, 1), (3, 2)]),
        (&chain, 5, &[(1, 1)]),
        (&ends, 3, &[(2, 1)]),
        (&ends, 4, &[(1, 1), (2, 2), (3, 1)]),
        (&open, 2, &[(2, 1), (3, 1)]),
        (&closed, 1, &[(3, 1)]),
    ];
    for (events, j, wanted) in cases.iter() {
        if *j >= events.len() {
            return Err(Fail::from("a place"));
        }
        let counts = full_vector(events, *j)?;
        assert_eq!(rt; counts.len(), wanted.len());
        for (count, pair) in counts.as_slice().iter().zip(wanted.iter()) {
            assert_eq!(rt; count.writer, Writer(pair.0));
            assert_eq!(rt; count.number, pair.1);
        }
    }
    Ok(())
}
