//! A page store: groups in order and again, versions, and what it refuses.
use page_store::{PageStore, ReadRefusal};
use std::alloc::Global;
use std::process::Abort;
use std::test::Fail;
use tm_base::{
    Before, Body, Group, Image, ItemList, Key, Mem, Message, MessageList, NoMemory, Node, Note,
    Page, Record, RosterEntry, Row, Stamp, Txn, Value, Vector, Writer, WriterState,
};

/// What comes to the store.
#[derive(Clone, Copy)]
enum Input {
    /// A roster of this stamp, with writers 1 and 2, both so.
    Roster {
        stamp: u64,
        state: WriterState,
        length: u32,
    },
    /// A writer's group of this number and stamp: it sets the row of a key in page 1, from the version `prev`.
    Group {
        writer: u32,
        seq: u32,
        stamp: u64,
        prev: u64,
        key: u8,
    },
    Read {
        page: u32,
        stamp: u64,
    },
}

/// What is answered.
#[derive(Clone, Copy, Debug, PartialEq, Eq)]
enum Answer {
    Nothing,
    Fetch(u32, u32),
    /// The stamp of the page, and how many rows it has.
    Page(u64, usize),
    Missing(u64),
    Other,
}

fn row_set(alloc: Global, writer: u32, prev: u64, key: u8) -> Mem<Record> {
    let Ok(key) = Key::new(alloc, &[key]) else {
        return Err(NoMemory);
    };
    let Ok(value) = Value::new(alloc, &[118]) else {
        return Err(NoMemory);
    };
    let txn = Txn {
        writer: Writer(writer),
        number: 1,
    };
    Ok(Record::RowSet {
        page: Page(1),
        prev: Stamp(prev),
        table: 1,
        row: Row {
            key,
            txn,
            now: Some(value),
            before: Before::Was(None),
        },
    })
}

fn groups(alloc: Global, writer: u32, seq: u32, stamp: u64, change: Record) -> Mem<Note> {
    let mut records = ItemList::new(alloc);
    records.push(change)?;
    let mut groups = ItemList::new(alloc);
    groups.push(Group {
        writer: Writer(writer),
        seq,
        stamp: Stamp(stamp),
        learnt: Vector::new(alloc),
        records,
    })?;
    Ok(Note::Groups {
        writer: Writer(writer),
        groups,
    })
}

fn roster(alloc: Global, state: WriterState, length: u32) -> Mem<Note> {
    let mut entries = ItemList::new(alloc);
    for number in 1..3 {
        entries.push(RosterEntry {
            writer: Writer(number),
            master: 7,
            state,
            length,
            start: Stamp(0),
        })?;
    }
    Ok(Note::Roster { entries })
}

fn note(alloc: Global, input: Input) -> Mem<(Stamp, Note)> {
    Ok(match input {
        Input::Roster {
            stamp,
            state,
            length,
        } => (Stamp(stamp), roster(alloc, state, length)?),
        Input::Group {
            writer,
            seq,
            stamp,
            prev,
            key,
        } => {
            let change = row_set(alloc, writer, prev, key)?;
            (Stamp(9), groups(alloc, writer, seq, stamp, change)?)
        }
        Input::Read { page, stamp } => (Stamp(stamp), Note::ReadPage { page: Page(page) }),
    })
}

fn rows_of(image: &Image) -> usize {
    match &image.body {
        Body::Leaf { rows, .. } => rows.len(),
        _ => 99,
    }
}

fn answer_of(outputs: &MessageList) -> Answer {
    let Some(message) = outputs.get(0) else {
        return Answer::Nothing;
    };
    if outputs.len() != 1 || message.to != (Node::LogStore { number: 2 }) {
        return Answer::Other;
    }
    match &message.note {
        Note::Fetch { writer, first } => Answer::Fetch(writer.0, *first),
        Note::PageIs { image } => Answer::Page(image.stamp.0, rows_of(image)),
        Note::Missing { stamp, .. } => Answer::Missing(stamp.0),
        _ => Answer::Other,
    }
}

fn step(alloc: Global, store: &mut PageStore, input: Input) -> Mem<Answer> {
    if !store.takes_steps() {
        return Err(NoMemory);
    }
    let (stamp, note) = note(alloc, input)?;
    let message = Message {
        from: Node::LogStore { number: 2 },
        to: Node::PageStore { number: 1 },
        stamp,
        note,
    };
    Ok(answer_of(&store.step(&message)?))
}

fn play(
    rt: &impl Abort,
    alloc: Global,
    store: &mut PageStore,
    steps: &[(Input, Answer)],
) -> Result<(), Fail> {
    for (input, wanted) in steps {
        let Ok(given) = step(alloc, store, *input) else {
            return Err(Fail::from("no memory"));
        };
        assert_eq!(rt; given, *wanted);
    }
    Ok(())
}

/// The stamp of the page at a scalar.
fn stamp_at(store: &PageStore, stamp: u64) -> Result<u64, ReadRefusal> {
    let image = match store.read_at(Page(1), Stamp(stamp)) {
        Ok(image) => image,
        Err(refusal) => return Err(refusal),
    };
    Ok(image.stamp.0)
}

const LIVE: Input = Input::Roster {
    stamp: 5,
    state: WriterState::Live,
    length: 0,
};

const FIRST: Input = Input::Group {
    writer: 1,
    seq: 1,
    stamp: 1,
    prev: 0,
    key: 107,
};

const SECOND: Input = Input::Group {
    writer: 2,
    seq: 1,
    stamp: 2,
    prev: 1,
    key: 108,
};

#[test]
fn groups_are_taken_in_turn(rt: HostRuntime) -> Result<(), Fail> {
    let read = |stamp| Input::Read { page: 1, stamp };
    let later = Input::Group {
        writer: 1,
        seq: 3,
        stamp: 3,
        prev: 2,
        key: 109,
    };
    let mut store = PageStore::open(rt.alloc(), 1, 1);
    play(
        &rt,
        rt.alloc(),
        &mut store,
        &[
            (read(0), Answer::Page(0, 0)),
            (SECOND, Answer::Nothing),
            (LIVE, Answer::Nothing),
            (SECOND, Answer::Fetch(2, 2)),
            (SECOND, Answer::Nothing),
            (read(2), Answer::Missing(1)),
            (read(3), Answer::Missing(3)),
            (later, Answer::Nothing),
            (FIRST, Answer::Fetch(1, 2)),
            (read(1), Answer::Page(1, 1)),
            (read(2), Answer::Page(2, 2)),
        ],
    )
}

#[test]
fn pages_at_scalars(rt: HostRuntime) -> Result<(), Fail> {
    let closed = Input::Roster {
        stamp: 6,
        state: WriterState::Closed,
        length: 1,
    };
    let mut store = PageStore::open(rt.alloc(), 1, 1);
    assert_eq!(rt; stamp_at(&store, 0), Ok(0));
    assert_eq!(rt;
        stamp_at(&store, 1),
        Err(ReadRefusal::RosterBehind { upto: Stamp(0) })
    );
    play(
        &rt,
        rt.alloc(),
        &mut store,
        &[(LIVE, Answer::Nothing), (FIRST, Answer::Fetch(1, 2))],
    )?;
    let behind = ReadRefusal::Behind {
        writer: Writer(2),
        upto: Stamp(0),
    };
    assert_eq!(rt; stamp_at(&store, 1), Err(behind));
    play(
        &rt,
        rt.alloc(),
        &mut store,
        &[(SECOND, Answer::Fetch(2, 2))],
    )?;
    assert_eq!(rt; stamp_at(&store, 1), Ok(1));
    let behind = ReadRefusal::Behind {
        writer: Writer(1),
        upto: Stamp(1),
    };
    assert_eq!(rt; stamp_at(&store, 2), Err(behind));
    let Ok(wants) = store.wants(&behind, Stamp(2)) else {
        return Err(Fail::from("no memory"));
    };
    let Some(want) = wants.get(0) else {
        return Err(Fail::from("nothing is wanted"));
    };
    assert_eq!(rt;
        (want.to, want.stamp),
        (Node::Master { number: 7 }, Stamp(2))
    );
    play(
        &rt,
        rt.alloc(),
        &mut store,
        &[(closed, Answer::Nothing), (LIVE, Answer::Nothing)],
    )?;
    assert_eq!(rt; stamp_at(&store, 6), Ok(2));
    Ok(())
}

#[test]
fn pages_of_two_stores(rt: HostRuntime) -> Result<(), Fail> {
    let store = PageStore::open(rt.alloc(), 1, 2);
    let Ok(image) = store.read_version(Page(2), Stamp(0)) else {
        return Err(Fail::from("not answered"));
    };
    assert_eq!(rt; (image.page, image.stamp), (Page(2), Stamp(0)));
    assert_eq!(rt;
        store.read_version(Page(1), Stamp(0)).err(),
        Some(ReadRefusal::NotHere)
    );
    Ok(())
}

#[test]
fn a_tick_asks_the_log_stores_in_turn(rt: HostRuntime) -> Result<(), Fail> {
    let mut store = PageStore::open(rt.alloc(), 1, 1);
    play(&rt, rt.alloc(), &mut store, &[(LIVE, Answer::Nothing)])?;
    for number in [1, 2, 3, 1] {
        if !store.takes_steps() {
            return Err(Fail::from("no memory"));
        }
        let Ok(outputs) = store.tick() else {
            return Err(Fail::from("no memory"));
        };
        let (Some(first), Some(last)) = (outputs.get(1), outputs.get(2)) else {
            return Err(Fail::from("too few"));
        };
        assert!(rt;
            matches!(
                first.note,
                Note::Fetch {
                    writer: Writer(2),
                    first: 1
                }
            )
        );
        assert_eq!(rt;
            (first.to, first.stamp),
            (Node::LogStore { number }, Stamp(5))
        );
        assert!(rt; matches!(last.note, Note::Want { writer: None }));
    }
    Ok(())
}
