//! A log store: groups in order and again, seals, and what is read back.
use log_store::LogStore;
use std::alloc::Global;
use std::process::Abort;
use std::test::Fail;
use tm_base::{
    Group, ItemList, Mem, Message, MessageList, Node, Note, Record, RosterEntry, Stamp, Txn,
    Vector, Writer, WriterState,
};

/// What comes of writer 1.
#[derive(Clone, Copy)]
enum Input {
    /// The group of a number, with so many ends (ten bytes each) and beats (one byte each).
    Append { seq: u32, ends: u32, beats: u32 },
    Stable { seq: u32 },
    Fetch { first: u32 },
    Seal,
    Closed { length: u32 },
    Roster { state: WriterState, length: u32 },
}

/// What is answered.
#[derive(Clone, Copy, Debug, PartialEq, Eq)]
enum Answer {
    Nothing,
    Ack(u32, u32),
    Gap(u32, u32),
    Sealed(u32, u32),
    SealedAt(u32, u32),
    /// How many groups, and the number of the first.
    Groups(usize, u32),
    Other,
}

fn group(alloc: Global, seq: u32, ends: u32, beats: u32) -> Mem<Group> {
    let txn = Txn {
        writer: Writer(1),
        number: 1,
    };
    let mut records = ItemList::new(alloc);
    for _ in 0..ends {
        records.push(Record::End {
            txn,
            committed: true,
        })?;
    }
    for _ in 0..beats {
        records.push(Record::Beat)?;
    }
    Ok(Group {
        writer: Writer(1),
        seq,
        stamp: Stamp(u64::from(seq)),
        learnt: Vector::new(alloc),
        records,
    })
}

fn note(alloc: Global, input: Input) -> Mem<Note> {
    let writer = Writer(1);
    Ok(match input {
        Input::Append { seq, ends, beats } => Note::Append {
            group: group(alloc, seq, ends, beats)?,
        },
        Input::Stable { seq } => Note::Stable { writer, seq },
        Input::Fetch { first } => Note::Fetch { writer, first },
        Input::Seal => Note::Seal { writer },
        Input::Closed { length } => Note::Closed {
            writer,
            length,
            store: 1,
        },
        Input::Roster { state, length } => {
            let mut entries = ItemList::new(alloc);
            entries.push(RosterEntry {
                writer,
                master: 1,
                state,
                length,
                start: Stamp(0),
            })?;
            Note::Roster { entries }
        }
    })
}

fn answer_of(outputs: &MessageList) -> Answer {
    let Some(message) = outputs.get(0) else {
        return Answer::Nothing;
    };
    if outputs.len() != 1 || message.to != (Node::Master { number: 2 }) {
        return Answer::Other;
    }
    match &message.note {
        Note::Ack { writer, seq } => Answer::Ack(writer.0, *seq),
        Note::Gap { writer, next } => Answer::Gap(writer.0, *next),
        Note::Sealed { writer, length } => Answer::Sealed(writer.0, *length),
        Note::SealedAt { writer, length } => Answer::SealedAt(writer.0, *length),
        Note::Groups { groups, .. } => match groups.get(0) {
            Some(first) => Answer::Groups(groups.len(), first.seq),
            None => Answer::Other,
        },
        _ => Answer::Other,
    }
}

fn step(alloc: Global, store: &mut LogStore, input: Input) -> Mem<Answer> {
    let message = Message {
        from: Node::Master { number: 2 },
        to: Node::LogStore { number: 1 },
        stamp: Stamp(7),
        note: note(alloc, input)?,
    };
    Ok(answer_of(&store.step(&message)?))
}

fn check(rt: &impl Abort, alloc: Global, steps: &[(Input, Answer)]) -> Result<(), Fail> {
    let mut store = LogStore::open(alloc, 1);
    for (input, wanted) in steps {
        let Ok(given) = step(alloc, &mut store, *input) else {
            return Err(Fail::from("no memory"));
        };
        assert_eq!(rt; given, *wanted);
    }
    Ok(())
}

#[test]
fn groups_are_kept_served_and_sealed(rt: HostRuntime) -> Result<(), Fail> {
    let append = |seq, beats| Input::Append {
        seq,
        ends: 0,
        beats,
    };
    check(
        &rt,
        rt.alloc(),
        &[
            (append(2, 1), Answer::Gap(1, 1)),
            (append(1, 1), Answer::Ack(1, 1)),
            (append(1, 1), Answer::Ack(1, 1)),
            (append(1, 2), Answer::Nothing),
            (Input::Fetch { first: 1 }, Answer::Nothing),
            (Input::Stable { seq: 1 }, Answer::Nothing),
            (Input::Fetch { first: 1 }, Answer::Groups(1, 1)),
            (Input::Fetch { first: 0 }, Answer::Groups(1, 1)),
            (Input::Fetch { first: 2 }, Answer::Nothing),
            (Input::Stable { seq: 0 }, Answer::Nothing),
            (Input::Fetch { first: 1 }, Answer::Groups(1, 1)),
            (Input::Seal, Answer::SealedAt(1, 1)),
            (Input::Seal, Answer::SealedAt(1, 1)),
            (append(2, 1), Answer::Sealed(1, 1)),
            (append(1, 1), Answer::Sealed(1, 1)),
        ],
    )
}

#[test]
fn a_close_seals_and_sets_the_mark(rt: HostRuntime) -> Result<(), Fail> {
    let append = |seq| Input::Append {
        seq,
        ends: 1,
        beats: 0,
    };
    let roster = |state, length| Input::Roster { state, length };
    check(
        &rt,
        rt.alloc(),
        &[
            (append(1), Answer::Ack(1, 1)),
            (append(2), Answer::Ack(1, 2)),
            (append(3), Answer::Ack(1, 3)),
            (Input::Stable { seq: 3 }, Answer::Nothing),
            (roster(WriterState::Live, 0), Answer::Nothing),
            (Input::Fetch { first: 1 }, Answer::Groups(3, 1)),
            (roster(WriterState::Closed, 2), Answer::Nothing),
            (Input::Fetch { first: 1 }, Answer::Groups(2, 1)),
            (append(4), Answer::Sealed(1, 3)),
            (Input::Closed { length: 1 }, Answer::Nothing),
            (Input::Fetch { first: 1 }, Answer::Groups(1, 1)),
        ],
    )
}

#[test]
fn a_message_of_groups_has_at_most_one_mebibyte(rt: HostRuntime) -> Result<(), Fail> {
    // beside the groups the message has 21 bytes, and each group 20 beside its records
    let tables: [(u32, u32, usize); 3] = [(0, 4, 2), (0, 5, 1), (104_900, 0, 1)];
    for (ends, beats, served) in tables.iter() {
        check(
            &rt,
            rt.alloc(),
            &[
                (
                    Input::Append {
                        seq: 1,
                        ends: *ends,
                        beats: 1,
                    },
                    Answer::Ack(1, 1),
                ),
                (
                    Input::Append {
                        seq: 2,
                        ends: 104_851,
                        beats: *beats,
                    },
                    Answer::Ack(1, 2),
                ),
                (Input::Stable { seq: 2 }, Answer::Nothing),
                (Input::Fetch { first: 1 }, Answer::Groups(*served, 1)),
            ],
        )?;
    }
    Ok(())
}

#[test]
fn a_tick_asks_for_the_roster(rt: HostRuntime) -> Result<(), Fail> {
    let mut store = LogStore::open(rt.alloc(), 1);
    let Ok(Answer::SealedAt(1, 0)) = step(rt.alloc(), &mut store, Input::Seal) else {
        return Err(Fail::from("not sealed"));
    };
    let Ok(outputs) = store.tick() else {
        return Err(Fail::from("no memory"));
    };
    let Some(message) = outputs.get(0) else {
        return Err(Fail::from("nothing"));
    };
    assert!(rt; outputs.len() == 1 && matches!(message.note, Note::Want { writer: None }));
    assert_eq!(rt; message.to, Node::LockManager);
    assert_eq!(rt; message.from, Node::LogStore { number: 1 });
    assert_eq!(rt; message.stamp, Stamp(7));
    Ok(())
}
