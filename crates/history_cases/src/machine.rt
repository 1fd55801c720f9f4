//! Worked cases, row by row: each table is a function from a row's number to its step and to whether the machine
//! takes it, so that a step is made when its turn comes and dropped after it.
use key_model::{EndList, Ended, Machine, MachineStep, PutKey, PutList};
use std::alloc::Global;
use std::test::Fail;
use tm_base::{ByteList, Command, Mem, Reply, Txn, Value, Writer};

const FIRST: Txn = Txn {
    writer: Writer(1),
    number: 1,
};

const SECOND: Txn = Txn {
    writer: Writer(2),
    number: 1,
};

// A step in session 1 of the writer.
fn answered(writer: u32, command: Command, reply: Reply) -> MachineStep {
    MachineStep::Answered {
        writer: Some(Writer(writer)),
        session: 1,
        command,
        reply,
    }
}

fn begun(txn: Txn) -> MachineStep {
    answered(txn.writer.0, Command::Begin, Reply::Begun { txn })
}

fn put(alloc: Global, writer: u32, key: &[u8], value: &[u8]) -> Mem<MachineStep> {
    let command = Command::Put {
        table: 1,
        key: ByteList::from_slice(alloc, key)?,
        value: ByteList::from_slice(alloc, value)?,
    };
    Ok(answered(writer, command, Reply::Done))
}

fn del(alloc: Global, writer: u32, key: &[u8]) -> Mem<MachineStep> {
    let command = Command::Del {
        table: 1,
        key: ByteList::from_slice(alloc, key)?,
    };
    Ok(answered(writer, command, Reply::Done))
}

fn told(alloc: Global, writer: u32, key: &[u8], value: Option<&[u8]>) -> Mem<MachineStep> {
    let command = Command::Get {
        table: 1,
        key: ByteList::from_slice(alloc, key)?,
    };
    let value = match value {
        Some(bytes) => match Value::new(alloc, bytes) {
            Ok(value) => Some(value),
            Err(_) => None,
        },
        None => None,
    };
    Ok(answered(writer, command, Reply::Value { value }))
}

fn committed(txn: Txn) -> MachineStep {
    answered(txn.writer.0, Command::Commit, Reply::Committed { txn })
}

fn settle(txn: Txn, committed: bool) -> MachineStep {
    MachineStep::Settle { txn, committed }
}

type Row = (Mem<MachineStep>, bool);

// The step is taken or refused as its row says.
fn comes_out(machine: &mut Machine, row: Row) -> Result<(), Fail> {
    let (step, allowed) = row;
    let Ok(step) = step else {
        return Err(Fail::from("a step"));
    };
    let Ok(taken) = machine.step(&step) else {
        return Err(Fail::from("a step's memory"));
    };
    if taken != allowed {
        return Err(Fail::from("another answer"));
    }
    Ok(())
}

// The map has this one row of table 1.
fn is_one_row(machine: &Machine, key: &[u8], value: &[u8]) -> bool {
    let Ok(map) = machine.map() else {
        return false;
    };
    let Some(entry) = map.get(0) else {
        return false;
    };
    map.len() == 1
        && entry.table == 1
        && entry.key.as_slice() == key
        && entry.value.as_slice() == value
}

fn commit_row(alloc: Global, number: u32) -> Row {
    match number {
        0 => (Ok(begun(FIRST)), true),
        1 => (Ok(begun(SECOND)), true),
        2 => (told(alloc, 1, b"k", None), true),
        3 => (put(alloc, 1, b"k", b"new"), true),
        4 => (told(alloc, 1, b"k", Some(b"new")), true),
        5 => (told(alloc, 1, b"k", None), false),
        6 => (told(alloc, 2, b"k", None), false),
        7 => (put(alloc, 2, b"k", b"other"), false),
        8 => (Ok(committed(FIRST)), false),
        9 => (Ok(settle(FIRST, true)), true),
        10 => (Ok(settle(FIRST, true)), false),
        11 => (Ok(committed(FIRST)), true),
        12 => (Ok(begun(FIRST)), false),
        13 => (told(alloc, 2, b"k", None), false),
        _ => (told(alloc, 2, b"k", Some(b"new")), true),
    }
}

/// A transaction's own value is seen by itself alone, and by the next one once it is settled as
/// committed; Committed comes after that, and frees the session.
#[test]
fn a_value_is_committed(rt: HostRuntime) -> Result<(), Fail> {
    let mut machine = Machine::new(rt.alloc());
    for number in 0..15 {
        comes_out(&mut machine, commit_row(rt.alloc(), number))?;
    }
    assert!(rt; is_one_row(&machine, b"k", b"new"));
    Ok(())
}

const NEXT: Txn = Txn {
    writer: Writer(1),
    number: 2,
};

// Writer 1 is told that a writer is recovered.
fn recovers(writer: Writer) -> MachineStep {
    answered(1, Command::Recover { writer }, Reply::Recovered { writer })
}

fn undo_row(alloc: Global, number: u32) -> Row {
    match number {
        0 => (Ok(begun(FIRST)), true),
        1 => (put(alloc, 1, b"b", b"1"), true),
        2 => (put(alloc, 1, b"a", b"2"), true),
        3 => (Ok(settle(FIRST, true)), true),
        4 => (Ok(committed(FIRST)), true),
        5 => (Ok(begun(NEXT)), true),
        6 => (del(alloc, 1, b"b"), true),
        7 => (told(alloc, 1, b"b", None), true),
        8 => (Ok(begun(SECOND)), true),
        9 => (told(alloc, 2, b"a", Some(b"2")), true),
        10 => (del(alloc, 1, b"a"), false),
        11 => (put(alloc, 2, b"c", b"3"), true),
        12 => (Ok(settle(SECOND, false)), true),
        13 => (Ok(committed(SECOND)), false),
        14 => (
            Ok(answered(2, Command::Abort, Reply::Aborted { txn: SECOND })),
            true,
        ),
        15 => (Ok(settle(NEXT, true)), true),
        16 => (Ok(recovers(SECOND.writer)), false),
        _ => (Ok(answered(1, Command::Commit, Reply::FullGroups)), true),
    }
}

/// A deletion takes the row away, what is undone never was there, and a key that another open
/// transaction has read isn't written.
#[test]
fn rows_go_and_stay(rt: HostRuntime) -> Result<(), Fail> {
    let mut machine = Machine::new(rt.alloc());
    for number in 0..18 {
        comes_out(&mut machine, undo_row(rt.alloc(), number))?;
    }
    assert!(rt; is_one_row(&machine, b"a", b"2"));
    Ok(())
}

// The same step in session 2.
fn second(step: MachineStep) -> MachineStep {
    match step {
        MachineStep::Answered {
            writer,
            session: _,
            command,
            reply,
        } => MachineStep::Answered {
            writer,
            session: 2,
            command,
            reply,
        },
        other => other,
    }
}

// The close of writer 1: FIRST has its commit in the log, and the open transaction has put `b`.
fn closes(alloc: Global, open: Txn) -> Mem<MachineStep> {
    let mut ends = EndList::new(alloc);
    ends.push(Ended {
        txn: FIRST,
        committed: true,
    })?;
    let mut puts = PutList::new(alloc);
    puts.push(PutKey {
        txn: open,
        table: 1,
        key: ByteList::from_slice(alloc, b"b")?,
    })?;
    Ok(MachineStep::Close {
        writer: Writer(1),
        ends,
        puts,
    })
}

fn close_row(alloc: Global, number: u32) -> Row {
    match number {
        0 => (Ok(begun(FIRST)), true),
        1 => (put(alloc, 1, b"a", b"1"), true),
        2 => (Ok(second(begun(NEXT))), true),
        3 => (put(alloc, 1, b"b", b"2").map(second), true),
        4 => (Ok(MachineStep::Recover { writer: Writer(1) }), false),
        5 => (closes(alloc, NEXT), true),
        6 => (closes(alloc, NEXT), false),
        7 => (Ok(begun(SECOND)), true),
        8 => (told(alloc, 2, b"a", Some(b"1")), true),
        9 => (told(alloc, 2, b"b", None), false),
        10 => (put(alloc, 2, b"b", b"3"), false),
        11 => (Ok(MachineStep::Recover { writer: Writer(1) }), true),
        12 => (told(alloc, 2, b"b", None), true),
        _ => (Ok(committed(FIRST)), true),
    }
}

/// At a writer's close, what ended in its log is settled and the rest leaves its keys locked; a recovery
/// frees them, and only a closed writer is recovered.
#[test]
fn a_closed_writer_leaves_its_rows(rt: HostRuntime) -> Result<(), Fail> {
    let mut machine = Machine::new(rt.alloc());
    for number in 0..14 {
        comes_out(&mut machine, close_row(rt.alloc(), number))?;
    }
    Ok(())
}
