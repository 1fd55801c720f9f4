//! What is read of a writer that begins, and a transaction in a session.
use master_model::Progress;
use master_work::{Sessions, WorkState};
use std::alloc::Global;
use std::test::Fail;
use tm_base::{ByteList, Mem, Node, Page, RowKey, Stamp, Txn, Writer};

/// What is asked of a writer.
enum Asked {
    Settled,
    /// The page store of a page.
    StoreOf(u32),
    /// Of the first transaction of a writer.
    IsOwn(u32),
    IsEnded(u32),
    /// Of a group.
    WaitsFor(u32),
}

#[derive(Clone, Copy, PartialEq, Eq)]
enum Told {
    Stamp(u64),
    Store(u8),
    Is(bool),
    Group(u8, u32),
    Nothing,
}

fn first_of(writer: u32) -> Txn {
    Txn {
        writer: Writer(writer),
        number: 1,
    }
}

fn store_of(work: &WorkState, page: u32) -> Told {
    match work.stores.store_of(Page(page)) {
        Node::PageStore { number } => Told::Store(number),
        _ => Told::Nothing,
    }
}

fn waits_for(work: &WorkState, seq: u32) -> Told {
    match work.waits_for(seq) {
        Some((store, seq)) => Told::Group(store, seq),
        None => Told::Nothing,
    }
}

fn tells(work: &WorkState, asked: Asked) -> Told {
    match asked {
        Asked::Settled => Told::Stamp(work.settled().0),
        Asked::StoreOf(page) => store_of(work, page),
        Asked::IsOwn(writer) => Told::Is(work.is_own(first_of(writer))),
        Asked::IsEnded(writer) => Told::Is(work.is_ended(first_of(writer))),
        Asked::WaitsFor(seq) => waits_for(work, seq),
    }
}

fn question(number: u32) -> (Asked, Told) {
    match number {
        0 => (Asked::Settled, Told::Stamp(40)),
        1 => (Asked::StoreOf(5), Told::Store(2)),
        2 => (Asked::IsOwn(3), Told::Is(true)),
        3 => (Asked::IsOwn(4), Told::Is(false)),
        4 => (Asked::IsEnded(3), Told::Is(false)),
        _ => (Asked::WaitsFor(1), Told::Group(1, 1)),
    }
}

/// A writer begins with nothing.
#[test]
fn a_writer_begins_with_nothing(rt: HostRuntime) -> Result<(), Fail> {
    let work = WorkState::new(rt.alloc(), 1, 2, Writer(3), Stamp(40))?;
    for number in 0..6 {
        let (asked, told) = question(number);
        if tells(&work, asked) != told {
            return Err(Fail::from("another answer"));
        }
    }
    Ok(())
}

/// What happens in a session.
enum Deed {
    Begin(u16),
    /// It writes the row of the key `k` of a table.
    Write(u16, u16),
    /// It ends as the group of this number.
    End(u16, u32),
    Free(u16),
    /// How far the log is durable, and a transaction's number.
    IsOpen(u32, u32),
}

#[derive(Clone, Copy, PartialEq, Eq)]
enum Said {
    Begun(u32),
    Added(bool),
    Done,
    Open(bool),
    Refused,
}

fn begins(sessions: &mut Sessions, session: u16) -> Mem<Said> {
    if sessions.get(session).is_some() || sessions.begun() > 1000 {
        return Ok(Said::Refused);
    }
    let number = sessions.begin(session)?;
    Ok(Said::Begun(number))
}

fn writes(alloc: Global, sessions: &mut Sessions, session: u16, table: u16) -> Mem<Said> {
    let key = ByteList::from_slice(alloc, b"k")?;
    if sessions.get(session).is_none() || key.as_slice().len() != 1 {
        return Ok(Said::Refused);
    }
    let added = sessions.add_written(session, RowKey { table, key })?;
    Ok(Said::Added(added))
}

fn ends(sessions: &mut Sessions, session: u16, seq: u32) -> Said {
    if sessions.get(session).is_none() {
        return Said::Refused;
    }
    let committed = true;
    sessions.set_progress(session, Progress::Ended { committed, seq });
    Said::Done
}

fn frees(sessions: &mut Sessions, session: u16) -> Said {
    sessions.free(session);
    Said::Done
}

fn happens(alloc: Global, sessions: &mut Sessions, deed: Deed) -> Mem<Said> {
    match deed {
        Deed::Begin(session) => begins(sessions, session),
        Deed::Write(session, table) => writes(alloc, sessions, session, table),
        Deed::End(session, seq) => Ok(ends(sessions, session, seq)),
        Deed::Free(session) => Ok(frees(sessions, session)),
        Deed::IsOpen(durable, number) => Ok(Said::Open(sessions.is_open(durable, number))),
    }
}

fn row(number: u32) -> (Deed, Said) {
    match number {
        0 => (Deed::Begin(7), Said::Begun(1)),
        1 => (Deed::Begin(9), Said::Begun(2)),
        2 => (Deed::Begin(7), Said::Refused),
        3 => (Deed::Write(7, 1), Said::Added(true)),
        4 => (Deed::Write(7, 1), Said::Added(false)),
        5 => (Deed::End(7, 3), Said::Done),
        6 => (Deed::IsOpen(2, 1), Said::Open(true)),
        7 => (Deed::IsOpen(3, 1), Said::Open(false)),
        8 => (Deed::IsOpen(3, 2), Said::Open(true)),
        9 => (Deed::IsOpen(3, 3), Said::Open(false)),
        10 => (Deed::Free(7), Said::Done),
        _ => (Deed::Begin(7), Said::Begun(3)),
    }
}

/// A session has one transaction at a time, which is open until its end is durable.
#[test]
fn a_session_has_one_transaction_at_a_time(rt: HostRuntime) -> Result<(), Fail> {
    let mut sessions = Sessions::new(rt.alloc());
    for number in 0..12 {
        let (deed, said) = row(number);
        if happens(rt.alloc(), &mut sessions, deed)? != said {
            return Err(Fail::from("another answer"));
        }
    }
    Ok(())
}
