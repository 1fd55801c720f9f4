//! A commit in a session, with acknowledgements in another order than sent, ticks, and a stamp that is wanted.
use master_acks::{on_ack, ticked};
use master_ends::{appends, commit, on_want};
use master_work::{Answer, WorkState};
use std::test::Fail;
use tm_base::{Mem, Node, Reply, Stamp, Writer};

const SESSION: u16 = 7;

/// What happens at the writer.
enum Deed {
    Begin,
    Commit,
    /// A log store acknowledges the first group.
    Acked(u8),
    Tick,
    Want(u32),
}

/// What comes of it.
#[derive(Clone, Copy, PartialEq, Eq)]
enum Said {
    /// So many messages are sent.
    Sent(usize),
    /// A log store is awaited, with a group.
    Again(u8, u32),
    Committed,
    NoTransaction,
    Other,
}

// Begins a transaction in the session, unless it has one.
fn begin(work: &mut WorkState) -> Mem<Said> {
    if work.sessions.get(SESSION).is_some() || work.sessions.begun() > 1000 {
        return Ok(Said::Other);
    }
    work.sessions.begin(SESSION)?;
    Ok(Said::Sent(0))
}

fn what_is_said(answer: &Answer) -> Said {
    match answer.reply {
        Reply::AgainStore { store, seq } => Said::Again(store, seq),
        Reply::Committed { .. } => Said::Committed,
        Reply::NoTransaction => Said::NoTransaction,
        _ => Said::Other,
    }
}

// The groups that a commit logs are sent to three stores.
fn commits(work: &mut WorkState) -> Mem<Said> {
    let answer = commit(work, SESSION)?;
    let sent = appends(work, answer.groups.as_slice())?;
    if sent.len() / 3 != answer.groups.len() {
        return Ok(Said::Other);
    }
    Ok(what_is_said(&answer))
}

fn wants(work: &mut WorkState, stamp: u32) -> Mem<Said> {
    let sent = on_want(work, Stamp(u64::from(stamp)))?;
    Ok(Said::Sent(sent.len()))
}

fn acked(work: &mut WorkState, store: u8) -> Mem<Said> {
    let sent = on_ack(work, Node::LogStore { number: store }, 1)?;
    Ok(Said::Sent(sent.len()))
}

// To each log store what it lacks or how far the log is durable, and the question which roster is the last.
fn ticks(work: &WorkState) -> Mem<Said> {
    let sent = ticked(work)?;
    Ok(Said::Sent(sent.len()))
}

fn happens(work: &mut WorkState, deed: Deed) -> Mem<Said> {
    match deed {
        Deed::Begin => begin(work),
        Deed::Commit => commits(work),
        Deed::Acked(store) => acked(work, store),
        Deed::Tick => ticks(work),
        Deed::Want(stamp) => wants(work, stamp),
    }
}

fn row(number: u32) -> (Deed, Said) {
    match number {
        0 => (Deed::Commit, Said::NoTransaction),
        1 => (Deed::Begin, Said::Sent(0)),
        2 => (Deed::Commit, Said::Again(1, 1)),
        3 => (Deed::Tick, Said::Sent(4)),
        4 => (Deed::Acked(3), Said::Sent(0)),
        5 => (Deed::Commit, Said::Again(1, 1)),
        6 => (Deed::Acked(1), Said::Sent(0)),
        7 => (Deed::Commit, Said::Again(2, 1)),
        8 => (Deed::Acked(2), Said::Sent(3)),
        9 => (Deed::Tick, Said::Sent(4)),
        10 => (Deed::Commit, Said::Committed),
        11 => (Deed::Commit, Said::NoTransaction),
        12 => (Deed::Want(41), Said::Sent(0)),
        _ => (Deed::Want(42), Said::Sent(3)),
    }
}

#[test]
fn a_commit_waits_for_three_stores(rt: HostRuntime) -> Result<(), Fail> {
    let mut work = WorkState::new(rt.alloc(), 1, 2, Writer(3), Stamp(40))?;
    for number in 0..14 {
        let (deed, wanted) = row(number);
        if happens(&mut work, deed)? != wanted {
            return Err(Fail::from("another answer"));
        }
    }
    Ok(())
}
