//! The lock manager, with pages that are leased.
ghost use Rattle.std.specs.Prelude.{◌≡◌, IfOk};
ghost use Rattle.rounds.specs.Answers.{managed};

use global_locks::Locks;
use round_works::Failure;
use std::alloc::Global;
use tm_base::{Mem, Message, Node, Note, Page, Stamp, TagList, Txn, Vector, Writer};

/// Fresh pages are numbered from here on.
const FRESH: u32 = 1025;

/// The writer that has the pages, master 1's.
const OWNER: Writer = Writer(1);

// A message of a master to the lock manager.
fn said(master: u8, note: Note) -> Message {
    Message {
        from: Node::Master { number: master },
        to: Node::LockManager,
        stamp: Stamp(0),
        note,
    }
}

// Two masters register, and the first one asks for so many fresh pages.
fn joins(alloc: Global, pages: u32) -> Mem<Vec<Message>> {
    let mut messages = Vec::new(alloc);
    for master in 1..3 {
        messages.push(said(master, Note::Register { boot: 1 }))?;
    }
    let writer = OWNER;
    for at in 0..pages {
        let nth = at.saturating_add(1);
        messages.push(said(1, Note::RequestFresh { writer, nth }))?;
    }
    Ok(messages)
}

// So many requests, each for the next of so many pages.
fn requests(alloc: Global, pages: u32, count: u32) -> Mem<Vec<Message>> {
    let mut messages = Vec::new(alloc);
    let writer = OWNER;
    for at in 0..count {
        let page = Page(FRESH.saturating_add(at % pages.max(1)));
        messages.push(said(1, Note::Request { writer, page }))?;
    }
    Ok(messages)
}

// A page that was leased so often is given back.
fn released(alloc: Global, page: Page, epoch: u32) -> Note {
    Note::Release {
        writer: OWNER,
        page,
        epoch,
        stamp: Stamp(0),
        tags: TagList::new(alloc),
        vector: Vector::new(alloc),
    }
}

// So many releases of the last of so many pages, each with the request that leases it again.
fn releases(alloc: Global, pages: u32, count: u32) -> Mem<Vec<Message>> {
    let mut messages = Vec::new(alloc);
    let writer = OWNER;
    let page = Page(FRESH.saturating_add(pages.saturating_sub(1)));
    for at in 0..count {
        let epoch = at.saturating_add(1);
        messages.push(said(1, released(alloc, page, epoch)))?;
        messages.push(said(1, Note::Request { writer, page }))?;
    }
    Ok(messages)
}

// So many questions for the fates of the owner's transactions.
fn questions(alloc: Global, count: u32) -> Mem<Vec<Message>> {
    let mut messages = Vec::new(alloc);
    let (writer, master) = (OWNER, 2);
    for at in 0..count {
        let number = at.saturating_add(1);
        let txn = Txn { writer, number };
        messages.push(said(2, Note::Ask { txn, master }))?;
    }
    Ok(messages)
}

/// Hands these messages to the lock manager. Gives the number of those that it answers.
fn hand_in(locks: &mut Locks, messages: &[Message]) -> Mem<usize>
    ensures { IfOk result (λ sum. sum ≡ managed locks.old messages.now) }
{
    let mut sum: usize = 0;
    for message in messages {
        let (_, outputs) = locks.step(message)?;
        if !outputs.is_empty() {
            sum += 1;
        }
    }
    Ok(sum)
}

// Hands these messages to a lock manager with two writers, the first of which has so many fresh pages.
fn handed(alloc: Global, pages: u32, messages: &[Message]) -> Mem<usize> {
    let mut locks = Locks::new(alloc);
    hand_in(&mut locks, &joins(alloc, pages)?)?;
    hand_in(&mut locks, messages)
}

/// Requests, in each round, one of so many pages that it has. Gives the number of answers.
pub fn request(alloc: Global, pages: u32, rounds: u32) -> Result<usize, Failure> {
    Ok(handed(alloc, pages, &requests(alloc, pages, rounds)?)?)
}

/// Releases the last page in each round and leases it again. Gives the number of answers.
pub fn release(alloc: Global, pages: u32, rounds: u32) -> Result<usize, Failure> {
    Ok(handed(alloc, pages, &releases(alloc, pages, rounds)?)?)
}

/// Asks, in each round, for the fate of a transaction of the other writer. Gives the number of answers.
pub fn ask(alloc: Global, pages: u32, rounds: u32) -> Result<usize, Failure> {
    Ok(handed(alloc, pages, &questions(alloc, rounds)?)?)
}
