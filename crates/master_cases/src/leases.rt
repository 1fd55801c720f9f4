//! Page 1 and a fresh page come and go at a writer, and fates are asked and told.
use lease_desk::Lease;
use master_leases::{on_ask, on_fate, on_fresh, on_grant, on_page, on_recall, on_released};
use master_work::WorkState;
use page_redo::initial;
use std::test::Fail;
use tm_base::{Mem, Message, MessageList, Note, Page, Stamp, TagList, Txn, Vector, Writer};

/// What comes to the writer.
enum Coming {
    /// The page, at this epoch and with this stamp.
    Grant(u32, u32),
    /// Its image as of this stamp.
    PageIs(u32),
    Recall(u32),
    Released(u32),
    /// The fresh page, or none, as the answer to the request of this number.
    Fresh(u32, bool),
    /// That the foreign transaction has ended, or is open.
    Fate(bool),
    /// The question after a transaction of this writer.
    Ask(u32),
}

/// What the writer sends.
#[derive(Clone, Copy, PartialEq, Eq)]
enum Sent {
    Nothing,
    /// With its scalar: the stamp as of which the image is asked for.
    ReadPage(u64),
    /// With the page's epoch and stamp.
    Release(u32, u64),
    /// Whether the transaction has ended.
    Fate(bool),
    Other,
}

const OURS: u32 = 3;

const FRESH: Page = Page(1025);

fn first_of(writer: u32) -> Txn {
    Txn {
        writer: Writer(writer),
        number: 1,
    }
}

fn page_comes(work: &mut WorkState, epoch: u32, stamp: u32) -> Mem<MessageList> {
    let tags = TagList::new(work.alloc);
    let vector = Vector::new(work.alloc);
    let stamp = Stamp(u64::from(stamp));
    on_grant(work, Page(1), epoch, stamp, &tags, &vector)
}

fn image_comes(work: &mut WorkState, stamp: u32) -> Mem<()> {
    let mut image = initial(work.alloc, Page(1));
    image.stamp = Stamp(u64::from(stamp));
    on_page(work, &image)
}

fn fate_comes(work: &mut WorkState, ended: bool) -> Mem<()> {
    let vector = Vector::new(work.alloc);
    on_fate(work, first_of(9), ended, &vector)
}

fn comes(work: &mut WorkState, coming: Coming) -> Mem<MessageList> {
    match coming {
        Coming::Grant(epoch, stamp) => return page_comes(work, epoch, stamp),
        Coming::Recall(epoch) => return on_recall(work, Page(1), epoch),
        Coming::Ask(writer) => return on_ask(work, first_of(writer), 2),
        Coming::PageIs(stamp) => image_comes(work, stamp)?,
        Coming::Released(epoch) => on_released(work, Page(1), epoch),
        Coming::Fresh(nth, any) => on_fresh(work, nth, any.then_some(FRESH))?,
        Coming::Fate(ended) => fate_comes(work, ended)?,
    }
    Ok(MessageList::new(work.alloc))
}

fn first_sent(messages: &[Message]) -> Sent {
    let Some(message) = messages.first() else {
        return Sent::Nothing;
    };
    match &message.note {
        Note::ReadPage { .. } => Sent::ReadPage(message.stamp.0),
        Note::Release { epoch, stamp, .. } => Sent::Release(*epoch, stamp.0),
        Note::Fate { ended, .. } => Sent::Fate(*ended),
        _ => Sent::Other,
    }
}

// What comes, what is sent, and the lease of page 1 after it.
fn row(number: u32) -> (Coming, Sent, Lease) {
    match number {
        0 => (Coming::Grant(1, 0), Sent::Nothing, Lease::Held),
        1 => (Coming::Grant(1, 5), Sent::Nothing, Lease::Held),
        2 => (Coming::Recall(1), Sent::Release(1, 0), Lease::Releasing),
        3 => (Coming::Recall(1), Sent::Release(1, 0), Lease::Releasing),
        4 => (Coming::Released(2), Sent::Nothing, Lease::Releasing),
        5 => (Coming::Released(1), Sent::Nothing, Lease::None),
        6 => (Coming::Grant(2, 30), Sent::ReadPage(30), Lease::Held),
        7 => (Coming::PageIs(29), Sent::Nothing, Lease::Held),
        8 => (Coming::PageIs(30), Sent::Nothing, Lease::Held),
        9 => (Coming::Fresh(2, true), Sent::Nothing, Lease::Held),
        10 => (Coming::Fresh(1, true), Sent::Nothing, Lease::Held),
        11 => (Coming::Fate(false), Sent::Nothing, Lease::Held),
        12 => (Coming::Fate(true), Sent::Nothing, Lease::Held),
        13 => (Coming::Ask(OURS), Sent::Fate(false), Lease::Held),
        _ => (Coming::Ask(9), Sent::Nothing, Lease::Held),
    }
}

#[test]
fn pages_come_and_go(rt: HostRuntime) -> Result<(), Fail> {
    let mut work = WorkState::new(rt.alloc(), 1, 2, Writer(OURS), Stamp(40))?;
    for number in 0..15 {
        let (coming, sent, lease) = row(number);
        let messages = comes(&mut work, coming)?;
        if first_sent(messages.as_slice()) != sent || work.desk.state(Page(1)) != lease {
            return Err(Fail::from("another answer"));
        }
    }
    assert!(rt; work.pool.find(Page(1)).is_some());
    assert_eq!(rt; work.stock.as_slice(), [FRESH].as_slice());
    assert!(rt; work.is_ended(first_of(9)));
    Ok(())
}
