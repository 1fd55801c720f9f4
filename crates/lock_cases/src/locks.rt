//! The lock manager, told one message after another.
use global_locks::Locks;
use std::alloc::Global;
use tm_base::{
    ItemList, Key, Mem, Message, MessageList, NoMemory, Node, Note, Page, PageStamp, PageStampList,
    Stamp, Tag, TagList, Txn, Vector, Writer,
};

const M1: Node = Node::Master { number: 1 };

const M2: Node = Node::Master { number: 2 };

const FIRST_GRANT: Sent = Sent::Grant(1, 1, 1, 0, 0);

const FRESH: Sent = Sent::FreshIs(Some(Page(1025)));

/// What is told to the lock manager: of writer 1, where no other is named.
#[derive(Clone, Copy)]
enum Told {
    /// The boot number.
    Register(u32),
    /// Writer and page.
    Request(u32, u32),
    /// Which request it is.
    Fresh(u32),
    /// Of page 1 with one tag, at this epoch and with this stamp.
    Release(u32, u64),
    Ask,
    /// Length and store.
    Close(u32, u8),
    /// The part, whether the rest is freed too, and a page that is listed with stamp 4.
    Takeover(u32, bool, u32),
    /// The recoverer.
    Undone(u32),
    Want,
}

/// What the lock manager sends.
#[derive(Clone, Copy, PartialEq, Eq)]
enum Sent {
    Nothing,
    Registered(u32),
    /// Writer, page, epoch, stamp and how many tags.
    Grant(u32, u32, u32, u64, usize),
    /// Writer, page and epoch.
    Recall(u32, u32, u32),
    /// The epoch.
    Released(u32),
    FreshIs(Option<Page>),
    /// Length and store.
    Closed(u32, u8),
    /// The part.
    Taken(u32),
    Recovered,
    /// Whether the transaction has ended.
    Fate(bool),
    Ask,
    /// How many writers.
    Roster(usize),
    Other,
}

/// Who tells what, whether that changes anything, how many messages are sent and the first of them.
type Row = (Node, Told, bool, usize, Sent);

fn first_sent(outputs: &MessageList) -> Sent {
    let Some(first) = outputs.get(0) else {
        return Sent::Nothing;
    };
    match &first.note {
        Note::Registered { writer, .. } => Sent::Registered(writer.0),
        Note::Grant {
            writer,
            page,
            epoch,
            stamp,
            tags,
            ..
        } => Sent::Grant(writer.0, page.0, *epoch, stamp.0, tags.len()),
        Note::Recall {
            writer,
            page,
            epoch,
        } => Sent::Recall(writer.0, page.0, *epoch),
        Note::Released { epoch, .. } => Sent::Released(*epoch),
        Note::FreshIs { page, .. } => Sent::FreshIs(*page),
        Note::Closed { length, store, .. } => Sent::Closed(*length, *store),
        Note::Taken { part, .. } => Sent::Taken(*part),
        Note::Recovered { .. } => Sent::Recovered,
        Note::Fate { ended, .. } => Sent::Fate(*ended),
        Note::Ask { .. } => Sent::Ask,
        Note::Roster { entries } => Sent::Roster(entries.len()),
        _ => Sent::Other,
    }
}

fn one_tag(alloc: Global, txn: Txn) -> Mem<TagList> {
    let Ok(key) = Key::new(alloc, b"k") else {
        return Err(NoMemory);
    };
    let mut tags = ItemList::new(alloc);
    tags.push(Tag { key, txn })?;
    Ok(tags)
}

fn one_page(alloc: Global, page: Page) -> Mem<PageStampList> {
    let mut pages = ItemList::new(alloc);
    let stamp = Stamp(4);
    pages.push(PageStamp { page, stamp })?;
    Ok(pages)
}

fn note(alloc: Global, told: Told) -> Mem<Note> {
    let (writer, number, master) = (Writer(1), 1, 2);
    let txn = Txn { writer, number };
    Ok(match told {
        Told::Register(boot) => Note::Register { boot },
        Told::Request(writer, page) => {
            let (writer, page) = (Writer(writer), Page(page));
            Note::Request { writer, page }
        }
        Told::Fresh(nth) => Note::RequestFresh { writer, nth },
        Told::Release(epoch, stamp) => Note::Release {
            writer,
            page: Page(1),
            epoch,
            stamp: Stamp(stamp),
            tags: one_tag(alloc, txn)?,
            vector: Vector::new(alloc),
        },
        Told::Ask => Note::Ask { txn, master },
        Told::Close(length, store) => Note::Close {
            writer,
            length,
            store,
        },
        Told::Takeover(part, rest, page) => Note::Takeover {
            writer,
            part,
            rest,
            pages: one_page(alloc, Page(page))?,
            vector: Vector::new(alloc),
        },
        Told::Undone(recoverer) => Note::Undone {
            writer,
            recoverer: Writer(recoverer),
            vector: Vector::new(alloc),
        },
        Told::Want => Note::Want { writer: None },
    })
}

/// Whether a lock manager does what the row says.
fn does(alloc: Global, locks: &mut Locks, row: Row) -> Mem<bool> {
    let (from, told, changed, count, first) = row;
    let message = Message {
        from,
        to: Node::LockManager,
        stamp: Stamp(0),
        note: note(alloc, told)?,
    };
    let (moved, outputs) = locks.step(&message)?;
    Ok(moved == changed && outputs.len() == count && first_sent(&outputs) == first)
}

/// How many rows a new lock manager goes through as they say.
fn played(alloc: Global, rows: &[Row]) -> Mem<usize> {
    let mut locks = Locks::new(alloc);
    for (at, row) in rows.iter().enumerate() {
        if !does(alloc, &mut locks, *row)? {
            return Ok(at);
        }
    }
    Ok(rows.len())
}

/// Writers are numbered, and pages leased, recalled and released.
#[test]
fn pages_are_leased(rt: HostRuntime) {
    let rows: [Row; 14] = [
        (M1, Told::Register(1), true, 1, Sent::Registered(1)),
        (M1, Told::Register(1), false, 1, Sent::Registered(1)),
        (M1, Told::Register(0), false, 0, Sent::Nothing),
        (M1, Told::Request(1, 1), true, 1, FIRST_GRANT),
        (M1, Told::Request(1, 1), false, 1, FIRST_GRANT),
        (M2, Told::Register(1), true, 1, Sent::Registered(2)),
        (M2, Told::Request(2, 1), false, 1, Sent::Recall(1, 1, 1)),
        (M1, Told::Release(2, 5), false, 1, Sent::Released(2)),
        (M1, Told::Release(1, 5), true, 1, Sent::Released(1)),
        (M2, Told::Request(2, 1), true, 1, Sent::Grant(2, 1, 2, 5, 1)),
        (M1, Told::Request(1, 1025), false, 0, Sent::Nothing),
        (M1, Told::Fresh(1), true, 1, FRESH),
        (M1, Told::Fresh(1), false, 1, FRESH),
        (M1, Told::Ask, false, 1, Sent::Ask),
    ];
    assert_eq!(rt; played(rt.alloc(), &rows), Ok(14));
}

/// A writer is closed once, its pages are taken over in parts, and it is recovered.
#[test]
fn a_writer_is_recovered(rt: HostRuntime) {
    let rows: [Row; 18] = [
        (M1, Told::Register(1), true, 1, Sent::Registered(1)),
        (M2, Told::Register(1), true, 1, Sent::Registered(2)),
        (M1, Told::Request(1, 1), true, 1, FIRST_GRANT),
        (M1, Told::Request(1, 2), true, 1, Sent::Grant(1, 2, 1, 0, 0)),
        (M2, Told::Close(7, 2), true, 4, Sent::Closed(7, 2)),
        (M2, Told::Close(9, 3), false, 4, Sent::Closed(7, 2)),
        (M2, Told::Ask, false, 1, Sent::Fate(false)),
        (M2, Told::Undone(2), false, 0, Sent::Nothing),
        (M2, Told::Takeover(1, false, 2), true, 1, Sent::Taken(1)),
        (M2, Told::Request(2, 2), true, 1, Sent::Grant(2, 2, 2, 4, 0)),
        (M2, Told::Request(2, 1), false, 1, Sent::Recall(1, 1, 1)),
        (M2, Told::Takeover(2, true, 2), true, 1, Sent::Taken(2)),
        (M2, Told::Takeover(2, true, 2), false, 1, Sent::Taken(2)),
        (M2, Told::Request(2, 1), true, 1, Sent::Grant(2, 1, 2, 0, 0)),
        (M2, Told::Undone(1), false, 0, Sent::Nothing),
        (M2, Told::Undone(2), true, 1, Sent::Recovered),
        (M2, Told::Ask, false, 1, Sent::Fate(true)),
        (M2, Told::Want, false, 1, Sent::Roster(2)),
    ];
    assert_eq!(rt; played(rt.alloc(), &rows), Ok(18));
}

/// There are 1,024 writers at most.
#[test]
fn writers_are_limited(rt: HostRuntime) {
    let mut locks = Locks::new(rt.alloc());
    for boot in 1..1025 {
        let row = (M1, Told::Register(boot), true, 1, Sent::Registered(boot));
        assert_eq!(rt; does(rt.alloc(), &mut locks, row), Ok(true));
    }
    let row = (M1, Told::Register(1025), false, 0, Sent::Nothing);
    assert_eq!(rt; does(rt.alloc(), &mut locks, row), Ok(true));
}
