//! Nodes, and the messages between them.
ghost use Rattle.std.specs.Prelude.{◌≡◌};

use tm_data::{
    Group, GroupList, Image, ItemList, Key, Mem, Page, Stamp, TryCopy, Txn, Vector, Writer,
};

/// A node. Masters, log stores, page stores and replicas are numbered from 1; there is one lock manager.
#[derive(Clone, Copy, Debug, PartialEq, Eq)]
pub enum Node {
    /// Takes commands, and writes pages and a log.
    Master { number: u8 },
    /// Keeps every master's log.
    LogStore { number: u8 },
    /// Rebuilds pages from the logs.
    PageStore { number: u8 },
    /// Leases pages to masters.
    LockManager,
    /// Answers reads at causally closed points.
    Replica { number: u8 },
}

/// A shared lock: the transaction has read the key, or has found that it is absent. Tags travel with
/// their leaf.
#[derive(Debug, Drop, PartialEq, Eq)]
pub struct Tag {
    pub key: Key,
    pub txn: Txn,
}

impl TryCopy for Tag {
    fn copy(&self) -> Mem<Tag> {
        Ok(Tag {
            key: self.key.copy()?,
            txn: self.txn,
        })
    }
}

/// Tags in order.
pub type TagList = ItemList<Tag>;

/// A page with the stamp of its last change.
#[derive(Clone, Copy, Debug, PartialEq, Eq)]
pub struct PageStamp {
    pub page: Page,
    pub stamp: Stamp,
}

impl TryCopy for PageStamp {
    fn copy(&self) -> Mem<PageStamp> {
        Ok(*self)
    }
}

/// Pages with their stamps, in order.
pub type PageStampList = ItemList<PageStamp>;

/// How far the life of a writer has come.
#[derive(Clone, Copy, Debug, PartialEq, Eq)]
pub enum WriterState {
    /// It may log.
    Live,
    /// Its log has an end that is final, and its open transactions wait to be undone.
    Closed,
    /// Its transactions stand whole or nowhere.
    Recovered,
}

/// What the lock manager tells of a writer.
#[derive(Clone, Copy, Debug, PartialEq, Eq)]
pub struct RosterEntry {
    pub writer: Writer,
    /// The number of its master.
    pub master: u8,
    pub state: WriterState,
    /// How many groups its closed log has; 0 while it is live.
    pub length: u32,
    /// The stamp at which it began: each of its groups has a greater one.
    pub start: Stamp,
}

impl TryCopy for RosterEntry {
    fn copy(&self) -> Mem<RosterEntry> {
        Ok(*self)
    }
}

/// Writers in ascending order.
pub type RosterEntryList = ItemList<RosterEntry>;

/// What a message says: one variant for each kind, in the order of the kinds' numbers.
#[derive(Drop)]
pub enum Note {
    /// A master asks for a writer number for this life.
    Register {
        boot: u32,
    },
    /// The life of this boot number is this writer.
    Registered {
        boot: u32,
        writer: Writer,
    },
    /// A group to be kept.
    Append {
        group: Group,
    },
    /// The group is kept.
    Ack {
        writer: Writer,
        seq: u32,
    },
    /// The group came too early: `next` is wanted.
    Gap {
        writer: Writer,
        next: u32,
    },
    /// The log is sealed here and takes no group; it has `length` groups.
    Sealed {
        writer: Writer,
        length: u32,
    },
    /// The groups up to `seq` are on every log store.
    Stable {
        writer: Writer,
        seq: u32,
    },
    /// Asks for groups from `first` on.
    Fetch {
        writer: Writer,
        first: u32,
    },
    /// Groups, one after another.
    Groups {
        writer: Writer,
        groups: GroupList,
    },
    /// Asks that the log take no more groups.
    Seal {
        writer: Writer,
    },
    /// The log is sealed with `length` groups.
    SealedAt {
        writer: Writer,
        length: u32,
    },
    /// Asks that the log end at `length`, as log store `store` has it.
    Close {
        writer: Writer,
        length: u32,
        store: u8,
    },
    /// The log ends at `length`, for ever; log store `store` has it.
    Closed {
        writer: Writer,
        length: u32,
        store: u8,
    },
    /// Pages of a closed writer with their last stamps, part by part; `rest` with the last part frees
    /// all others that it holds.
    Takeover {
        writer: Writer,
        part: u32,
        rest: bool,
        pages: PageStampList,
        vector: Vector,
    },
    /// The part was taken.
    Taken {
        writer: Writer,
        part: u32,
    },
    /// Every open transaction of the closed writer is undone by `recoverer`.
    Undone {
        writer: Writer,
        recoverer: Writer,
        vector: Vector,
    },
    /// The writer is recovered.
    Recovered {
        writer: Writer,
        vector: Vector,
    },
    /// Asks for the lease of a page.
    Request {
        writer: Writer,
        page: Page,
    },
    /// Asks for a page that no table uses: the writer's `nth`, from 1.
    RequestFresh {
        writer: Writer,
        nth: u32,
    },
    /// Asks for a leased page back.
    Recall {
        writer: Writer,
        page: Page,
        epoch: u32,
    },
    /// The lease of a page, with its stamp and the tags on it.
    Grant {
        writer: Writer,
        page: Page,
        epoch: u32,
        stamp: Stamp,
        tags: TagList,
        vector: Vector,
    },
    /// The writer's `nth` fresh page, or none where none is left.
    FreshIs {
        writer: Writer,
        nth: u32,
        page: Option<Page>,
    },
    /// Gives a leased page back, with its stamp and the tags on it.
    Release {
        writer: Writer,
        page: Page,
        epoch: u32,
        stamp: Stamp,
        tags: TagList,
        vector: Vector,
    },
    /// The lease of that epoch is over.
    Released {
        writer: Writer,
        page: Page,
        epoch: u32,
    },
    /// Asks for the version of a page at the message's stamp.
    ReadPage {
        page: Page,
    },
    /// A version of a page.
    PageIs {
        image: Image,
    },
    /// The version can't be rebuilt: no record of `stamp` is here.
    Missing {
        page: Page,
        stamp: Stamp,
    },
    /// Asks, for `master`, whether the transaction has ended.
    Ask {
        txn: Txn,
        master: u8,
    },
    /// The transaction has ended, or is open.
    Fate {
        txn: Txn,
        ended: bool,
        vector: Vector,
    },
    /// Every writer that began below the message's stamp.
    Roster {
        entries: RosterEntryList,
    },
    /// Asks a writer's master, or with none the lock manager, to say that its clock has come to the
    /// message's stamp.
    Want {
        writer: Option<Writer>,
    },
}

impl TryCopy for Note {
    fn copy(&self) -> Mem<Note> {
        Ok(match self {
            Note::Register { boot } => Note::Register { boot: *boot },
            Note::Registered { boot, writer } => Note::Registered {
                boot: *boot,
                writer: *writer,
            },
            Note::Append { group } => Note::Append {
                group: group.copy()?,
            },
            Note::Ack { writer, seq } => Note::Ack {
                writer: *writer,
                seq: *seq,
            },
            Note::Gap { writer, next } => Note::Gap {
                writer: *writer,
                next: *next,
            },
            Note::Sealed { writer, length } => Note::Sealed {
                writer: *writer,
                length: *length,
            },
            Note::Stable { writer, seq } => Note::Stable {
                writer: *writer,
                seq: *seq,
            },
            Note::Fetch { writer, first } => Note::Fetch {
                writer: *writer,
                first: *first,
            },
            Note::Groups { writer, groups } => Note::Groups {
                writer: *writer,
                groups: groups.copy()?,
            },
            Note::Seal { writer } => Note::Seal { writer: *writer },
            Note::SealedAt { writer, length } => Note::SealedAt {
                writer: *writer,
                length: *length,
            },
            Note::Close {
                writer,
                length,
                store,
            } => Note::Close {
                writer: *writer,
                length: *length,
                store: *store,
            },
            Note::Closed {
                writer,
                length,
                store,
            } => Note::Closed {
                writer: *writer,
                length: *length,
                store: *store,
            },
            Note::Takeover {
                writer,
                part,
                rest,
                pages,
                vector,
            } => Note::Takeover {
                writer: *writer,
                part: *part,
                rest: *rest,
                pages: pages.copy()?,
                vector: vector.copy()?,
            },
            Note::Taken { writer, part } => Note::Taken {
                writer: *writer,
                part: *part,
            },
            Note::Undone {
                writer,
                recoverer,
                vector,
            } => Note::Undone {
                writer: *writer,
                recoverer: *recoverer,
                vector: vector.copy()?,
            },
            Note::Recovered { writer, vector } => Note::Recovered {
                writer: *writer,
                vector: vector.copy()?,
            },
            Note::Request { writer, page } => Note::Request {
                writer: *writer,
                page: *page,
            },
            Note::RequestFresh { writer, nth } => Note::RequestFresh {
                writer: *writer,
                nth: *nth,
            },
            Note::Recall {
                writer,
                page,
                epoch,
            } => Note::Recall {
                writer: *writer,
                page: *page,
                epoch: *epoch,
            },
            Note::Grant {
                writer,
                page,
                epoch,
                stamp,
                tags,
                vector,
            } => Note::Grant {
                writer: *writer,
                page: *page,
                epoch: *epoch,
                stamp: *stamp,
                tags: tags.copy()?,
                vector: vector.copy()?,
            },
            Note::FreshIs { writer, nth, page } => Note::FreshIs {
                writer: *writer,
                nth: *nth,
                page: *page,
            },
            Note::Release {
                writer,
                page,
                epoch,
                stamp,
                tags,
                vector,
            } => Note::Release {
                writer: *writer,
                page: *page,
                epoch: *epoch,
                stamp: *stamp,
                tags: tags.copy()?,
                vector: vector.copy()?,
            },
            Note::Released {
                writer,
                page,
                epoch,
            } => Note::Released {
                writer: *writer,
                page: *page,
                epoch: *epoch,
            },
            Note::ReadPage { page } => Note::ReadPage { page: *page },
            Note::PageIs { image } => Note::PageIs {
                image: image.copy()?,
            },
            Note::Missing { page, stamp } => Note::Missing {
                page: *page,
                stamp: *stamp,
            },
            Note::Ask { txn, master } => Note::Ask {
                txn: *txn,
                master: *master,
            },
            Note::Fate { txn, ended, vector } => Note::Fate {
                txn: *txn,
                ended: *ended,
                vector: vector.copy()?,
            },
            Note::Roster { entries } => Note::Roster {
                entries: entries.copy()?,
            },
            Note::Want { writer } => Note::Want { writer: *writer },
        })
    }
}

/// What one node tells another.
#[derive(Drop)]
pub struct Message {
    pub from: Node,
    pub to: Node,
    /// The sender's scalar; of a ReadPage and a Want the stamp that is wanted.
    pub stamp: Stamp,
    pub note: Note,
}

impl TryCopy for Message {
    fn copy(&self) -> Mem<Message> {
        Ok(Message {
            from: self.from,
            to: self.to,
            stamp: self.stamp,
            note: self.note.copy()?,
        })
    }
}

/// Messages in order.
pub type MessageList = ItemList<Message>;
