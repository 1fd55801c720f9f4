//! The lock manager.
ghost use Rattle.std.specs.Prelude.{◌≡◌, ◌≤◌, ◌<◌, ◌∷◌, [], length, false, IfOk, OnErr};
ghost use Rattle.lock_model.specs.State.{State, at, start};
ghost use Rattle.lock_model.specs.Step.{ignored, message, on_note, on_register_from, joins_if_room, registered, step};
ghost use Rattle.global_locks.specs.Inside.{one};

use crate::leased::Pages;
use crate::table::Table;
use lock_model::{Fresh, WriterEntry, WriterStatus};
use std::alloc::Global;
use std::marker::Model;
use tm_base::{ItemList, Mem, Message, MessageList, Node, Note, Stamp, Writer};

/// So many writers are numbered at most.
const MAX_WRITERS: usize = 1024;

/// The lock manager. Contracts see its state as plain data.
///
/// A step that wants memory changes nothing.
#[derive(Drop)]
pub struct Locks {
    pub(crate) alloc: Global,
    /// The scalar clock.
    pub(crate) scalar: u64,
    /// By number.
    pub(crate) writers: Table<WriterEntry>,
    /// By number, each page that was ever leased.
    pub(crate) pages: Pages,
    /// The page that is given out next.
    pub(crate) next_fresh: u32,
}

impl Model for Locks {
    ghost use Rattle.std.specs.Prelude.{length, ◌≤◌};
    ghost use Rattle.lock_model.specs.State.{State};

    ghost Value = { State };

    ghost view = { λ l. record { scalar = l.scalar; writers = l.writers; pages = l.pages; next_fresh = l.next_fresh } };

    ghost invariant = { λ l. length l.writers ≤ 1024 };
}

impl Locks {
    /// A lock manager that has heard nothing.
    pub fn new(alloc: Global) -> Locks
        ensures { result ≡ start }
    {
        Locks {
            alloc,
            scalar: 0,
            writers: Table::new(alloc),
            pages: Pages::new(alloc),
            next_fresh: 1025,
        }
    }

    /// Handles a message that came: whether it changed anything, and what is sent. A kind that isn't
    /// the lock manager's raises its scalar alone.
    pub fn step(&mut self, message: &Message) -> Mem<(bool, MessageList)>
        ensures ok { IfOk result (λ out. (self.new, out.0, out.1) ≡ step self.old message.now) }
        ensures err { OnErr result (self.new ≡ self.old) }
    {
        let before = self.scalar;
        self.scalar = before.max(message.stamp.0);
        let (changed, outputs) = match self.on_note(message.from, &message.note) {
            Ok(done) => done,
            Err(error) => {
                self.scalar = before;
                return Err(error);
            }
        };
        Ok((before < message.stamp.0 || changed, outputs))
    }

    fn on_note(&mut self, from: Node, note: &Note) -> Mem<(bool, MessageList)>
        ensures ok { IfOk result (λ out. (self.new, out.0, out.1) ≡ on_note self.old from note.now) }
        ensures err { OnErr result (self.new ≡ self.old) }
    {
        match note {
            Note::Register { boot } => self.on_register_from(from, *boot),
            Note::Request { writer, page } => self.on_request(*writer, *page),
            Note::RequestFresh { writer, nth } => self.on_request_fresh(*writer, *nth),
            Note::Release {
                writer,
                page,
                epoch,
                stamp,
                tags,
                vector,
            } => self.on_release(from, *writer, (*page, *epoch), *stamp, tags, vector),
            Note::Ask { txn, master } => self.on_ask_from(from, *txn, *master),
            Note::Close {
                writer,
                length,
                store,
            } => self.on_close(from, *writer, *length, *store),
            Note::Takeover {
                writer,
                part,
                rest,
                pages,
                vector,
            } => self.on_takeover(from, (*writer, *part), *rest, pages, vector),
            Note::Undone {
                writer,
                recoverer,
                vector,
            } => self.on_undone(from, *writer, *recoverer, vector),
            Note::Want { writer } => self.on_want(from, *writer),
            _ => Ok(self.ignored()),
        }
    }

    /// Nothing changes, and nothing is sent.
    pub(crate) fn ignored(&self) -> (bool, MessageList)
        ensures { (self.now, result.0, result.1) ≡ ignored self.now }
    {
        (false, ItemList::new(self.alloc))
    }

    /// A message of the lock manager.
    pub(crate) fn message(&self, to: Node, note: Note) -> Message
        ensures { result ≡ message self.now to note }
    {
        Message {
            from: Node::LockManager,
            to,
            stamp: Stamp(self.scalar),
            note,
        }
    }

    /// One message of the lock manager.
    pub(crate) fn one(&self, to: Node, note: Note) -> Mem<MessageList>
        ensures { IfOk result (λ outputs. outputs ≡ one self.now to note) }
    {
        let mut outputs = ItemList::new(self.alloc);
        outputs.push(self.message(to, note))?;
        Ok(outputs)
    }

    fn on_register_from(&mut self, from: Node, boot: u32) -> Mem<(bool, MessageList)>
        ensures ok { IfOk result (λ out. (self.new, out.0, out.1) ≡ on_register_from self.old from boot) }
        ensures err { OnErr result (self.new ≡ self.old) }
    {
        let Node::Master { number: master } = from else {
            return Ok(self.ignored());
        };
        if let Some(life) = self.writers.latest(master) {
            if boot < life.boot {
                return Ok(self.ignored());
            }
            if boot == life.boot {
                let outputs = self.registered(master, boot, life.writer)?;
                return Ok((false, outputs));
            }
        }
        self.joins(master, boot)
    }

    fn registered(&self, master: u8, boot: u32, writer: Writer) -> Mem<MessageList>
        ensures { IfOk result (λ outputs. outputs ≡ one self.now (Node.Master master) (registered boot writer.0)) }
    {
        let note = Note::Registered { boot, writer };
        self.one(Node::Master { number: master }, note)
    }

    /// A new life gets the next number, while there is one.
    fn joins(&mut self, master: u8, boot: u32) -> Mem<(bool, MessageList)>
        ensures ok { IfOk result (λ out. (self.new, out.0, out.1) ≡ joins_if_room self.old (Node.Master master) master boot) }
        ensures err { OnErr result (self.new ≡ self.old) }
    {
        if self.writers.len() >= MAX_WRITERS {
            return Ok(self.ignored());
        }
        let number = self.writers.len() as u32 + 1;
        let outputs = self.registered(master, boot, Writer(number))?;
        let entry = WriterEntry {
            master,
            boot,
            start: Stamp(self.scalar),
            status: WriterStatus::Live,
            fresh: Fresh { nth: 0, page: None },
        };
        self.writers.put(number, entry)?;
        Ok((true, outputs))
    }
}
