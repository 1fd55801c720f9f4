//! The log store.
ghost use Rattle.std.specs.Prelude.{◌≡◌, ◌≤◌, IfOk, OnErr};
ghost use Rattle.store_model.specs.LogState.{start};
ghost use Rattle.store_model.specs.LogStep.{answers, on_append, on_closed, on_fetch, on_note, on_roster, on_seal, on_stable, stepped, ticked};

use crate::logs::Logs;
use crate::serving::fitting;
use std::alloc::Global;
use std::marker::Model;
use tm_base::{
    Group, Mem, Message, MessageList, Node, Note, RosterEntryList, Stamp, TryCopy, Writer,
};

/// One of the three log stores. Contracts see its state in `store_model`: its number, the greatest scalar
/// that it heard, and the log of each writer.
#[derive(Drop)]
pub struct LogStore {
    alloc: Global,
    number: u8,
    scalar: u64,
    logs: Logs,
}

impl Model for LogStore {
    ghost use Rattle.store_model.specs.LogState.{LogStoreState};

    ghost Value = { LogStoreState };

    ghost view = { λ l. record { number = l.number; scalar = l.scalar; logs = l.logs } };
}

impl LogStore {
    /// The log store of that number, 1 to 3, with no groups.
    pub fn open(alloc: Global, number: u8) -> LogStore
        requires least { 1 ≤ number }
        requires most { number ≤ 3 }
        ensures { result ≡ start number }
    {
        LogStore {
            alloc,
            number,
            scalar: 0,
            logs: Logs::new(alloc),
        }
    }

    /// Hears a message, and gives what it sends then. With want of memory nothing changes.
    pub fn step(&mut self, message: &Message) -> Mem<MessageList>
        ensures ok { IfOk result (λ outputs. (self.new, outputs) ≡ stepped self.old message.now) }
        ensures err { OnErr result (self.new ≡ self.old) }
    {
        let before = self.scalar;
        self.scalar = before.max(message.stamp.0);
        let outputs = match self.on_note(message.from, &message.note) {
            Ok(outputs) => outputs,
            Err(error) => {
                self.scalar = before;
                return Err(error);
            }
        };
        Ok(outputs)
    }

    /// Asks the lock manager for the roster. With want of memory nothing changes; else neither.
    pub fn tick(&mut self) -> Mem<MessageList>
        ensures ok { IfOk result (λ outputs. (self.new, outputs) ≡ ticked self.old) }
        ensures err { OnErr result (self.new ≡ self.old) }
    {
        let outputs = self.answers(Node::LockManager, Note::Want { writer: None })?;
        Ok(outputs)
    }

    fn on_note(&mut self, from: Node, note: &Note) -> Mem<MessageList>
        ensures ok { IfOk result (λ outputs. (self.new, outputs) ≡ on_note self.old from note.now) }
        ensures err { OnErr result (self.new ≡ self.old) }
    {
        match note {
            Note::Append { group } => {
                let outputs = self.on_append(from, group)?;
                Ok(outputs)
            }
            Note::Stable { writer, seq } => {
                let outputs = self.on_stable(*writer, *seq)?;
                Ok(outputs)
            }
            Note::Seal { writer } => {
                let outputs = self.on_seal(from, *writer)?;
                Ok(outputs)
            }
            Note::Closed { writer, length, .. } => {
                let outputs = self.on_closed(*writer, *length)?;
                Ok(outputs)
            }
            Note::Roster { entries } => {
                let outputs = self.on_roster(entries)?;
                Ok(outputs)
            }
            Note::Fetch { writer, first } => {
                let outputs = self.on_fetch(from, *writer, *first)?;
                Ok(outputs)
            }
            _ => Ok(MessageList::new(self.alloc)),
        }
    }

    fn on_append(&mut self, from: Node, group: &Group) -> Mem<MessageList>
        ensures ok { IfOk result (λ outputs. (self.new, outputs) ≡ on_append self.old from group.now) }
        ensures err { OnErr result (self.new ≡ self.old) }
    {
        let writer = group.writer;
        let seq = group.seq;
        let length = self.logs.len_of(writer);
        if self.logs.is_sealed(writer) {
            let outputs = self.answers(from, Note::Sealed { writer, length })?;
            return Ok(outputs);
        }
        if let Some(held) = self.logs.held(writer, seq) {
            if *held == *group {
                let outputs = self.answers(from, Note::Ack { writer, seq })?;
                return Ok(outputs);
            }
            return Ok(MessageList::new(self.alloc));
        }
        if seq == 0 {
            return Ok(MessageList::new(self.alloc));
        }
        if length < seq - 1 {
            let next = length + 1;
            let outputs = self.answers(from, Note::Gap { writer, next })?;
            return Ok(outputs);
        }
        let outputs = self.answers(from, Note::Ack { writer, seq })?;
        self.logs.keep(group.copy()?)?;
        Ok(outputs)
    }

    fn on_stable(&mut self, writer: Writer, seq: u32) -> Mem<MessageList>
        ensures ok { IfOk result (λ outputs. (self.new, outputs) ≡ on_stable self.old writer seq) }
        ensures err { OnErr result (self.new ≡ self.old) }
    {
        let mark = self.logs.mark_of(writer).max(seq);
        let is_sealed = self.logs.is_sealed(writer);
        self.logs.set(writer, mark, is_sealed)?;
        Ok(MessageList::new(self.alloc))
    }

    fn on_seal(&mut self, from: Node, writer: Writer) -> Mem<MessageList>
        ensures ok { IfOk result (λ outputs. (self.new, outputs) ≡ on_seal self.old from writer) }
        ensures err { OnErr result (self.new ≡ self.old) }
    {
        let length = self.logs.len_of(writer);
        let mark = self.logs.mark_of(writer);
        let outputs = self.answers(from, Note::SealedAt { writer, length })?;
        self.logs.set(writer, mark, true)?;
        Ok(outputs)
    }

    fn on_closed(&mut self, writer: Writer, length: u32) -> Mem<MessageList>
        ensures ok { IfOk result (λ outputs. (self.new, outputs) ≡ on_closed self.old writer length) }
        ensures err { OnErr result (self.new ≡ self.old) }
    {
        self.logs.set(writer, length, true)?;
        Ok(MessageList::new(self.alloc))
    }

    fn on_roster(&mut self, entries: &RosterEntryList) -> Mem<MessageList>
        ensures ok { IfOk result (λ outputs. (self.new, outputs) ≡ on_roster self.old entries.now) }
        ensures err { OnErr result (self.new ≡ self.old) }
    {
        self.logs.close_all(entries.as_slice())?;
        Ok(MessageList::new(self.alloc))
    }

    fn on_fetch(&mut self, from: Node, writer: Writer, first: u32) -> Mem<MessageList>
        ensures ok { IfOk result (λ outputs. (self.new, outputs) ≡ on_fetch self.old from writer first) }
        ensures err { OnErr result (self.new ≡ self.old) }
    {
        let groups = fitting(self.alloc, self.logs.servable(writer, first))?;
        if groups.is_empty() {
            return Ok(MessageList::new(self.alloc));
        }
        let outputs = self.answers(from, Note::Groups { writer, groups })?;
        Ok(outputs)
    }

    /// One message, with the scalar.
    fn answers(&self, to: Node, note: Note) -> Mem<MessageList>
        ensures { IfOk result (λ outputs. outputs ≡ answers self.now to note) }
    {
        let mut outputs = MessageList::new(self.alloc);
        outputs.push(Message {
            from: Node::LogStore {
                number: self.number,
            },
            to,
            stamp: Stamp(self.scalar),
            note,
        })?;
        Ok(outputs)
    }
}
