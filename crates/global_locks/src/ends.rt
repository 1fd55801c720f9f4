//! The ends of writers: what has become of them, and what recovery reports.
ghost use Rattle.std.specs.Prelude.{◌≡◌, ◌∷◌, [], IfOk, OnErr};
ghost use Rattle.lock_model.specs.State.{at};
ghost use Rattle.lock_model.specs.Step.{closed_told, is_live_entry, message, on_ask_from, on_close, on_takeover, on_undone_by, on_want, recovered_told};

use crate::Locks;
use crate::pages::stamps;
use lock_model::{WriterEntry, WriterStatus};
use tm_base::{
    ItemList, Mem, Message, MessageList, Node, Note, PageStampList, TryCopy, Txn, Vector, Writer,
};

impl Locks {
    /// A master asks whether a transaction has ended.
    pub(crate) fn on_ask_from(&self, from: Node, txn: Txn, asking: u8) -> Mem<(bool, MessageList)>
        ensures { IfOk result (λ out. (self.now, out.0, out.1) ≡ on_ask_from self.now from txn asking) }
    {
        let Node::Master { .. } = from else {
            return Ok(self.ignored());
        };
        let Some(entry) = self.writers.get(txn.writer.0) else {
            return Ok(self.ignored());
        };
        let outputs = match &entry.status {
            WriterStatus::Live => {
                let (number, master) = (entry.master, asking);
                self.one(Node::Master { number }, Note::Ask { txn, master })?
            }
            WriterStatus::Closed { .. } => {
                let (ended, vector) = (false, Vector::new(self.alloc));
                self.one(from, Note::Fate { txn, ended, vector })?
            }
            WriterStatus::Recovered { vector, .. } => {
                let (ended, vector) = (true, vector.copy()?);
                self.one(from, Note::Fate { txn, ended, vector })?
            }
        };
        Ok((false, outputs))
    }

    /// A writer's log is to end. The first length and store are kept, and told.
    pub(crate) fn on_close(
        &mut self,
        from: Node,
        writer: Writer,
        length: u32,
        store: u8,
    ) -> Mem<(bool, MessageList)>
        ensures ok { IfOk result (λ out. (self.new, out.0, out.1) ≡ on_close self.old from writer.0 length store (at self.old.writers writer.0)) }
        ensures err { OnErr result (self.new ≡ self.old) }
    {
        let locks = &*self;
        let Some(entry) = locks.writers.get(writer.0) else {
            return Ok(locks.ignored());
        };
        match &entry.status {
            WriterStatus::Live => {
                let status = WriterStatus::Closed {
                    length,
                    store,
                    taken: false,
                };
                let closed = WriterEntry { status, ..*entry };
                let outputs = locks.closed_told(from, writer, length, store)?;
                self.writers.set(writer.0, closed);
                Ok((true, outputs))
            }
            WriterStatus::Closed { length, store, .. } => {
                let outputs = locks.closed_told(from, writer, *length, *store)?;
                Ok((false, outputs))
            }
            WriterStatus::Recovered { length, store, .. } => {
                let outputs = locks.closed_told(from, writer, *length, *store)?;
                Ok((false, outputs))
            }
        }
    }

    /// The end of a log, told to who asked and to the log stores.
    fn closed_told(&self, from: Node, writer: Writer, length: u32, store: u8) -> Mem<MessageList>
        ensures { IfOk result (λ outputs. outputs ≡ closed_told self.now from writer.0 length store) }
    {
        let mut outputs = ItemList::new(self.alloc);
        outputs.push(self.closed(from, writer, length, store))?;
        outputs.push(self.closed(Node::LogStore { number: 1 }, writer, length, store))?;
        outputs.push(self.closed(Node::LogStore { number: 2 }, writer, length, store))?;
        outputs.push(self.closed(Node::LogStore { number: 3 }, writer, length, store))?;
        Ok(outputs)
    }

    fn closed(&self, to: Node, writer: Writer, length: u32, store: u8) -> Message
        ensures { result ≡ message self.now to (Note.Closed writer length store) }
    {
        let note = Note::Closed {
            writer,
            length,
            store,
        };
        self.message(to, note)
    }

    /// A part of a closed writer's pages is freed; with `rest` all that it still holds.
    pub(crate) fn on_takeover(
        &mut self,
        from: Node,
        part: (Writer, u32),
        rest: bool,
        pages: &PageStampList,
        vector: &Vector,
    ) -> Mem<(bool, MessageList)>
        ensures ok { IfOk result (λ out. (self.new, out.0, out.1) ≡ on_takeover self.old from part.0.0 part.1 rest pages.now vector.now (at self.old.writers part.0.0)) }
        ensures err { OnErr result (self.new ≡ self.old) }
    {
        let (writer, part) = part;
        let locks = &*self;
        let Some(entry) = locks.writers.get(writer.0) else {
            return Ok(locks.ignored());
        };
        match &entry.status {
            WriterStatus::Live => Ok(locks.ignored()),
            WriterStatus::Closed {
                length,
                store,
                taken,
            } => {
                let done = rest && !*taken;
                let status = WriterStatus::Closed {
                    length: *length,
                    store: *store,
                    taken: true,
                };
                let closed = WriterEntry { status, ..*entry };
                let outputs = locks.one(from, Note::Taken { writer, part })?;
                let alloc = locks.alloc;
                let listed = stamps(alloc, pages)?;
                let any = self.pages.free(alloc, writer, rest, &listed, vector)?;
                if done {
                    self.writers.set(writer.0, closed);
                }
                Ok((any || done, outputs))
            }
            WriterStatus::Recovered { .. } => {
                let outputs = locks.one(from, Note::Taken { writer, part })?;
                Ok((false, outputs))
            }
        }
    }

    /// A closed writer's transactions are undone, as a live writer reports: it is recovered, once its
    /// pages are free.
    pub(crate) fn on_undone(
        &mut self,
        from: Node,
        writer: Writer,
        recoverer: Writer,
        vector: &Vector,
    ) -> Mem<(bool, MessageList)>
        ensures ok { IfOk result (λ out. (self.new, out.0, out.1) ≡ on_undone_by self.old from writer.0 vector.now (is_live_entry (at self.old.writers recoverer.0))) }
        ensures err { OnErr result (self.new ≡ self.old) }
    {
        let locks = &*self;
        if !locks.is_live(recoverer) {
            return Ok(locks.ignored());
        }
        let Some(entry) = locks.writers.get(writer.0) else {
            return Ok(locks.ignored());
        };
        match &entry.status {
            WriterStatus::Closed {
                length,
                store,
                taken: true,
            } => {
                let status = WriterStatus::Recovered {
                    length: *length,
                    store: *store,
                    vector: vector.copy()?,
                };
                let recovered = WriterEntry { status, ..*entry };
                let outputs = locks.recovered_told(from, writer, vector)?;
                self.writers.set(writer.0, recovered);
                Ok((true, outputs))
            }
            WriterStatus::Recovered { vector, .. } => {
                let outputs = locks.recovered_told(from, writer, vector)?;
                Ok((false, outputs))
            }
            _ => Ok(locks.ignored()),
        }
    }

    fn is_live(&self, writer: Writer) -> bool
        ensures { result ≡ is_live_entry (at self.now.writers writer.0) }
    {
        match self.writers.get(writer.0) {
            Some(entry) => entry.status.is_live(),
            None => false,
        }
    }

    fn recovered_told(&self, to: Node, writer: Writer, vector: &Vector) -> Mem<MessageList>
        ensures { IfOk result (λ outputs. outputs ≡ recovered_told self.now to writer.0 vector.now ∷ []) }
    {
        let vector = vector.copy()?;
        self.one(to, Note::Recovered { writer, vector })
    }

    /// A node asks for the writers. A word that is wanted of a writer is its master's.
    pub(crate) fn on_want(&self, from: Node, writer: Option<Writer>) -> Mem<(bool, MessageList)>
        ensures { IfOk result (λ out. (self.now, out.0, out.1) ≡ on_want self.now from writer) }
    {
        if writer.is_some() {
            return Ok(self.ignored());
        }
        let entries = self.writers.roster(self.alloc)?;
        let outputs = self.one(from, Note::Roster { entries })?;
        Ok((false, outputs))
    }
}
