//! What is read of a writer's state.
ghost use Rattle.std.specs.Prelude.{◌≡◌, ◌∷◌, [], IfOk};
ghost use Rattle.master_model.specs.State.{message, settled, store_of, to_locks, vector_of};
ghost use Rattle.master_model.specs.Fates.{has_ended, is_ended, is_own};
ghost use Rattle.master_model.specs.Paths.{read_page};
ghost use Rattle.master_model.specs.Reads.{txn_numbered};

use crate::WorkState;
use tm_base::{Mem, Message, Node, Note, Page, Stamp, Txn, Vector, Writer};

impl WorkState {
    /// The writer.
    pub fn writer(&self) -> Writer
        ensures { result ≡ self.now.log.writer }
    {
        self.timed.writer()
    }

    /// A message of the master, with its scalar.
    pub fn message(&self, to: Node, note: Note) -> Message
        ensures { result ≡ message self.now to note }
    {
        Message {
            from: Node::Master {
                number: self.number,
            },
            to,
            stamp: self.timed.scalar(),
            note,
        }
    }

    /// A message to the lock manager.
    pub fn to_locks(&self, note: Note) -> Message
        ensures { result ≡ to_locks self.now note }
    {
        self.message(Node::LockManager, note)
    }

    /// The request for the image of a page as of the stamp of its last change.
    pub fn read_page(&self, page: Page) -> Message
        ensures { result ≡ read_page self.now page }
    {
        Message {
            from: Node::Master {
                number: self.number,
            },
            to: self.stores.store_of(page),
            stamp: self.desk.stamp(page),
            note: Note::ReadPage { page },
        }
    }

    /// The vector for sending.
    pub fn vector(&self) -> Mem<Vector>
        ensures { IfOk result (λ vector. vector ≡ vector_of self.now) }
    {
        let vector = self.timed.vector()?;
        Ok(vector)
    }

    /// The stamp up to which all is durable that is known here.
    pub fn settled(&self) -> Stamp
        ensures { result.0 ≡ settled self.now }
    {
        self.timed.settled()
    }

    /// The own transaction of this number.
    pub fn txn_numbered(&self, number: u32) -> Txn
        ensures { result ≡ txn_numbered self.now number }
    {
        Txn {
            writer: self.timed.writer(),
            number,
        }
    }

    /// Whether a transaction is this writer's.
    pub fn is_own(&self, txn: Txn) -> bool
        ensures { result ≡ is_own self.now txn }
    {
        txn.writer.0 == self.timed.writer().0
    }

    /// Whether the own transaction of this number was begun and isn't open.
    pub fn has_ended(&self, number: u32) -> bool
        ensures { result ≡ has_ended self.now number }
    {
        let durable = self.timed.durable_seq();
        let open = self.sessions.is_open(durable, number);
        1 <= number && number <= self.sessions.begun() && !open
    }

    /// Whether a transaction is known to have ended. Of another writer's only its fate tells.
    pub fn is_ended(&self, txn: Txn) -> bool
        ensures { result ≡ is_ended self.now txn }
    {
        if self.is_own(txn) {
            return self.has_ended(txn.number);
        }
        self.ended.contains(txn)
    }
}
