//! Sessions, each with its transaction.
ghost use Rattle.std.specs.Prelude.{◌≡◌, OnOk, OnErr};
ghost use Rattle.std.specs.FinMap as fin;
ghost use Rattle.std.specs.Option.{option_copied};
ghost use Rattle.key_model.specs.After.{holds};
ghost use Rattle.key_model.specs.Inside.{has_txn, first_held};

use std::alloc::Global;
use std::collections::{BTreeMap, BTreeSet};
use std::marker::Model;
use std::ops::Bound;
use tm_base::{Mem, Txn, Writer};

/// A session of a writer. Sessions are numbered by whoever opens them.
#[derive(Clone, Copy, Debug, PartialEq, Eq, PartialOrd, Ord)]
pub struct Session {
    pub writer: Writer,
    pub number: u16,
}

/// A transaction with a session that may have it.
#[derive(Clone, Copy, Debug, PartialEq, Eq, PartialOrd, Ord)]
pub struct Held {
    pub txn: Txn,
    pub session: Session,
}

impl Held {
    /// The place before those of the sessions that may have the transaction.
    fn first(txn: Txn) -> Held
        ensures { result ≡ first_held txn }
    {
        let session = Session {
            writer: Writer(0),
            number: 0,
        };
        Held { txn, session }
    }
}

/// The transaction of each session that has one. Contracts see the finite map.
#[derive(Drop)]
pub struct SessionMap {
    txns: BTreeMap<Session, Txn>,
    // By transaction, the sessions that may have it: at least those that have.
    held: BTreeSet<Held>,
}

impl Model for SessionMap {
    ghost use Rattle.std.specs.FinMap as fin;
    ghost use Rattle.tm_data.specs.Maps.{as_map};
    ghost use Rattle.tm_data.specs.Orders.{coded_txn};
    ghost use Rattle.tm_data.specs.declared.transaction.Txn.{Txn};
    ghost use Rattle.key_model.specs.State.{session_cmp, coded_session};

    ghost Value = { fin.FinMap session_cmp Txn };

    ghost coded = { fin.code coded_session coded_txn };

    ghost view = { λ m. as_map m.txns };

    ghost use Rattle.tm_data.specs.Maps.{as_set};
    ghost use Rattle.key_model.specs.Inside.{CoversTxns};

    ghost invariant = { λ m. CoversTxns (as_map m.txns) (as_set m.held) };
}

impl SessionMap {
    /// No session has a transaction.
    pub fn new(alloc: Global) -> SessionMap
        ensures { result ≡ fin.empty }
    {
        SessionMap {
            txns: BTreeMap::new(alloc),
            held: BTreeSet::new(alloc),
        }
    }

    /// The transaction of a session.
    pub fn get(&self, session: &Session) -> Option<&Txn>
        ensures { option_copied result ≡ fin.get self.now session.now }
    {
        self.txns.get(session)
    }

    /// Gives a session a transaction.
    pub fn insert(&mut self, session: Session, txn: Txn) -> Mem<()>
        ensures ok { OnOk result (self.new ≡ fin.insert self.old session txn) }
        ensures err { OnErr result (self.new ≡ self.old) }
    {
        self.held.insert(Held { txn, session })?;
        self.txns.insert(session, txn)?;
        Ok(())
    }

    /// Frees a session.
    pub fn remove(&mut self, session: &Session)
        ensures { self.new ≡ fin.remove self.old session.now }
    {
        if let Some(txn) = self.txns.remove(session) {
            let session = *session;
            let _ = self.held.remove(&Held { txn, session });
        }
    }

    /// Whether a session has this transaction.
    pub fn has(&self, txn: &Txn) -> bool
        ensures { result ≡ holds (fin.entries self.now) txn.now }
    {
        let onwards = (Bound::Included(Held::first(*txn)), Bound::Unbounded);
        for held in self.held.range(onwards) {
            if held.txn != *txn {
                return false;
            }
            if self.is_in(&held.session, txn) {
                return true;
            }
        }
        false
    }

    // Whether the session has this transaction.
    fn is_in(&self, session: &Session, txn: &Txn) -> bool
        ensures { result ≡ has_txn (fin.get self.now session.now) txn.now }
    {
        match self.txns.get(session) {
            Some(own) => *own == *txn,
            None => false,
        }
    }
}
