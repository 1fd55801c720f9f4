//! The running machine.
ghost use Rattle.std.specs.Prelude.{◌≡◌, ◌&&◌, IfOk, OnOk, OnErr, is_none};
ghost use Rattle.std.specs.FinMap as fin;
ghost use Rattle.key_model.specs.State.{State, empty};
ghost use Rattle.key_model.specs.Steps.{txn_in, open_txn, says_end, seen};
ghost use Rattle.key_model.specs.After.{stepped, told, is_doomed, may_begin, after_begun, may_see, after_value, may_write, after_done, same_value, is_ended, after_ended, after_recovered, after_answer, after_settled, after_closing, after_recovery};
ghost use Rattle.key_model.specs.Inside.{entries_of, no_txn};
ghost use Rattle.key_model.specs.Took.{Took};

use crate::closed::{DyingMap, DyingRow};
use crate::closing::{ending_of, rows_of};
use crate::sessions::{Session, SessionMap};
use crate::settled::{Outcomes, enter_end, enter_ends, outcome_of, reserve_ends};
use crate::values::{Entry, EntryList, Places, enter, reserve};
use crate::{EndList, MachineStep, PutList};
use key_index::{Open, OpenMap, WriterSet};
use std::alloc::Global;
use std::marker::Model;
use tm_base::{
    ByteList, Command, ItemList, Mem, Reply, RowKey, RowMap, TryCopy, Txn, TxnMap, Value, Writer,
};

/// The plain machine, running: contracts see its whole state.
///
/// A step costs a look-up in the maps and at the transactions that hold its row, whatever else is
/// open, in a session or locked. A settling costs a look-up for each key that was read or written, a
/// close one for each that it takes out, and a recovery one for each row that it frees.
#[derive(Drop)]
pub struct Machine {
    alloc: Global,
    places: Places,
    opened: OpenMap,
    dying: DyingMap,
    settled: Outcomes,
    sessions: SessionMap,
    closed: WriterSet,
    recovered: WriterSet,
}

impl Model for Machine {
    ghost use Rattle.key_model.specs.Inside.{valued, there};
    ghost use Rattle.key_model.specs.State.{State, coded_state};

    ghost Value = { State };

    ghost coded = { coded_state };

    ghost view = { λ m. record { map = valued m.places; opened = m.opened; dying = there m.dying; settled = valued m.settled; sessions = m.sessions; closed = m.closed; recovered = m.recovered } };
}

// Whether these are one value, or none both.
fn is_value(value: &Option<Value>, other: &Option<ByteList>) -> bool
    ensures { result ≡ same_value value.now other.now }
{
    match (value, other) {
        (None, None) => true,
        (Some(value), Some(other)) => value.as_slice() == other.as_slice(),
        _ => false,
    }
}

impl Machine {
    /// The first state: nothing is open, settled or in the map.
    pub fn new(alloc: Global) -> Machine
        ensures { result ≡ empty }
    {
        Machine {
            alloc,
            places: RowMap::new(alloc),
            opened: OpenMap::new(alloc),
            dying: DyingMap::new(alloc),
            settled: TxnMap::new(alloc),
            sessions: SessionMap::new(alloc),
            closed: WriterSet::new(alloc),
            recovered: WriterSet::new(alloc),
        }
    }

    /// The committed values, ascending by table and key, in a list of their own.
    pub fn map(&self) -> Mem<EntryList>
        ensures { IfOk result (λ list. list ≡ entries_of (fin.entries self.now.map)) }
    {
        let mut list = ItemList::new(self.alloc);
        for (key, value) in self.places.iter() {
            if let Some(value) = value {
                list.push(Entry {
                    table: key.table,
                    key: key.key.copy()?,
                    value: value.copy()?,
                })?;
            }
        }
        Ok(list)
    }

    /// Takes a step, if it is allowed: true exactly where it is, and then the state is the one that
    /// the step leads to. Where it isn't, or memory is wanting, nothing changes.
    pub fn step(&mut self, step: &MachineStep) -> Mem<bool>
        ensures ok { IfOk result (λ allowed. (self.new, allowed) ≡ stepped self.old step.now) }
        ensures took { IfOk result (λ allowed. Took self.old step.now allowed self.new) }
        ensures err { OnErr result (self.new ≡ self.old) }
    {
        self.take(step)
    }

    fn take(&mut self, step: &MachineStep) -> Mem<bool>
        ensures ok { IfOk result (λ allowed. (self.new, allowed) ≡ stepped self.old step.now) }
        ensures err { OnErr result (self.new ≡ self.old) }
    {
        match step {
            MachineStep::Answered {
                writer,
                session,
                command,
                reply,
            } => {
                let mine = self.txn_in(*writer, *session);
                if self.is_doomed(mine) {
                    return Ok(!matches!(reply, Reply::Committed { .. } | Reply::Aborted { .. }));
                }
                self.answer(*writer, *session, command, reply)
            }
            MachineStep::Settle { txn, committed } => self.settle(txn, *committed),
            MachineStep::Close { writer, ends, puts } => self.close(*writer, ends, puts),
            MachineStep::Recover { writer } => self.recover(*writer),
        }
    }

    // The transaction of a session.
    fn txn_in(&self, writer: Option<Writer>, session: u16) -> Option<Txn>
        ensures { result ≡ txn_in self.now writer session }
    {
        let Some(writer) = writer else {
            return None;
        };
        self.sessions
            .get(&Session {
                writer,
                number: session,
            })
            .copied()
    }

    // Whether the transaction's writer is closed, and it isn't settled.
    fn is_doomed(&self, mine: Option<Txn>) -> bool
        ensures { result ≡ is_doomed self.now mine }
    {
        let Some(txn) = mine else {
            return false;
        };
        self.closed.contains(txn.writer) && outcome_of(&self.settled, &txn).is_none()
    }

    // A reply in a session whose transaction isn't doomed.
    fn answer(
        &mut self,
        writer: Option<Writer>,
        session: u16,
        command: &Command,
        reply: &Reply,
    ) -> Mem<bool>
        ensures ok { IfOk result (λ allowed. (self.new, allowed) ≡ told self.old (after_answer self.old writer session command.now reply.now)) }
        ensures err { OnErr result (self.new ≡ self.old) }
    {
        let mine = self.txn_in(writer, session);
        match (command, reply) {
            (Command::Begin, Reply::Begun { txn }) => self.begin(writer, session, *txn),
            (Command::Get { table, key }, Reply::Value { value }) => {
                let key = RowKey {
                    table: *table,
                    key: key.copy()?,
                };
                self.value(mine, key, value)
            }
            (Command::Put { table, key, value }, Reply::Done) => {
                let key = RowKey {
                    table: *table,
                    key: key.copy()?,
                };
                let value = value.copy()?;
                self.done(mine, key, Some(value))
            }
            (Command::Del { table, key }, Reply::Done) => {
                let key = RowKey {
                    table: *table,
                    key: key.copy()?,
                };
                self.done(mine, key, None)
            }
            (Command::Commit, Reply::Committed { txn }) => Ok(self.end(
                writer, session, *txn, true,
            )),
            (Command::Abort, Reply::Aborted { txn }) => Ok(self.end(writer, session, *txn, false)),
            (Command::Recover { writer: asked }, Reply::Recovered { writer: told }) => {
                Ok(*told == *asked && self.recovered.contains(*asked))
            }
            (
                _,
                Reply::Begun { .. }
                | Reply::Value { .. }
                | Reply::Done
                | Reply::Committed { .. }
                | Reply::Aborted { .. }
                | Reply::Recovered { .. },
            ) => Ok(false),
            _ => Ok(true),
        }
    }

    // Whether the session is free, and the transaction is its writer's and was never begun.
    fn may_begin(&self, session: Session, txn: Txn) -> bool
        ensures { result ≡ may_begin self.now session txn }
    {
        self.sessions.get(&session).is_none()
            && !self.sessions.has(&txn)
            && outcome_of(&self.settled, &txn).is_none()
            && txn.writer == session.writer
    }

    fn begin(&mut self, writer: Option<Writer>, session: u16, txn: Txn) -> Mem<bool>
        ensures ok { IfOk result (λ allowed. (self.new, allowed) ≡ told self.old (after_begun self.old writer session txn)) }
        ensures err { OnErr result (self.new ≡ self.old) }
    {
        let Some(writer) = writer else {
            return Ok(false);
        };
        let session = Session {
            writer,
            number: session,
        };
        if !self.may_begin(session, txn) {
            return Ok(false);
        }
        self.sessions.insert(session, txn)?;
        if self.closed.contains(txn.writer) {
            return Ok(true);
        }
        if let Err(wanting) = self.opened.begin(txn) {
            self.sessions.remove(&session);
            return Err(wanting);
        }
        Ok(true)
    }

    // Whether the transaction sees this value at the key.
    fn sees(&self, touched: &Open, key: &RowKey, value: &Option<Value>) -> bool
        ensures { result ≡ same_value value.now (seen self.now touched.now key.now) }
    {
        if let Some(written) = touched.writes.get(key) {
            return is_value(value, written);
        }
        match self.places.get(key) {
            Some(mapped) => is_value(value, mapped),
            None => value.is_none(),
        }
    }

    // Whether an open transaction may be told this value of the key.
    fn may_see(&self, txn: &Txn, touched: &Open, at: &DyingRow, value: &Option<Value>) -> bool
        requires { at.now.txn ≡ no_txn }
        ensures { result ≡ may_see self.now txn.now touched.now at.now.row value.now }
    {
        !self.opened.other_wrote(txn, &at.row)
            && !self.dying.locks(at)
            && self.sees(touched, &at.row, value)
    }

    fn value(&mut self, mine: Option<Txn>, key: RowKey, value: &Option<Value>) -> Mem<bool>
        ensures ok { IfOk result (λ allowed. (self.new, allowed) ≡ told self.old (after_value self.old (open_txn self.old mine) key value.now)) }
        ensures err { OnErr result (self.new ≡ self.old) }
    {
        let Some(txn) = mine else {
            return Ok(false);
        };
        let Some(touched) = self.opened.get(&txn) else {
            return Ok(false);
        };
        let at = DyingRow::first(key);
        if !self.may_see(&txn, touched, &at, value) {
            return Ok(false);
        }
        if touched.writes.get(&at.row).is_none() {
            self.opened.read(&txn, at.row)?;
        }
        Ok(true)
    }

    // Whether a transaction may write the key, if it is open.
    fn may_write(&self, txn: &Txn, at: &DyingRow) -> bool
        requires { at.now.txn ≡ no_txn }
        ensures { result ≡ may_write self.now txn.now at.now.row }
    {
        !self.opened.other_wrote(txn, &at.row)
            && !self.opened.other_read(txn, &at.row)
            && !self.dying.locks(at)
    }

    fn done(&mut self, mine: Option<Txn>, key: RowKey, value: Option<ByteList>) -> Mem<bool>
        ensures ok { IfOk result (λ allowed. (self.new, allowed) ≡ told self.old (after_done self.old (open_txn self.old mine) key value)) }
        ensures err { OnErr result (self.new ≡ self.old) }
    {
        let Some(txn) = mine else {
            return Ok(false);
        };
        if self.opened.get(&txn).is_none() {
            return Ok(false);
        }
        let at = DyingRow::first(key);
        if !self.may_write(&txn, &at) {
            return Ok(false);
        }
        self.opened.write(&txn, at.row, value)?;
        Ok(true)
    }

    // Whether the session has the transaction, and it is settled with this outcome.
    fn is_ended(&self, session: Session, txn: Txn, committed: bool) -> bool
        ensures { result ≡ is_ended self.now session txn committed }
    {
        let Some(own) = self.sessions.get(&session) else {
            return false;
        };
        let Some(outcome) = outcome_of(&self.settled, &txn) else {
            return false;
        };
        *own == txn && outcome == committed
    }

    fn end(&mut self, writer: Option<Writer>, session: u16, txn: Txn, committed: bool) -> bool
        ensures { (self.new, result) ≡ told self.old (after_ended self.old writer session txn committed) }
    {
        let Some(writer) = writer else {
            return false;
        };
        let session = Session {
            writer,
            number: session,
        };
        if !self.is_ended(session, txn, committed) {
            return false;
        }
        self.sessions.remove(&session);
        true
    }

    fn settle(&mut self, txn: &Txn, committed: bool) -> Mem<bool>
        ensures ok { IfOk result (λ allowed. (self.new, allowed) ≡ told self.old (after_settled self.old txn.now (fin.get self.old.opened txn.now) committed)) }
        ensures err { OnErr result (self.new ≡ self.old) }
    {
        let Some(touched) = self.opened.get(txn) else {
            return Ok(false);
        };
        if committed {
            reserve(&mut self.places, &touched.writes)?;
        }
        enter_end(&mut self.settled, *txn, committed)?;
        if let Some(touched) = self.opened.end(txn)
            && committed
        {
            enter(&mut self.places, touched.writes);
        }
        Ok(true)
    }

    // All memory is taken before the first change that can be seen.
    fn close(&mut self, writer: Writer, ends: &EndList, puts: &PutList) -> Mem<bool>
        ensures ok { IfOk result (λ allowed. (self.new, allowed) ≡ told self.old (after_closing self.old writer ends.now puts.now)) }
        ensures err { OnErr result (self.new ≡ self.old) }
    {
        if self.closed.contains(writer) {
            return Ok(false);
        }
        let ending = ending_of(self.alloc, &self.opened, ends)?;
        let rows = rows_of(self.alloc, &self.opened, &ending.outcomes, writer, puts)?;
        reserve(&mut self.places, &ending.writes)?;
        reserve_ends(&mut self.settled, &ending.outcomes)?;
        self.dying.reserve(&rows)?;
        self.closed.insert(writer)?;
        self.opened.leave(writer, &ending.outcomes);
        enter_ends(&mut self.settled, &ending.outcomes);
        enter(&mut self.places, ending.writes);
        self.dying.enter(rows);
        Ok(true)
    }

    fn recover(&mut self, writer: Writer) -> Mem<bool>
        ensures ok { IfOk result (λ allowed. (self.new, allowed) ≡ told self.old (after_recovery self.old writer)) }
        ensures err { OnErr result (self.new ≡ self.old) }
    {
        if !self.closed.contains(writer) {
            return Ok(false);
        }
        self.recovered.insert(writer)?;
        self.dying.free(writer);
        Ok(true)
    }
}
