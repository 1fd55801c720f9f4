//! The state of the plain world, and its steps.
ghost use Rattle.std.specs.Prelude.{◌≡◌, ℕ, ◌↔◌, ◌≤◌, ◌+◌, ◌<◌, ◌++◌, ◌∷◌, ◌-◌, ◌^◌, List, Bool, Some, None, true, false, slice_get, slice_set, length, IfOk, IfErr, OnOk, OnErr, IsErrOf, IsTrue, nat_le, vec_len, vec_capacity};
ghost use Rattle.net_world.specs.World.{State, first, stepped, allows, is_over, is_spent, begin, read, get, put, put_new, commit, commit_in, end_new, wait_for, deliver, append, acknowledge, acks_group, stores, settles, front, durable, ended, refused_name, refused_row, takes, answered};
ghost use Rattle.std.specs.FinMap as fin;
ghost use Rattle.std.specs.Option.{option_copied};
ghost use Rattle.tm_base.specs.declared.reply.Reply.TheVariants as reply;
ghost use Rattle.tm_base.specs.declared.command.Command.TheVariants as command;
ghost use Rattle.net_world.specs.Inside.{IsCause};

use crate::{PlainGroup, PlainMessage, PlainOutcome, PlainSession, PlainStep, WorldError};
use key_model::{Machine, MachineStep};
use std::alloc::Global;
use std::marker::Model;
use tm_base::{
    ByteList, Command, MAX_KEY, MAX_VALUE, Mem, NoMemory, Reply, RowKey, TryCopy, Txn, Value,
    Writer,
};
use tm_data::RowMap;

/// The greatest number of a message, a group or a transaction: `2^32 - 2`.
const LAST_NUMBER: u32 = u32::MAX - 1;

/// The greatest number of a table.
const LAST_TABLE: u16 = 1024;

/// The writer of the one master.
const WRITER: Writer = Writer(1);

/// One master, one log store, the messages between them, and the plain machine beside them.
///
/// The master is writer 1, has joined, and serves session 1 alone.
#[derive(Drop)]
pub struct PlainWorld {
    alloc: Global,
    sent: Vec<PlainMessage>,
    stored: Vec<PlainGroup>,
    rows: RowMap<Value>,
    acks: Vec<bool>,
    // how many groups at the front of the log are acknowledged
    durable: u32,
    begun: u32,
    session: Option<PlainSession>,
    machine: Machine,
}

impl Model for PlainWorld {
    ghost use Rattle.std.specs.Prelude.{length};
    ghost use Rattle.net_world.specs.Inside.{IsSound};
    ghost use Rattle.net_world.specs.Codes.{coded_state};
    ghost use Rattle.net_world.specs.World.{State};

    ghost Value = { State };

    ghost coded = { coded_state };

    ghost view = { λ w. record { sent = w.sent.items; stored = w.stored.items; rows = w.rows; acks = w.acks.items; begun = w.begun; session = w.session; machine = w.machine } };

    ghost invariant = { λ w. IsSound (length w.sent.items) (length w.acks.items) w.begun w.durable w.acks.items };
}

// Why this table or key is not taken, if it isn't.
fn refused_name(table: u16, key: &ByteList) -> Option<Reply>
    ensures { result ≡ refused_name table key.now }
{
    if table == 0 || table > LAST_TABLE {
        return Some(Reply::NoTable { table });
    }
    let length = key.len();
    if length > MAX_KEY {
        return Some(Reply::TooLongKey { length });
    }
    None
}

// Why this table, key or value is not taken, if it isn't.
fn refused_row(table: u16, key: &ByteList, value: &ByteList) -> Option<Reply>
    ensures { result ≡ refused_row value.now (refused_name table key.now) }
{
    if let Some(reply) = refused_name(table, key) {
        return Some(reply);
    }
    let length = value.len();
    if length > MAX_VALUE {
        return Some(Reply::TooLongValue { length });
    }
    None
}

// The machine takes the command with its reply, which is given back.
fn answer(machine: &mut Machine, command: Command, reply: Reply) -> Mem<Reply>
    ensures ok { OnOk result (machine.new ≡ takes machine.old (answered command reply)) }
    ensures reply { IfOk result (λ given. given ≡ reply) }
    ensures err { OnErr result (machine.new ≡ machine.old) }
{
    let given = reply.copy()?;
    let step = MachineStep::Answered {
        writer: Some(WRITER),
        session: 1,
        command,
        reply,
    };
    machine.step(&step)?;
    Ok(given)
}

// Room for one more message, if one has a number.
fn make_room(sent: &mut Vec<PlainMessage>) -> Result<(), WorldError>
    ensures same { sent.new.items ≡ sent.old.items }
    ensures room { OnOk result (vec_len sent.new < vec_capacity sent.new) }
    ensures number { OnOk result (length sent.new.items < 2 ^ 32 - 2) }
    ensures cause { IfErr result (λ e. IsCause (length sent.old.items + 1) e) }
{
    if sent.len() >= LAST_NUMBER as usize {
        return Err(WorldError::Full);
    }
    sent.reserve(1)?;
    Ok(())
}

// How many acknowledgements at the front came.
fn count_front(acks: &[bool]) -> u32
    requires { length acks.now ≤ 2 ^ 32 - 2 }
    ensures { result ≡ front acks.now }
{
    acks.iter()
        .take_while(|acknowledged| **acknowledged)
        .count() as u32
}

// How many groups at the front are acknowledged once group `seq` is, too. The ones that are counted
// already are not looked at again.
fn durable_with(acks: &[bool], durable: u32, seq: u32) -> u32
    requires counted { durable ≡ front acks.now }
    requires fits { length acks.now ≤ 2 ^ 32 - 2 }
    ensures { result ≡ front (slice_set acks.now (seq - 1) true) }
{
    let at = (seq as usize).saturating_sub(1);
    if at != durable as usize {
        return durable;
    }
    if at >= acks.len() {
        return durable;
    }
    let (_, rest) = acks.split_at(at + 1);
    let more = count_front(rest);
    durable + 1 + more
}

// The transaction whose end became durable, where `before` groups were durable and now `after` are.
fn ended(before: u32, after: u32, session: Option<PlainSession>) -> Option<Txn>
    ensures { result ≡ ended before after session }
{
    let held = session?;
    let seq = held.ending?;
    if before < seq && seq <= after {
        Some(held.txn)
    } else {
        None
    }
}

// The machine settles a transaction, if one is named.
fn settle(machine: &mut Machine, ended: Option<Txn>) -> Mem<()>
    ensures ok { OnOk result (machine.new ≡ settles machine.old ended) }
    ensures err { OnErr result (machine.new ≡ machine.old) }
{
    if let Some(txn) = ended {
        machine.step(&MachineStep::Settle {
            txn,
            committed: true,
        })?;
    }
    Ok(())
}

// The value of bytes that are not too many.
fn value_of(alloc: Global, bytes: &ByteList) -> Mem<Value>
    requires { length bytes.now ≤ 512 }
    ensures { IfOk result (λ value. value ≡ bytes.now) }
{
    match Value::new(alloc, bytes.as_slice()) {
        Ok(value) => Ok(value),
        Err(_) => Err(NoMemory),
    }
}

// Sets the value of a key that has none, and the machine takes the put. Where the machine can't, the
// value is taken away again.
fn add_row(
    rows: &mut RowMap<Value>,
    machine: &mut Machine,
    at: RowKey,
    value: Value,
    command: Command,
) -> Mem<Reply>
    requires { fin.get rows.old at ≡ None }
    ensures rows { OnOk result (rows.new ≡ fin.insert rows.old at value) }
    ensures machine { OnOk result (machine.new ≡ takes machine.old (answered command reply.Done)) }
    ensures reply { IfOk result (λ given. given ≡ reply.Done) }
    ensures kept { OnErr result (rows.new ≡ rows.old) }
    ensures stays { OnErr result (machine.new ≡ machine.old) }
{
    let place = at.copy()?;
    rows.insert(at, value)?;
    match answer(machine, command, Reply::Done) {
        Ok(reply) => Ok(reply),
        Err(error) => {
            let _ = rows.remove(&place);
            Err(error)
        }
    }
}

// Sets the value of a key, and the machine takes the put.
fn set_row(
    rows: &mut RowMap<Value>,
    machine: &mut Machine,
    at: RowKey,
    value: Value,
    command: Command,
) -> Mem<Reply>
    ensures rows { OnOk result (rows.new ≡ fin.insert rows.old at value) }
    ensures machine { OnOk result (machine.new ≡ takes machine.old (answered command reply.Done)) }
    ensures reply { IfOk result (λ given. given ≡ reply.Done) }
    ensures kept { OnErr result (rows.new ≡ rows.old) }
    ensures stays { OnErr result (machine.new ≡ machine.old) }
{
    if rows.get(&at).is_none() {
        return add_row(rows, machine, at, value, command);
    }
    let reply = answer(machine, command, Reply::Done)?;
    // the key is there, so this takes no memory
    rows.insert(at, value)?;
    Ok(reply)
}

impl PlainWorld {
    /// The first state: nothing was sent, stored or begun.
    pub fn new(alloc: Global) -> PlainWorld
        ensures { result ≡ first }
    {
        PlainWorld {
            alloc,
            sent: Vec::new(alloc),
            stored: Vec::new(alloc),
            rows: RowMap::new(alloc),
            acks: Vec::new(alloc),
            durable: 0,
            begun: 0,
            session: None,
            machine: Machine::new(alloc),
        }
    }

    /// Every message ever sent, in order: the first has number 1.
    pub fn messages(&self) -> &[PlainMessage]
        ensures { result.now ≡ self.now.sent }
    {
        self.sent.as_slice()
    }

    /// Whether the step may be done: false exactly where it delivers a message that was not yet sent.
    pub fn allows(&self, step: &PlainStep) -> bool
        ensures { result ≡ allows self.now step.now }
    {
        match step {
            PlainStep::Deliver { number } => 1 <= *number && *number as usize <= self.sent.len(),
            _ => true,
        }
    }

    fn begin(&mut self) -> Mem<Reply>
        ensures ok { IfOk result (λ reply. (self.new, reply) ≡ begin self.old self.old.session) }
        ensures err { OnErr result (self.new ≡ self.old) }
    {
        if let Some(held) = self.session {
            return answer(
                &mut self.machine,
                Command::Begin,
                Reply::AlreadyOpen { txn: held.txn },
            );
        }
        if self.begun >= LAST_NUMBER {
            return answer(&mut self.machine, Command::Begin, Reply::FullTransactions);
        }
        let txn = Txn {
            writer: WRITER,
            number: self.begun + 1,
        };
        let reply = answer(&mut self.machine, Command::Begin, Reply::Begun { txn })?;
        self.begun += 1;
        self.session = Some(PlainSession { txn, ending: None });
        Ok(reply)
    }

    // The reply to a get.
    fn read(&self, table: u16, key: &ByteList) -> Mem<Reply>
        ensures { IfOk result (λ reply. reply ≡ read self.now table key.now self.now.session) }
    {
        let Some(held) = self.session else {
            return Ok(Reply::NoTransaction);
        };
        if held.ending.is_some() {
            return Ok(Reply::Ending { txn: held.txn });
        }
        if let Some(refusal) = refused_name(table, key) {
            return Ok(refusal);
        }
        let at = RowKey {
            table,
            key: key.copy()?,
        };
        let value = match self.rows.get(&at) {
            Some(value) => Some(value.copy()?),
            None => None,
        };
        Ok(Reply::Value { value })
    }

    fn get(&mut self, table: u16, key: &ByteList) -> Mem<Reply>
        ensures ok { IfOk result (λ reply. (self.new, reply) ≡ get self.old table key.now self.old.session) }
        ensures err { OnErr result (self.new ≡ self.old) }
    {
        let reply = self.read(table, key)?;
        let command = Command::Get {
            table,
            key: key.copy()?,
        };
        answer(&mut self.machine, command, reply)
    }

    // Sets a value in an open transaction, where a group is left.
    fn write(
        &mut self,
        held: PlainSession,
        table: u16,
        key: &ByteList,
        value: &ByteList,
    ) -> Result<Reply, WorldError>
        requires group { is_spent (length self.old.acks) ≡ false }
        requires fits { length value.now ≤ 512 }
        ensures ok { IfOk result (λ reply. (self.new, reply) ≡ put_new self.old table key.now value.now held false) }
        ensures err { OnErr result (self.new ≡ self.old) }
        ensures cause { IfErr result (λ e. IsCause (length (put_new self.old table key.now value.now held false).0.sent) e) }
    {
        make_room(&mut self.sent)?;
        self.acks.reserve(1)?;
        let group = PlainGroup::Row {
            seq: self.acks.len() as u32 + 1,
            table,
            key: key.copy()?,
            value: value.copy()?,
            txn: held.txn,
        };
        let command = Command::Put {
            table,
            key: key.copy()?,
            value: value.copy()?,
        };
        let at = RowKey {
            table,
            key: key.copy()?,
        };
        let reply = set_row(
            &mut self.rows,
            &mut self.machine,
            at,
            value_of(self.alloc, value)?,
            command,
        )?;
        self.acks.push_reserved(false);
        self.sent.push_reserved(PlainMessage::Append(group));
        Ok(reply)
    }

    fn put(&mut self, table: u16, key: &ByteList, value: &ByteList) -> Result<Reply, WorldError>
        ensures ok { IfOk result (λ reply. (self.new, reply) ≡ put self.old table key.now value.now self.old.session) }
        ensures err { OnErr result (self.new ≡ self.old) }
        ensures cause { IfErr result (λ e. IsCause (length (put self.old table key.now value.now self.old.session).0.sent) e) }
    {
        let refusal = match self.session {
            None => Reply::NoTransaction,
            Some(
                PlainSession {
                    txn,
                    ending: Some(_),
                },
            ) => Reply::Ending { txn },
            Some(held) => match refused_row(table, key, value) {
                Some(reply) => reply,
                None if self.acks.len() >= LAST_NUMBER as usize => Reply::FullGroups,
                None => return self.write(held, table, key, value),
            },
        };
        let command = Command::Put {
            table,
            key: key.copy()?,
            value: value.copy()?,
        };
        Ok(answer(&mut self.machine, command, refusal)?)
    }

    // Logs the end of the session's transaction, where a group is left.
    fn end(&mut self, held: PlainSession) -> Result<Reply, WorldError>
        requires group { is_spent (length self.old.acks) ≡ false }
        ensures ok { IfOk result (λ reply. (self.new, reply) ≡ end_new self.old held false) }
        ensures err { OnErr result (self.new ≡ self.old) }
        ensures cause { IfErr result (λ e. IsCause (length (end_new self.old held false).0.sent) e) }
    {
        make_room(&mut self.sent)?;
        self.acks.reserve(1)?;
        let seq = self.acks.len() as u32 + 1;
        let reply = answer(
            &mut self.machine,
            Command::Commit,
            Reply::AgainStore { store: 1, seq },
        )?;
        self.acks.push_reserved(false);
        self.sent.push_reserved(PlainMessage::Append(PlainGroup::End { seq, txn: held.txn }));
        self.session = Some(PlainSession {
            txn: held.txn,
            ending: Some(seq),
        });
        Ok(reply)
    }

    // Answers the commit whose end is group `seq`.
    fn wait(&mut self, held: PlainSession, seq: u32) -> Mem<Reply>
        ensures ok { IfOk result (λ reply. (self.new, reply) ≡ wait_for self.old held seq (nat_le seq (durable self.old))) }
        ensures err { OnErr result (self.new ≡ self.old) }
    {
        if seq <= self.durable {
            let reply = answer(
                &mut self.machine,
                Command::Commit,
                Reply::Committed { txn: held.txn },
            )?;
            self.session = None;
            return Ok(reply);
        }
        let acknowledged = self.acks.get(seq as usize - 1).copied().unwrap_or(false);
        let wanting = if acknowledged { self.durable + 1 } else { seq };
        answer(
            &mut self.machine,
            Command::Commit,
            Reply::AgainStore {
                store: 1,
                seq: wanting,
            },
        )
    }

    fn commit(&mut self) -> Result<Reply, WorldError>
        ensures ok { IfOk result (λ reply. (self.new, reply) ≡ commit self.old self.old.session) }
        ensures err { OnErr result (self.new ≡ self.old) }
        ensures cause { IfErr result (λ e. IsCause (length (commit self.old self.old.session).0.sent) e) }
    {
        let refusal = match self.session {
            None => Reply::NoTransaction,
            Some(held) => match held.ending {
                Some(seq) => return Ok(self.wait(held, seq)?),
                None if self.acks.len() >= LAST_NUMBER as usize => Reply::FullGroups,
                None => return self.end(held),
            },
        };
        Ok(answer(&mut self.machine, Command::Commit, refusal)?)
    }

    // The store takes the next group, and acknowledges it.
    fn store(&mut self, group: PlainGroup) -> Result<(), WorldError>
        ensures ok { OnOk result (self.new ≡ stores self.old group) }
        ensures err { OnErr result (self.new ≡ self.old) }
        ensures cause { IfErr result (λ e. IsCause (length (stores self.old group).sent) e) }
    {
        make_room(&mut self.sent)?;
        self.stored.reserve(1)?;
        let seq = group.seq();
        self.stored.push_reserved(group);
        self.sent.push_reserved(PlainMessage::Ack { seq });
        Ok(())
    }

    // The store acknowledges a group that it has.
    fn acknowledge_again(&mut self, seq: u32) -> Result<(), WorldError>
        ensures ok { OnOk result (self.new ≡ acks_group self.old seq) }
        ensures err { OnErr result (self.new ≡ self.old) }
        ensures cause { IfErr result (λ e. IsCause (length (acks_group self.old seq).sent) e) }
    {
        make_room(&mut self.sent)?;
        self.sent.push_reserved(PlainMessage::Ack { seq });
        Ok(())
    }

    // The master takes the acknowledgement of group `seq`.
    fn acknowledge(&mut self, seq: u32) -> Mem<()>
        ensures ok { OnOk result (self.new ≡ acknowledge self.old seq) }
        ensures err { OnErr result (self.new ≡ self.old) }
    {
        let durable = durable_with(&self.acks, self.durable, seq);
        settle(
            &mut self.machine,
            ended(self.durable, durable, self.session),
        )?;
        let at = (seq as usize).saturating_sub(1);
        if at < self.acks.len() {
            self.acks[at] = true;
        }
        self.durable = durable;
        Ok(())
    }

    // The message of this number, if it was sent.
    fn message(&self, number: u32) -> Option<&PlainMessage>
        requires { 1 ≤ number }
        ensures { option_copied result ≡ slice_get self.now.sent (number - 1) }
    {
        self.sent.get(number as usize - 1)
    }

    fn deliver(&mut self, number: u32) -> Result<(), WorldError>
        requires { allows self.old (PlainStep.Deliver number) ≡ true }
        ensures ok { OnOk result (self.new ≡ deliver self.old (slice_get self.old.sent (number - 1))) }
        ensures err { OnErr result (self.new ≡ self.old) }
        ensures cause { IfErr result (λ e. IsCause (length (deliver self.old (slice_get self.old.sent (number - 1))).sent) e) }
    {
        match self.message(number) {
            None => Ok(()),
            Some(PlainMessage::Append(group)) => {
                let seq = group.seq();
                let held = self.stored.len();
                if seq as usize == held + 1 {
                    let group = group.copy()?;
                    return self.store(group);
                }
                if seq as usize <= held {
                    return self.acknowledge_again(seq);
                }
                Ok(())
            }
            Some(PlainMessage::Ack { seq }) => {
                let seq = *seq;
                Ok(self.acknowledge(seq)?)
            }
        }
    }

    fn done(&mut self, step: &PlainStep) -> Result<PlainOutcome, WorldError>
        requires { allows self.old step.now ≡ true }
        ensures ok { IfOk result (λ outcome. (self.new, outcome) ≡ stepped self.old step.now) }
        ensures err { OnErr result (self.new ≡ self.old) }
        ensures cause { IfErr result (λ e. IsCause (length (stepped self.old step.now).0.sent) e) }
    {
        Ok(match step {
            PlainStep::Begin => PlainOutcome::Answer(self.begin()?),
            PlainStep::Get { table, key } => PlainOutcome::Answer(self.get(*table, key)?),
            PlainStep::Put { table, key, value } => PlainOutcome::Answer(self.put(
                *table, key, value,
            )?),
            PlainStep::Commit => PlainOutcome::Answer(self.commit()?),
            PlainStep::Deliver { number } => {
                self.deliver(*number)?;
                PlainOutcome::Fine
            }
        })
    }

    /// Does a step, and gives what comes of it and how many messages it sent, which are the last ones of
    /// [`PlainWorld::messages`]. Refuses `Full` exactly where the step would send message number
    /// `2^32 - 1`. After an `Err` nothing has changed.
    pub fn step(&mut self, step: &PlainStep) -> Result<(PlainOutcome, u32), WorldError>
        requires { allows self.old step.now ≡ true }
        ensures ok { IfOk result (λ done. (self.new, done.0) ≡ stepped self.old step.now) }
        ensures sent { IfOk result (λ done. length self.new.sent ≡ length self.old.sent + done.1) }
        ensures fits { OnOk result (is_over self.new ≡ false) }
        ensures full { IsErrOf result WorldError.Full → is_over (stepped self.old step.now).0 ≡ true }
        ensures err { OnErr result (self.new ≡ self.old) }
    {
        let before = self.sent.len();
        let outcome = self.done(step)?;
        let count = (self.sent.len() - before) as u32;
        Ok((outcome, count))
    }
}
