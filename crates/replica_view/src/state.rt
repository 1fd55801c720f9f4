//! What a replica does while memory lasts.
ghost use Rattle.std.specs.Prelude.{◌≡◌, ◌+◌, ◌++◌, ◌∷◌, [], None, IfOk, OnOk, OnErr, is_some, IsTrue};
ghost use Rattle.std.specs.Option.{option_copied, option_map};
ghost use Rattle.std.specs.FinMap.{empty, entries, get};
ghost use Rattle.replica_model.specs.Order.{line_of, next, waits};
ghost use Rattle.replica_model.specs.State.{point, start};
ghost use Rattle.replica_apply.specs.Inside.{pair_of};
ghost use Rattle.replica_view.specs.Answers.{Published};
ghost use Rattle.replica_model.specs.Step.{applies_all, applies_some, asks_next, fetches, is_idle, is_live, is_received, message, on_groups, on_new, on_note, on_roster, step, ticked, turn_after, waiting, with_entries};
ghost use Rattle.tm_base.specs.declared.message.Node.TheVariants.{LogStore};
ghost use Rattle.tm_base.specs.declared.message.Note.TheVariants.{Fetch};

use crate::PublishError;
use crate::intake::{keep_changes, mark_ends, offer_groups};
use number_map::NumberMap;
use replica_apply::Order;
use replica_model::EndMark;
use std::alloc::Global;
use std::marker::Model;
use tm_base::{
    Group, ItemList, Mem, Message, MessageList, NoMemory, Node, Note, RosterEntry, Stamp, TryCopy,
    TxnMap, Vector, Writer, WriterState,
};
use version_chain::Chains;

/// The state of a replica. Contracts see that of `replica_model`.
#[derive(Drop)]
pub(crate) struct State {
    alloc: Global,
    number: u8,
    scalar: u64,
    turn: u8,
    roster_stamp: u64,
    roster: NumberMap<RosterEntry>,
    order: Order,
    pages: Chains,
    ends: TxnMap<EndMark>,
    points: ItemList<Vector>,
}

impl Model for State {
    ghost use Rattle.replica_model.specs.State.{State};
    ghost use Rattle.replica_view.specs.Replica.{coded_state};

    ghost Value = { State };

    ghost coded = { coded_state };

    ghost view = { λ s. record { number = s.number; scalar = s.scalar; turn = s.turn; roster_stamp = s.roster_stamp; roster = s.roster; order = s.order; pages = s.pages.records; ends = s.ends; points = s.points } };
}

impl State {
    /// The replica of that number, which has heard nothing.
    pub(crate) fn new(alloc: Global, number: u8) -> State
        ensures { result ≡ start number }
    {
        State {
            alloc,
            number,
            scalar: 0,
            turn: 1,
            roster_stamp: 0,
            roster: NumberMap::new(alloc),
            order: Order::new(alloc),
            pages: Chains::new(alloc),
            ends: TxnMap::new(alloc),
            points: ItemList::new(alloc),
        }
    }

    /// Hears a message. After want of memory a part of what the message brings may be taken.
    pub(crate) fn step(&mut self, message: &Message) -> Mem<MessageList>
        ensures { IfOk result (λ outputs. (self.new, outputs) ≡ step self.old message.now) }
    {
        self.scalar = self.scalar.max(message.stamp.0);
        let outputs = self.on_note(message.from, message.stamp, &message.note)?;
        Ok(outputs)
    }

    fn on_note(&mut self, from: Node, stamp: Stamp, note: &Note) -> Mem<MessageList>
        ensures { IfOk result (λ outputs. (self.new, outputs) ≡ on_note self.old from stamp.0 note.now) }
    {
        match note {
            Note::Roster { entries } => {
                let outputs = self.on_roster(stamp, entries.as_slice())?;
                Ok(outputs)
            }
            Note::Groups { writer, groups } => {
                let outputs = self.on_groups(from, *writer, groups.as_slice())?;
                Ok(outputs)
            }
            _ => Ok(MessageList::new(self.alloc)),
        }
    }

    fn on_roster(&mut self, stamp: Stamp, told: &[RosterEntry]) -> Mem<MessageList>
        ensures { IfOk result (λ outputs. (self.new, outputs) ≡ on_roster self.old stamp.0 told.now) }
    {
        if stamp.0 < self.roster_stamp {
            return Ok(MessageList::new(self.alloc));
        }
        self.roster = roster_of(self.alloc, told)?;
        self.roster_stamp = stamp.0;
        Ok(MessageList::new(self.alloc))
    }

    fn on_groups(&mut self, from: Node, writer: Writer, groups: &[Group]) -> Mem<MessageList>
        ensures { IfOk result (λ outputs. (self.new, outputs) ≡ on_groups self.old from writer groups.now) }
    {
        if self.roster.get(writer.0).is_none() {
            return Ok(MessageList::new(self.alloc));
        }
        let before = self.order.next_of(writer);
        offer_groups(&mut self.order, writer, groups)?;
        let after = self.order.next_of(writer);
        let outputs = self.on_new(from, writer, before < after)?;
        Ok(outputs)
    }

    fn on_new(&mut self, from: Node, writer: Writer, is_new: bool) -> Mem<MessageList>
        ensures { IfOk result (λ outputs. (self.new, outputs) ≡ on_new self.old from writer is_new) }
    {
        if !is_new {
            return Ok(MessageList::new(self.alloc));
        }
        self.apply_all()?;
        let outputs = self.asks_next(from, writer)?;
        Ok(outputs)
    }

    /// Applies all that may be.
    fn apply_all(&mut self) -> Mem<()>
        ensures { OnOk result (self.new ≡ applies_all self.old) }
    {
        while self.apply_next()? {}
        Ok(())
    }

    /// Applies the next group, and tells whether there was one.
    fn apply_next(&mut self) -> Mem<bool>
        ensures some { IfOk result (λ some. some ≡ is_some (next self.old.order)) }
        ensures ok { OnOk result (self.new ≡ applies_some self.old (next self.old.order) (λ s. s)) }
        ensures fewer { IfOk result (λ some. IsTrue some → waiting self.new.order + 1 ≡ waiting self.old.order) }
    {
        let Some(group) = self.order.next()? else {
            return Ok(false);
        };
        keep_changes(
            &mut self.pages,
            group.writer,
            group.stamp,
            group.records.as_slice(),
        )?;
        mark_ends(&mut self.ends, &group)?;
        Ok(true)
    }

    /// Asks for the writer's next group, where these came from, unless one of the writer's waits.
    fn asks_next(&self, from: Node, writer: Writer) -> Mem<MessageList>
        ensures { IfOk result (λ outputs. outputs ≡ asks_next self.now from writer (is_idle self.now writer.0)) }
    {
        let mut outputs = MessageList::new(self.alloc);
        if self.order.is_idle(writer) {
            let first = self.order.next_of(writer);
            outputs.push(self.message(from, Note::Fetch { writer, first }))?;
        }
        Ok(outputs)
    }

    /// Asks for the next group of each writer that isn't fully received and none of whose groups waits, of the log stores in
    /// turn, and for the roster. With want of memory nothing changes.
    pub(crate) fn tick(&mut self) -> Mem<MessageList>
        ensures ok { IfOk result (λ outputs. (self.new, outputs) ≡ ticked self.old) }
        ensures err { OnErr result (self.new ≡ self.old) }
    {
        let mut outputs = self.fetches()?;
        outputs.push(self.message(Node::LockManager, Note::Want { writer: None }))?;
        self.turn = turn_after(self.turn);
        Ok(outputs)
    }

    /// The allocator that the state was made with.
    pub(crate) fn allocator(&self) -> Global {
        self.alloc
    }

    /// The records of the pages.
    pub(crate) fn pages(&self) -> &Chains
        ensures { result.now.records ≡ self.now.pages }
    {
        &self.pages
    }

    /// Where transactions end.
    pub(crate) fn ends(&self) -> &TxnMap<EndMark>
        ensures { result.now ≡ self.now.ends }
    {
        &self.ends
    }

    /// Of the least writer that waits the first entry that isn't covered.
    pub(crate) fn lag(&self) -> Option<(Writer, Stamp)>
        ensures { result ≡ option_map pair_of (waits self.now.order) }
    {
        self.order.waits()
    }

    /// The vector of a point.
    pub(crate) fn point(&self, number: u32) -> Option<&Vector>
        ensures { option_copied result ≡ point self.now number }
    {
        if number == 0 {
            return None;
        }
        self.points.get(number as usize - 1)
    }

    /// Publishes all that is applied, once it covers the bound. With an error nothing changes.
    pub(crate) fn publish(&mut self, bound: &Vector) -> Result<u32, PublishError>
        ensures { Published result self.old self.new bound.now }
    {
        if let Some(entry) = self.order.lacks(bound) {
            let writer = entry.writer;
            let stamp = entry.stamp;
            return Err(PublishError::Waits { writer, stamp });
        }
        let count = self.points.len();
        if count >= 65_536 {
            return Err(PublishError::Full);
        }
        let vector = self.order.frontier().copy()?;
        self.points.push(vector)?;
        Ok(count as u32 + 1)
    }

    fn fetches(&self) -> Mem<MessageList>
        ensures { IfOk result (λ outputs. outputs ≡ fetches self.now (entries self.now.roster)) }
    {
        let mut outputs = MessageList::new(self.alloc);
        for (number, entry) in self.roster.iter() {
            let writer = Writer(*number);
            if !self.is_received(entry) && self.order.is_idle(writer) {
                outputs.push(self.fetch(entry.writer, writer))?;
            }
        }
        Ok(outputs)
    }

    fn fetch(&self, writer: Writer, under: Writer) -> Message
        ensures { result ≡ message self.now (LogStore self.now.turn) (Fetch writer (line_of self.now.order under.0).next) }
    {
        let first = self.order.next_of(under);
        self.message(
            Node::LogStore { number: self.turn },
            Note::Fetch { writer, first },
        )
    }

    /// Whether the writer's log has an end and was received to it.
    fn is_received(&self, entry: &RosterEntry) -> bool
        ensures { result ≡ is_received self.now entry.now }
    {
        !is_live(entry.state) && entry.length < self.order.next_of(entry.writer)
    }

    fn message(&self, to: Node, note: Note) -> Message
        ensures { result ≡ message self.now to note }
    {
        Message {
            from: Node::Replica {
                number: self.number,
            },
            to,
            stamp: Stamp(self.scalar),
            note,
        }
    }
}

/// By the writer's number: the entry of the roster.
fn roster_of(alloc: Global, told: &[RosterEntry]) -> Mem<NumberMap<RosterEntry>>
    ensures { IfOk result (λ roster. roster ≡ with_entries empty told.now) }
{
    let mut roster = NumberMap::new(alloc);
    for entry in told {
        roster.insert(entry.writer.0, *entry)?;
    }
    Ok(roster)
}

fn is_live(state: WriterState) -> bool
    ensures { result ≡ is_live state }
{
    match state {
        WriterState::Live => true,
        WriterState::Closed => false,
        WriterState::Recovered => false,
    }
}

/// The log store that is asked after this one.
fn turn_after(turn: u8) -> u8
    ensures { result ≡ turn_after turn }
{
    if turn < 3 {
        return turn + 1;
    }
    1
}
