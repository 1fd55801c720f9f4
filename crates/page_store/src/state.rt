//! What a page store does while memory lasts.
ghost use Rattle.std.specs.Prelude.{◌≡◌, ◌≤◌, IfOk, OnErr, Result};
ghost use Rattle.std.specs.FinMap.{empty, entries, get};
ghost use Rattle.tm_data.specs.declared.image.Image.{Image};
ghost use Rattle.version_chain.specs.Answers.{Tells};
ghost use Rattle.page_model.specs.Versions.{Fault};
ghost use Rattle.store_model.specs.PageState.{frontier_of, is_live, is_received, next_of, start};
ghost use Rattle.store_model.specs.PageReads.{first_late, is_late, of_fault, read_at, read_version, want, want_of, wants};
ghost use Rattle.store_model.specs.PageStep.{answers, fetch, fetches, message, on_groups, on_note, on_roster, stepped, tells, ticked, turn_after, with_entries};
ghost use Rattle.page_store.specs.Answers.{HasPart, Reads, brings, brings_by, brings_of};

use crate::intake::take_groups;
use crate::share::Share;
use number_map::NumberMap;
use std::alloc::Global;
use std::marker::Model;
use store_model::{Front, ReadRefusal};
use tm_base::{
    Group, Image, Mem, Message, MessageList, NoMemory, Node, Note, Page, RosterEntry, Stamp,
    Writer, WriterState,
};
use version_chain::{Chains, VersionError};

/// The state of a page store. Contracts see that of `store_model`.
#[derive(Drop)]
pub(crate) struct State {
    alloc: Global,
    share: Share,
    scalar: u64,
    turn: u8,
    roster_stamp: u64,
    roster: NumberMap<RosterEntry>,
    fronts: NumberMap<Front>,
    pages: Chains,
}

impl Model for State {
    ghost use Rattle.std.specs.Prelude.{◌≤◌};
    ghost use Rattle.store_model.specs.PageState.{PageStoreState, coded_state};

    ghost Value = { PageStoreState };

    ghost coded = { coded_state };

    ghost view = { λ s. record { number = s.share.number; stores = s.share.stores; scalar = s.scalar; turn = s.turn; roster_stamp = s.roster_stamp; roster = s.roster; fronts = s.fronts; pages = s.pages.records } };

    ghost invariant = { λ s. 1 ≤ s.share.stores };
}

impl State {
    /// The store of that number, of so many.
    pub(crate) fn new(alloc: Global, number: u8, stores: u8) -> State
        requires { 1 ≤ stores }
        ensures { result ≡ start number stores }
    {
        State {
            alloc,
            share: Share { number, stores },
            scalar: 0,
            turn: 1,
            roster_stamp: 0,
            roster: NumberMap::new(alloc),
            fronts: NumberMap::new(alloc),
            pages: Chains::new(alloc),
        }
    }

    /// Hears a message. With want of memory nothing has changed but that a first part of what it brings was
    /// taken.
    pub(crate) fn step(&mut self, message: &Message) -> Mem<MessageList>
        ensures ok { IfOk result (λ outputs. (self.new, outputs) ≡ stepped self.old message.now) }
        ensures err { OnErr result (HasPart self.old self.new (brings_by self.old message.now)) }
    {
        let before = self.scalar;
        self.scalar = before.max(message.stamp.0);
        let outputs = match self.on_note(message.from, message.stamp, &message.note) {
            Ok(outputs) => outputs,
            Err(error) => {
                self.scalar = before;
                return Err(error);
            }
        };
        Ok(outputs)
    }

    fn on_note(&mut self, from: Node, stamp: Stamp, note: &Note) -> Mem<MessageList>
        ensures ok { IfOk result (λ outputs. (self.new, outputs) ≡ on_note self.old from stamp.0 note.now) }
        ensures err { OnErr result (HasPart self.old self.new (brings self.old note.now)) }
    {
        match note {
            Note::Roster { entries } => {
                let outputs = self.on_roster(stamp, entries.as_slice())?;
                Ok(outputs)
            }
            Note::Groups { writer, groups } => {
                let outputs = self.on_groups(from, *writer, groups.as_slice())?;
                Ok(outputs)
            }
            Note::ReadPage { page } => {
                let outputs = self.on_read(from, *page, stamp)?;
                Ok(outputs)
            }
            _ => Ok(MessageList::new(self.alloc)),
        }
    }

    fn on_roster(&mut self, stamp: Stamp, told: &[RosterEntry]) -> Mem<MessageList>
        ensures ok { IfOk result (λ outputs. (self.new, outputs) ≡ on_roster self.old stamp.0 told.now) }
        ensures err { OnErr result (self.new ≡ self.old) }
    {
        if stamp.0 < self.roster_stamp {
            return Ok(MessageList::new(self.alloc));
        }
        self.roster = roster_of(self.alloc, told)?;
        self.roster_stamp = stamp.0;
        Ok(MessageList::new(self.alloc))
    }

    fn on_groups(&mut self, from: Node, writer: Writer, groups: &[Group]) -> Mem<MessageList>
        ensures ok { IfOk result (λ outputs. (self.new, outputs) ≡ on_groups self.old from writer groups.now) }
        ensures err { OnErr result (HasPart self.old self.new (brings_of self.old writer groups.now)) }
    {
        if self.roster.get(writer.0).is_none() {
            return Ok(MessageList::new(self.alloc));
        }
        let next = self.next_of(writer);
        let Some(front) = take_groups(&mut self.pages, self.share, writer, next, groups)? else {
            return Ok(MessageList::new(self.alloc));
        };
        let first = front.next;
        let outputs = self.answers(from, Note::Fetch { writer, first })?;
        self.fronts.insert(writer.0, front)?;
        Ok(outputs)
    }

    fn on_read(&self, from: Node, page: Page, stamp: Stamp) -> Mem<MessageList>
        ensures { IfOk result (λ outputs. outputs ≡ tells self.now from page (read_version self.now page stamp.0)) }
    {
        match self.read_version(page, stamp) {
            Ok(image) => {
                let outputs = self.answers(from, Note::PageIs { image })?;
                Ok(outputs)
            }
            Err(ReadRefusal::Missing { stamp }) => {
                let outputs = self.answers(from, Note::Missing { page, stamp })?;
                Ok(outputs)
            }
            Err(ReadRefusal::NoMemory) => Err(NoMemory),
            Err(_) => Ok(MessageList::new(self.alloc)),
        }
    }

    /// Asks for the next group of each writer that isn't fully received, of the log stores in turn, and for
    /// the roster. With want of memory nothing changes.
    pub(crate) fn tick(&mut self) -> Mem<MessageList>
        ensures ok { IfOk result (λ outputs. (self.new, outputs) ≡ ticked self.old) }
        ensures err { OnErr result (self.new ≡ self.old) }
    {
        let mut outputs = self.fetches()?;
        outputs.push(self.message(Node::LockManager, Note::Want { writer: None }))?;
        self.turn = turn_after(self.turn);
        Ok(outputs)
    }

    fn fetches(&self) -> Mem<MessageList>
        ensures { IfOk result (λ outputs. outputs ≡ fetches self.now (entries self.now.roster)) }
    {
        let mut outputs = MessageList::new(self.alloc);
        for (_, entry) in self.roster.iter() {
            if !self.is_received(entry) {
                outputs.push(self.fetch(entry))?;
            }
        }
        Ok(outputs)
    }

    fn fetch(&self, entry: &RosterEntry) -> Message
        ensures { result ≡ fetch self.now entry.now }
    {
        let writer = entry.writer;
        let first = self.next_of(writer);
        self.message(
            Node::LogStore { number: self.turn },
            Note::Fetch { writer, first },
        )
    }

    /// The version of a page at a stamp.
    pub(crate) fn read_version(&self, page: Page, stamp: Stamp) -> Result<Image, ReadRefusal>
        ensures { Reads result (read_version self.now page stamp.0) }
    {
        if !self.share.has(page.0) {
            return Err(ReadRefusal::NotHere);
        }
        answer_of(self.pages.page_version(page, stamp))
    }

    /// The page at a scalar.
    pub(crate) fn read_at(&self, page: Page, stamp: Stamp) -> Result<Image, ReadRefusal>
        ensures { Reads result (read_at self.now page stamp.0) }
    {
        if !self.share.has(page.0) {
            return Err(ReadRefusal::NotHere);
        }
        if self.roster_stamp < stamp.0 {
            let upto = Stamp(self.roster_stamp);
            return Err(ReadRefusal::RosterBehind { upto });
        }
        if let Some(entry) = self.first_late(stamp) {
            let writer = entry.writer;
            let upto = self.frontier_of(&entry);
            return Err(ReadRefusal::Behind { writer, upto });
        }
        answer_of(self.pages.page_upto(page, stamp))
    }

    /// The first writer of the roster that may have groups up to the stamp which weren't taken.
    fn first_late(&self, stamp: Stamp) -> Option<RosterEntry>
        ensures { result ≡ first_late self.now stamp.0 (entries self.now.roster) }
    {
        for (_, told) in self.roster.iter() {
            if self.is_late(told, stamp) {
                return Some(*told);
            }
        }
        None
    }

    fn is_late(&self, entry: &RosterEntry, stamp: Stamp) -> bool
        ensures { result ≡ is_late self.now stamp.0 entry.now }
    {
        !self.is_received(entry) && self.frontier_of(entry).0 < stamp.0
    }

    /// The number of a writer's next group.
    fn next_of(&self, writer: Writer) -> u32
        ensures { result ≡ next_of self.now writer.0 }
    {
        match self.fronts.get(writer.0) {
            Some(front) => front.next,
            None => 1,
        }
    }

    /// The stamp of the last group taken of a writer, or its start.
    fn frontier_of(&self, entry: &RosterEntry) -> Stamp
        ensures { result.0 ≡ frontier_of self.now entry.now }
    {
        match self.fronts.get(entry.writer.0) {
            Some(front) => front.stamp,
            None => entry.start,
        }
    }

    /// Whether the writer's log has an end and was taken to it.
    fn is_received(&self, entry: &RosterEntry) -> bool
        ensures { result ≡ is_received self.now entry.now }
    {
        !is_live(entry.state) && entry.length < self.next_of(entry.writer)
    }

    /// What is asked for after a page at a scalar was refused.
    pub(crate) fn wants(&self, refusal: &ReadRefusal, stamp: Stamp) -> Mem<MessageList>
        ensures { IfOk result (λ outputs. outputs ≡ wants self.now refusal.now stamp.0) }
    {
        match refusal {
            ReadRefusal::RosterBehind { .. } => {
                let outputs = self.want(Node::LockManager, None, stamp)?;
                Ok(outputs)
            }
            ReadRefusal::Behind { writer, .. } => {
                let outputs = self.want_of(*writer, stamp)?;
                Ok(outputs)
            }
            _ => Ok(MessageList::new(self.alloc)),
        }
    }

    fn want_of(&self, writer: Writer, stamp: Stamp) -> Mem<MessageList>
        ensures { IfOk result (λ outputs. outputs ≡ want_of self.now writer stamp.0 (get self.now.roster writer.0)) }
    {
        let Some(entry) = self.roster.get(writer.0) else {
            return Ok(MessageList::new(self.alloc));
        };
        let number = entry.master;
        let outputs = self.want(Node::Master { number }, Some(writer), stamp)?;
        Ok(outputs)
    }

    fn want(&self, to: Node, writer: Option<Writer>, stamp: Stamp) -> Mem<MessageList>
        ensures { IfOk result (λ outputs. outputs ≡ want self.now to writer stamp.0) }
    {
        let mut outputs = MessageList::new(self.alloc);
        outputs.push(Message {
            from: Node::PageStore {
                number: self.share.number,
            },
            to,
            stamp,
            note: Note::Want { writer },
        })?;
        Ok(outputs)
    }

    /// One message, with the scalar.
    fn answers(&self, to: Node, note: Note) -> Mem<MessageList>
        ensures { IfOk result (λ outputs. outputs ≡ answers self.now to note) }
    {
        let mut outputs = MessageList::new(self.alloc);
        outputs.push(self.message(to, note))?;
        Ok(outputs)
    }

    fn message(&self, to: Node, note: Note) -> Message
        ensures { result ≡ message self.now to note }
    {
        Message {
            from: Node::PageStore {
                number: self.share.number,
            },
            to,
            stamp: Stamp(self.scalar),
            note,
        }
    }
}

/// By the writer's number: the entry of the roster.
fn roster_of(alloc: Global, told: &[RosterEntry]) -> Mem<NumberMap<RosterEntry>>
    ensures { IfOk result (λ roster. roster ≡ with_entries empty told.now) }
{
    let mut roster = NumberMap::new(alloc);
    for entry in told {
        roster.insert(entry.writer.0, *entry)?;
    }
    Ok(roster)
}

fn is_live(state: WriterState) -> bool
    ensures { result ≡ is_live state }
{
    match state {
        WriterState::Live => true,
        WriterState::Closed => false,
        WriterState::Recovered => false,
    }
}

/// The log store that is asked after this one.
fn turn_after(turn: u8) -> u8
    ensures { result ≡ turn_after turn }
{
    if turn < 3 {
        return turn + 1;
    }
    1
}

/// The answer of a read, by that of the chains.
fn answer_of(version: Result<Image, VersionError>) -> Result<Image, ReadRefusal>
    ensures { (given : Result Image Fault) → Tells version given → Reads result (of_fault given) }
{
    match version {
        Ok(image) => Ok(image),
        Err(VersionError::Missing { stamp }) => Err(ReadRefusal::Missing { stamp }),
        Err(VersionError::Unfit { stamp }) => Err(ReadRefusal::Unfit { stamp }),
        Err(VersionError::NoMemory) => Err(ReadRefusal::NoMemory),
    }
}
