//! The page store.
ghost use Rattle.std.specs.Prelude.{◌≡◌, ◌≤◌, true, false, IfOk, OnErr};
ghost use Rattle.store_model.specs.PageState.{start};
ghost use Rattle.store_model.specs.PageReads.{read_at, read_version, wants};
ghost use Rattle.store_model.specs.PageStep.{stepped, ticked};
ghost use Rattle.page_store.specs.Answers.{HasPart, Reads, brings_by};
ghost use Rattle.page_store.specs.Store.{going};

use crate::state::State;
use std::alloc::Global;
use std::marker::Model;
use store_model::ReadRefusal;
use tm_base::{Image, Mem, Message, MessageList, Page, Stamp};

/// One of the page stores. Contracts see its state in `store_model`, and whether it takes steps: it does
/// until a step wants memory, for that step may have taken a part of its records alone.
#[derive(Drop)]
pub struct PageStore {
    state: State,
    takes_steps: bool,
}

impl Model for PageStore {
    ghost use Rattle.page_store.specs.Store.{Store, coded_store};

    ghost Value = { Store };

    ghost coded = { coded_store };

    ghost view = { λ p. record { state = p.state; takes_steps = p.takes_steps } };
}

impl PageStore {
    /// The page store of that number, from 1, of so many, with no records.
    pub fn open(alloc: Global, number: u8, stores: u8) -> PageStore
        requires least { 1 ≤ number }
        requires most { number ≤ stores }
        ensures { result ≡ record { state = start number stores; takes_steps = true } }
    {
        PageStore {
            state: State::new(alloc, number, stores),
            takes_steps: true,
        }
    }

    /// Whether it takes steps and ticks: it does until a step wants memory.
    pub fn takes_steps(&self) -> bool
        ensures { result ≡ self.now.takes_steps }
    {
        self.takes_steps
    }

    /// Hears a message, and gives what it sends then. With want of memory nothing has changed but that a
    /// first part of the records that the message brings may be taken; the store then takes no more steps.
    pub fn step(&mut self, message: &Message) -> Mem<MessageList>
        requires { self.old.takes_steps ≡ true }
        ensures ok { IfOk result (λ outputs. (self.new, outputs) ≡ going (stepped self.old.state message.now)) }
        ensures part { OnErr result (HasPart self.old.state self.new.state (brings_by self.old.state message.now)) }
        ensures stops { OnErr result (self.new.takes_steps ≡ false) }
    {
        let outputs = match self.state.step(message) {
            Ok(outputs) => outputs,
            Err(error) => {
                self.takes_steps = false;
                return Err(error);
            }
        };
        Ok(outputs)
    }

    /// Asks for groups and for the roster. With want of memory nothing changes.
    pub fn tick(&mut self) -> Mem<MessageList>
        requires { self.old.takes_steps ≡ true }
        ensures ok { IfOk result (λ outputs. (self.new, outputs) ≡ going (ticked self.old.state)) }
        ensures err { OnErr result (self.new ≡ self.old) }
    {
        let outputs = self.state.tick()?;
        Ok(outputs)
    }

    /// The messages that help after a page at a scalar was refused: one that asks for the roster, or the
    /// writer's master for its groups; none after another refusal.
    pub fn wants(&self, refusal: &ReadRefusal, stamp: Stamp) -> Mem<MessageList>
        ensures { IfOk result (λ outputs. outputs ≡ wants self.now.state refusal.now stamp.0) }
    {
        self.state.wants(refusal, stamp)
    }

    /// The version of a page at a stamp. Refuses `NotHere`, `Missing` and `Unfit`, each exactly where it
    /// holds and none of those before it does.
    pub fn read_version(&self, page: Page, stamp: Stamp) -> Result<Image, ReadRefusal>
        ensures { Reads result (read_version self.now.state page stamp.0) }
    {
        self.state.read_version(page, stamp)
    }

    /// The page at a scalar. Refuses `NotHere`, `RosterBehind`, `Behind`, `Missing` and `Unfit`, each exactly
    /// where it holds and none of those before it does.
    pub fn read_at(&self, page: Page, stamp: Stamp) -> Result<Image, ReadRefusal>
        ensures { Reads result (read_at self.now.state page stamp.0) }
    {
        self.state.read_at(page, stamp)
    }
}
