//! The replica.
ghost use Rattle.std.specs.Prelude.{◌≡◌, IfOk, IsSome, OnErr, Some, None, is_some};
ghost use Rattle.std.specs.Option.{option_copied};
ghost use Rattle.replica_model.specs.Reads.{get, scan};
ghost use Rattle.replica_model.specs.State.{start};
ghost use Rattle.replica_view.specs.Answers.{heard, lag, listed, point_of, Publishes, Reads, ticking};

use crate::state::State;
use crate::{PublishError, ViewError};
use std::alloc::Global;
use std::marker::Model;
use tm_base::{Key, Mem, Message, MessageList, NoMemory, PairList, Stamp, Value, Vector, Writer};

/// One of the replicas. Contracts see its state in `replica_model`, while it runs: it does until a step wants memory, for
/// that step may have taken a part of what came alone. Then its life is over, its memory is given back, and no point of this
/// life is there any more.
#[derive(Drop)]
pub struct Replica {
    state: Option<State>,
}

impl Model for Replica {
    ghost use Rattle.std.specs.declared.option.Option.{Option};
    ghost use Rattle.replica_model.specs.State.{State};
    ghost use Rattle.replica_view.specs.Replica.{coded_life};

    ghost Value = { Option State };

    ghost coded = { coded_life };

    ghost view = { λ r. r.state };
}

impl Replica {
    /// The replica of that number, from 1, which has heard nothing.
    pub fn start(alloc: Global, number: u8) -> Replica
        ensures { result ≡ Some (start number) }
    {
        Replica {
            state: Some(State::new(alloc, number)),
        }
    }

    /// Whether it runs: it does until a step wants memory.
    pub fn is_running(&self) -> bool
        ensures { result ≡ is_some self.now }
    {
        self.state.is_some()
    }

    /// Hears a message, and gives what it sends then. With want of memory its life is over.
    pub fn step(&mut self, message: &Message) -> Mem<MessageList>
        requires { IsSome self.old }
        ensures ok { IfOk result (λ outputs. (self.new, outputs) ≡ heard self.old message.now) }
        ensures err { OnErr result (self.new ≡ None) }
    {
        let Some(state) = &mut self.state else {
            return Err(NoMemory);
        };
        let outputs = match state.step(message) {
            Ok(outputs) => outputs,
            Err(error) => {
                self.state = None;
                return Err(error);
            }
        };
        Ok(outputs)
    }

    /// Asks for groups and for the roster. With want of memory nothing changes.
    pub fn tick(&mut self) -> Mem<MessageList>
        requires { IsSome self.old }
        ensures ok { IfOk result (λ outputs. (self.new, outputs) ≡ ticking self.old) }
        ensures err { OnErr result (self.new ≡ self.old) }
    {
        let Some(state) = &mut self.state else {
            return Err(NoMemory);
        };
        let outputs = state.tick()?;
        Ok(outputs)
    }

    /// Of the least writer whose next group is here and may not be applied yet: the first entry of its vector that isn't
    /// covered, as a writer and the stamp up to which its groups are awaited.
    pub fn lag(&self) -> Option<(Writer, Stamp)>
        ensures { result ≡ lag self.now }
    {
        let Some(state) = &self.state else {
            return None;
        };
        state.lag()
    }

    /// The vector of a point of this life, by its number from 1.
    pub fn point(&self, number: u32) -> Option<&Vector>
        ensures { option_copied result ≡ point_of self.now number }
    {
        let Some(state) = &self.state else {
            return None;
        };
        state.point(number)
    }

    /// Publishes all that is applied as a point, once it covers the bound, and gives the point's number: the next one, from 1.
    /// Refuses `Waits` and `Full`, each exactly where it holds and none of those before it does. With an error nothing changes.
    pub fn publish(&mut self, bound: &Vector) -> Result<u32, PublishError>
        requires { IsSome self.old }
        ensures { Publishes result self.old self.new bound.now }
    {
        let Some(state) = &mut self.state else {
            return Err(PublishError::NoMemory);
        };
        let number = state.publish(bound)?;
        Ok(number)
    }

    /// The value of a key of a table at a point. Refuses `NoPoint`, `NoTable` and `Unfit`, each exactly where it holds and none
    /// of those before it does. It looks at the pages of the key's path alone.
    pub fn get(&self, point: u32, table: u16, key: &Key) -> Result<Option<Value>, ViewError>
        ensures { Reads result self.now (λ s. get s point table key.now) }
    {
        let Some(state) = &self.state else {
            return Err(ViewError::NoPoint);
        };
        let value = state.get(point, table, key)?;
        Ok(value)
    }

    /// The first so many keys of a table with values at a point, from one on or all, ascending. Refuses `NoPoint`, `NoTable`
    /// and `Unfit`, each exactly where it holds and none of those before it does. It looks at the pages alone that the walk
    /// needs: none before the child to which the first key leads, and none after the last pair.
    pub fn scan(
        &self,
        point: u32,
        table: u16,
        from: Option<&Key>,
        count: usize,
    ) -> Result<PairList, ViewError>
        ensures { Reads (listed result) self.now (λ s. scan s point table (option_copied from.entry) count) }
    {
        let Some(state) = &self.state else {
            return Err(ViewError::NoPoint);
        };
        let pairs = state.scan(point, table, from, count)?;
        Ok(pairs)
    }
}
