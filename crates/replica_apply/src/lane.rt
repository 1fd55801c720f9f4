//! What was received of one writer's log.
ghost use Rattle.std.specs.Prelude.{◌≡◌, ◌-◌, ◌<◌, ◌^◌, IfOk, OnOk, OnErr};
ghost use Rattle.std.specs.Option.{option_copied};
ghost use Rattle.replica_model.specs.Order.{new_line, ready_in, waits_in};
ghost use Rattle.replica_model.specs.Step.{is_empty};
ghost use Rattle.replica_apply.specs.Inside.{at_frontier, first_of, with_waiting, without_next};

use crate::cover::first_uncovered;
use std::alloc::Global;
use std::collections::VecDeque;
use std::marker::Model;
use tm_base::{Group, Mem, NoMemory, Vector, VectorEntry};

/// The groups that wait, the number of the one that comes next, and what the applied ones had learnt. Contracts see it
/// as a line of `replica_model`.
#[derive(Drop)]
pub(crate) struct Lane {
    next: u32,
    waiting: VecDeque<Group>,
    learnt: Vector,
}

impl Model for Lane {
    ghost use Rattle.replica_model.specs.declared.line.Line.{Line};

    ghost Value = { Line };

    ghost view = { λ l. record { next = l.next; waiting = l.waiting.items; learnt = l.learnt } };
}

impl Lane {
    /// Nothing was received.
    pub(crate) fn new(alloc: Global) -> Lane
        ensures { result ≡ new_line }
    {
        Lane {
            next: 1,
            waiting: VecDeque::new(alloc),
            learnt: Vector::new(alloc),
        }
    }

    /// The number of the group that comes next, from 1.
    pub(crate) fn next(&self) -> u32
        ensures { result ≡ self.now.next }
    {
        self.next
    }

    // The first group that waits.
    fn first(&self) -> Option<&Group>
        ensures { option_copied result ≡ first_of self.now.waiting }
    {
        self.waiting.front()
    }

    /// Whether no group waits.
    pub(crate) fn is_idle(&self) -> bool
        ensures { result ≡ is_empty self.now.waiting }
    {
        match self.first() {
            Some(_) => false,
            None => true,
        }
    }

    /// The first group that waits, if the frontier covers what it depends on.
    pub(crate) fn ready(&self, frontier: &Vector) -> Option<&Group>
        ensures { option_copied result ≡ ready_in (at_frontier frontier.now) self.now self.now.waiting }
    {
        let group = self.first()?;
        match first_uncovered(frontier, &self.learnt, &group.learnt) {
            Some(_) => None,
            None => Some(group),
        }
    }

    /// The first entry of what the first group that waits depends on which the frontier doesn't cover.
    pub(crate) fn waits(&self, frontier: &Vector) -> Option<VectorEntry>
        ensures { result ≡ waits_in (at_frontier frontier.now) self.now self.now.waiting }
    {
        let group = self.first()?;
        first_uncovered(frontier, &self.learnt, &group.learnt)
    }

    /// Lets the next group wait. With want of memory nothing changes.
    pub(crate) fn push(&mut self, group: Group) -> Mem<()>
        requires { self.old.next < 2 ^ 32 - 1 }
        ensures ok { OnOk result (self.new ≡ with_waiting self.old group) }
        ensures err { OnErr result (self.new ≡ self.old) }
    {
        let Ok(()) = self.waiting.push_back(group) else {
            return Err(NoMemory);
        };
        self.next += 1;
        Ok(())
    }

    /// Takes the first group that waits, and learns what it had learnt. With want of memory nothing changes.
    pub(crate) fn pop(&mut self) -> Mem<Option<Group>>
        ensures value { IfOk result (λ group. group ≡ first_of self.old.waiting) }
        ensures ok { OnOk result (self.new ≡ without_next self.old self.old.waiting) }
        ensures err { OnErr result (self.new ≡ self.old) }
    {
        if let Some(group) = self.waiting.front() {
            self.learnt.join(&group.learnt)?;
        }
        Ok(self.waiting.pop_front())
    }
}
