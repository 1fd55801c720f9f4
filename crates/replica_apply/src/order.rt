//! The order of groups.
ghost use Rattle.std.specs.Prelude.{◌≡◌, ◌+◌, IfOk, IfSome, OnOk, OnErr};
ghost use Rattle.std.specs.Option.{option_copied, option_map};
ghost use Rattle.replica_model.specs.Order.{line_of, nothing, offered, next, after_next, uncovered, waits};
ghost use Rattle.replica_model.specs.Step.{is_empty, waiting};
ghost use Rattle.replica_apply.specs.Inside.{pair_of};

use crate::cover::uncovered_in;
use crate::lanes::Lanes;
use std::alloc::Global;
use std::marker::Model;
use tm_base::{Group, Mem, Stamp, Vector, VectorEntry, Writer};

/// What was received of every writer's log, and what is applied of it. Contracts see the order of `replica_model`.
#[derive(Drop)]
pub struct Order {
    alloc: Global,
    lanes: Lanes,
    frontier: Vector,
}

impl Model for Order {
    ghost use Rattle.replica_model.specs.Order.{Order, coded_order};
    ghost use Rattle.replica_apply.specs.Inside.{AreOwn};
    ghost use Rattle.std.specs.FinMap as fin;

    ghost Value = { Order };

    ghost coded = { coded_order };

    ghost view = { λ o. record { lines = o.lanes; frontier = o.frontier } };

    ghost invariant = { λ o. AreOwn (fin.entries o.lanes) };
}

impl Order {
    /// Nothing was received.
    pub fn new(alloc: Global) -> Order
        ensures { result ≡ nothing }
    {
        Order {
            alloc,
            lanes: Lanes::new(alloc),
            frontier: Vector::new(alloc),
        }
    }

    /// Of each writer the stamp of its last group that was applied.
    pub fn frontier(&self) -> &Vector
        ensures { result.now ≡ self.now.frontier }
    {
        &self.frontier
    }

    /// The first entry of a vector that isn't applied yet: its writer's groups up to its stamp aren't.
    pub fn lacks(&self, vector: &Vector) -> Option<VectorEntry>
        ensures { result ≡ uncovered self.now.frontier vector.now }
    {
        uncovered_in(&self.frontier, vector)
    }

    /// The number of a writer's group that comes next, from 1.
    pub fn next_of(&self, writer: Writer) -> u32
        ensures { result ≡ (line_of self.now writer.0).next }
    {
        self.lanes.next_of(writer)
    }

    /// Whether no group of the writer waits.
    pub fn is_idle(&self, writer: Writer) -> bool
        ensures { result ≡ is_empty (line_of self.now writer.0).waiting }
    {
        self.lanes.is_idle(writer)
    }

    /// Receives a group: it waits if it is its writer's next, and is ignored otherwise. With want of memory nothing
    /// changes.
    pub fn offer(&mut self, group: &Group) -> Mem<()>
        ensures ok { OnOk result (self.new ≡ offered self.old group.now) }
        ensures err { OnErr result (self.new ≡ self.old) }
    {
        if group.writer.0 == 0 || group.stamp.0 == 0 || group.seq == u32::MAX {
            return Ok(());
        }
        if group.seq != self.lanes.next_of(group.writer) {
            return Ok(());
        }
        self.lanes.receive(group)
    }

    /// Applies the next group, if there is one: that of the least writer whose vector the frontier covers. Then one fewer
    /// waits. With want of memory nothing changes.
    pub fn next(&mut self) -> Mem<Option<Group>>
        ensures value { IfOk result (λ group. group ≡ next self.old) }
        ensures ok { OnOk result (self.new ≡ after_next self.old (next self.old)) }
        ensures fewer { IfOk result (λ group. IfSome group (λ _. waiting self.new + 1 ≡ waiting self.old)) }
        ensures err { OnErr result (self.new ≡ self.old) }
    {
        let Some(group) = self.ready() else {
            return Ok(None);
        };
        let writer = group.writer;
        let own = Vector::single(self.alloc, writer, group.stamp)?;
        let frontier = self.frontier.joined(&own)?;
        let group = self.lanes.take(writer)?;
        self.frontier = frontier;
        Ok(group)
    }

    /// Of the least writer whose next group is here and may not be applied yet: the first entry of its vector that the
    /// frontier doesn't cover, as a writer and the stamp up to which its groups are awaited.
    pub fn waits(&self) -> Option<(Writer, Stamp)>
        ensures { result ≡ option_map pair_of (waits self.now) }
    {
        for (_, lane) in self.lanes.iter() {
            if let Some(entry) = lane.waits(&self.frontier) {
                return Some((entry.writer, entry.stamp));
            }
        }
        None
    }

    // The next group.
    fn ready(&self) -> Option<&Group>
        ensures { option_copied result ≡ next self.now }
    {
        for (_, lane) in self.lanes.iter() {
            if let Some(group) = lane.ready(&self.frontier) {
                return Some(group);
            }
        }
        None
    }
}
