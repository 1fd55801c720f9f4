//! What was received of each writer's log.
ghost use Rattle.std.specs.Prelude.{◌≡◌, ◌-◌, ◌<◌, ◌^◌, ℕ, IfOk, OnOk, OnErr};
ghost use Rattle.std.specs.FinMap as fin;
ghost use Rattle.std.specs.Map.Iter.{ShowsInOrder, deref_pair};
ghost use Rattle.std.specs.Option.{option_copied};
ghost use Rattle.replica_model.specs.declared.line.Line.{Line};
ghost use Rattle.replica_model.specs.Order.{or_new};
ghost use Rattle.replica_model.specs.Step.{is_empty};
ghost use Rattle.replica_apply.specs.Inside.{first_of, first_in, received, popped};

use crate::lane::Lane;
use std::alloc::Global;
use std::collections::BTreeMap;
use std::collections::btree_map::Iter;
use std::marker::Model;
use tm_base::{Group, Mem, TryCopy, Writer};

/// A lane for each writer of whom a group was received, ascending by the writer's number. Contracts see the finite map.
#[derive(Drop)]
pub(crate) struct Lanes {
    alloc: Global,
    lanes: BTreeMap<u32, Lane>,
}

impl Model for Lanes {
    ghost use Rattle.tm_data.specs.Maps.{as_map};
    ghost use Rattle.replica_model.specs.Order.{Lines, coded_lines};

    ghost Value = { Lines };

    ghost coded = { coded_lines };

    ghost view = { λ m. as_map m.lanes };
}

impl Lanes {
    /// Nothing was received.
    pub(crate) fn new(alloc: Global) -> Lanes
        ensures { result ≡ fin.empty }
    {
        Lanes {
            alloc,
            lanes: BTreeMap::new(alloc),
        }
    }

    /// The number of a writer's group that comes next.
    pub(crate) fn next_of(&self, writer: Writer) -> u32
        ensures { result ≡ (or_new (fin.get self.now writer.0)).next }
    {
        match self.lanes.get(&writer.0) {
            Some(lane) => lane.next(),
            None => 1,
        }
    }

    /// Whether no group of a writer waits.
    pub(crate) fn is_idle(&self, writer: Writer) -> bool
        ensures { result ≡ is_empty (or_new (fin.get self.now writer.0)).waiting }
    {
        match self.lanes.get(&writer.0) {
            Some(lane) => lane.is_idle(),
            None => true,
        }
    }

    /// The lanes with their writers' numbers, ascending.
    pub(crate) fn iter(&self) -> Iter<'_, u32, Lane>
        ensures rest { result ≡ fin.entries self.now }
        ensures runs { ShowsInOrder (deref_pair {K = ℕ} {X = Line}) }
    {
        self.lanes.iter()
    }

    /// Lets a copy of a writer's next group wait. With want of memory nothing changes.
    pub(crate) fn receive(&mut self, group: &Group) -> Mem<()>
        requires { (or_new (fin.get self.old group.now.writer.0)).next < 2 ^ 32 - 1 }
        ensures ok { OnOk result (self.new ≡ received self.old group.now (or_new (fin.get self.old group.now.writer.0))) }
        ensures err { OnErr result (self.new ≡ self.old) }
    {
        let number = group.writer.0;
        let group = group.copy()?;
        if let Some(lane) = self.lanes.get_mut(&number) {
            return lane.push(group);
        }
        let mut lane = Lane::new(self.alloc);
        lane.push(group)?;
        self.lanes.insert(number, lane)?;
        Ok(())
    }

    /// Takes the first group of a writer that waits. With want of memory nothing changes.
    pub(crate) fn take(&mut self, writer: Writer) -> Mem<Option<Group>>
        ensures value { IfOk result (λ group. group ≡ first_in (fin.get self.old writer.0)) }
        ensures ok { OnOk result (self.new ≡ popped self.old writer.0 (fin.get self.old writer.0)) }
        ensures err { OnErr result (self.new ≡ self.old) }
    {
        let Some(lane) = self.lanes.get_mut(&writer.0) else {
            return Ok(None);
        };
        lane.pop()
    }
}
