//! The log of one writer.
ghost use Rattle.std.specs.Prelude.{◌≡◌, ◌+◌, ◌<◌, ◌^◌, OnOk, OnErr, length};
ghost use Rattle.std.specs.Option.{option_copied};
ghost use Rattle.store_model.specs.LogState.{empty_log, numbered};
ghost use Rattle.store_model.specs.LogStep.{servable, with_group};
ghost use Rattle.log_store.specs.Inside.{set_to};

use std::alloc::Global;
use std::marker::Model;
use tm_base::{Group, Mem};

/// The groups of one writer, up to where they may be served, and whether more are taken.
#[derive(Drop)]
pub struct WriterLog {
    groups: Vec<Group>,
    mark: u32,
    is_sealed: bool,
}

impl Model for WriterLog {
    ghost use Rattle.std.specs.Prelude.{◌<◌, ◌^◌, length};
    ghost use Rattle.store_model.specs.LogState.{Log};

    ghost Value = { Log };

    ghost view = { λ l. record { groups = l.groups.items; mark = l.mark; is_sealed = l.is_sealed } };

    ghost invariant = { λ l. length l.groups.items < 2 ^ 32 };
}

impl WriterLog {
    /// A log of which nothing is known.
    pub fn new(alloc: Global) -> WriterLog
        ensures { result ≡ empty_log }
    {
        WriterLog {
            groups: Vec::new(alloc),
            mark: 0,
            is_sealed: false,
        }
    }

    /// How many groups there are.
    pub fn len(&self) -> u32
        ensures { result ≡ length self.now.groups }
    {
        self.groups.len() as u32
    }

    /// Whether no more groups are taken.
    pub fn is_sealed(&self) -> bool
        ensures { result ≡ self.now.is_sealed }
    {
        self.is_sealed
    }

    /// Groups up to this number may be served.
    pub fn mark(&self) -> u32
        ensures { result ≡ self.now.mark }
    {
        self.mark
    }

    /// The group of a number, if it is held.
    pub fn held(&self, seq: u32) -> Option<&Group>
        ensures { option_copied result ≡ numbered self.now.groups seq }
    {
        if seq == 0 {
            return None;
        }
        self.groups.get(seq as usize - 1)
    }

    /// The groups held from a number on, up to the mark.
    pub fn servable(&self, first: u32) -> &[Group]
        ensures { result.now ≡ servable self.now first }
    {
        let end = self.groups.len().min(self.mark as usize);
        let (front, _) = self.groups.as_slice().split_at(end);
        let start = end.min((first as usize).saturating_sub(1));
        let (_, rest) = front.split_at(start);
        rest
    }

    /// Keeps one more group. With want of memory nothing changes.
    pub fn push(&mut self, group: Group) -> Mem<()>
        requires { length self.old.groups + 1 < 2 ^ 32 }
        ensures ok { OnOk result (self.new ≡ with_group self.old group) }
        ensures err { OnErr result (self.new ≡ self.old) }
    {
        self.groups.push(group)?;
        Ok(())
    }

    /// Sets the mark, and whether more groups are taken.
    pub fn set(&mut self, mark: u32, is_sealed: bool)
        ensures { self.new ≡ set_to self.old mark is_sealed }
    {
        self.mark = mark;
        self.is_sealed = is_sealed;
    }
}
