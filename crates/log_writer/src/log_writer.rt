//! The log of one writer.
ghost use Rattle.std.specs.Prelude.{◌≡◌, ◌+◌, ◌<◌, ◌≤◌, ◌^◌, IfOk, OnOk, OnErr, length};
ghost use Rattle.std.specs.Option.{option_copied};
ghost use Rattle.log_writer.specs.Log.{acked, appended, appended_all, AreNext, durable_count, durable_seq, durable_stamp, group_of, IsLog, lacking, last_seq, last_stamp, let_go, new_log, numbered, reached, resent, settled};
ghost use Rattle.log_writer.specs.TakenBack.{taken_back, without_last};

use crate::rows::{at, drop_front, first_lacking, mark, stamp_at, unacknowledged, unmark, walk_on};
use crate::{Acks, Logged};
use std::alloc::Global;
use std::collections::VecDeque;
use std::marker::Model;
use tm_base::{Group, GroupList, Mem, NoMemory, Stamp, Writer};

/// At most so many groups are sent again at a time.
pub const RESENT: usize = 16;

/// The groups that a writer logged, with what the log stores acknowledged of them, but for those that were let
/// go from the front once they were durable. Contracts see the writer, how many were let go, the stamp of the
/// last of these, and the list of the others, each with its acknowledgements.
///
/// `first`, `second` and `third` are what is kept for speed: how many groups from the front of the list on the
/// store of that number acknowledged, one after another.
#[derive(Drop)]
pub struct LogWriter {
    writer: Writer,
    gone: usize,
    gone_stamp: Stamp,
    groups: VecDeque<Logged>,
    first: usize,
    second: usize,
    third: usize,
}

impl Model for LogWriter {
    ghost use Rattle.log_writer.specs.Log.{Log};
    ghost use Rattle.log_writer.specs.Inside.{IsKept};

    ghost Value = { Log };

    ghost view = { λ l. record { writer = l.writer; gone = l.gone; gone_stamp = l.gone_stamp.0; groups = l.groups.items } };

    ghost invariant = { λ l. IsKept l.writer l.gone l.gone_stamp.0 l.groups.items l.first l.second l.third };
}

impl LogWriter {
    /// The log of a writer, with no groups.
    pub fn new(alloc: Global, writer: Writer) -> LogWriter
        ensures { result ≡ new_log writer }
    {
        LogWriter {
            writer,
            gone: 0,
            gone_stamp: Stamp(0),
            groups: VecDeque::new(alloc),
            first: 0,
            second: 0,
            third: 0,
        }
    }

    /// The writer.
    pub fn writer(&self) -> Writer
        ensures { result ≡ self.now.writer }
    {
        self.writer
    }

    /// The number of the last group, 0 while there is none. The groups are the writer's, numbered from 1
    /// on without gaps, and their stamps rise.
    pub fn last_seq(&self) -> u32
        ensures value { result ≡ last_seq self.now }
        ensures order { IsLog self.now }
    {
        (self.gone + self.groups.len()) as u32
    }

    /// The stamp of the last group, 0 while there is none.
    pub fn last_stamp(&self) -> Stamp
        ensures { result.0 ≡ last_stamp self.now }
    {
        stamp_at(self.gone_stamp, &self.groups, self.groups.len())
    }

    /// The group of that number, none where it was let go or isn't logged.
    pub fn group(&self, seq: u32) -> Option<&Group>
        ensures { option_copied result ≡ group_of (numbered self.now seq) }
    {
        let logged = self.numbered(seq)?;
        Some(&logged.group)
    }

    /// Logs a group, which no store has acknowledged yet. With want of memory nothing changes.
    pub fn append(&mut self, group: Group) -> Mem<()>
        requires own { group.writer ≡ self.old.writer }
        requires next { group.seq ≡ last_seq self.old + 1 }
        requires later { last_stamp self.old < group.stamp.0 }
        ensures ok { OnOk result (self.new ≡ appended self.old group) }
        ensures err { OnErr result (self.new ≡ self.old) }
    {
        let logged = Logged {
            group,
            acks: Acks::new(),
        };
        let Ok(()) = self.groups.push_back(logged) else {
            return Err(NoMemory);
        };
        Ok(())
    }

    /// Logs several groups, one after another, none of which any store has acknowledged yet. With want of memory
    /// nothing changes.
    pub fn append_all(&mut self, groups: &GroupList) -> Mem<()>
        requires next { AreNext self.old.writer (last_seq self.old) (last_stamp self.old) groups.now }
        requires few { last_seq self.old + length groups.now < 2 ^ 32 }
        ensures ok { OnOk result (self.new ≡ appended_all self.old groups.now) }
        ensures err { OnErr result (self.new ≡ self.old) }
    {
        let mut more = unacknowledged(*self.groups.allocator(), groups.as_slice())?;
        let Ok(()) = self.groups.append(&mut more) else {
            return Err(NoMemory);
        };
        Ok(())
    }

    /// Drops the last group, if it is still here. It takes no memory. So a step that logs a group can be given up where
    /// what follows wants memory.
    pub fn drop_last(&mut self)
        ensures { self.new ≡ without_last self.old }
    {
        let count = self.groups.len().saturating_sub(1);
        self.groups.truncate(count);
        self.first = self.first.min(count);
        self.second = self.second.min(count);
        self.third = self.third.min(count);
    }

    /// A log store acknowledged the group of that number. Of a store outside 1 to 3, or a number not yet
    /// appended, nothing is noted. Acknowledgements may come in any order, and more than once.
    pub fn on_ack(&mut self, store: u8, seq: u32)
        ensures { self.new ≡ acked self.old store seq }
    {
        mark(
            &mut self.groups,
            store,
            (seq as usize).saturating_sub(self.gone),
        );
        self.first = walk_on(&self.groups, 1, self.first);
        self.second = walk_on(&self.groups, 2, self.second);
        self.third = walk_on(&self.groups, 3, self.third);
    }

    /// Takes back what [`on_ack`](LogWriter::on_ack) noted: that a log store acknowledged the group of that number. Of
    /// a group that was let go nothing is taken back. It takes no memory. So a step that an acknowledgement begins can
    /// be given up where it wants memory.
    pub fn take_back(&mut self, store: u8, seq: u32)
        ensures { self.new ≡ taken_back self.old store seq }
    {
        let place = (seq as usize).saturating_sub(self.gone);
        if place == 0 {
            return;
        }
        unmark(&mut self.groups, store, place);
        let before = place - 1;
        self.first = walk_on(&self.groups, 1, self.first.min(before));
        self.second = walk_on(&self.groups, 2, self.second.min(before));
        self.third = walk_on(&self.groups, 3, self.third.min(before));
    }

    /// Lets the durable groups go, which gives back their memory. Whatever is asked of the log is answered as
    /// before, but for `group` of these.
    pub fn let_go(&mut self)
        ensures { self.new ≡ let_go self.old }
    {
        let count = self.durable_count();
        self.gone_stamp = stamp_at(self.gone_stamp, &self.groups, count);
        drop_front(&mut self.groups, count);
        self.gone += count;
        self.first -= count;
        self.second -= count;
        self.third -= count;
    }

    /// The number of the last group that is durable: it and all before it are acknowledged by all three
    /// log stores. 0 while none is.
    pub fn durable_seq(&self) -> u32
        ensures { result ≡ durable_seq self.now }
    {
        (self.gone + self.durable_count()) as u32
    }

    /// The stamp of the last group that is durable, 0 while none is.
    pub fn durable(&self) -> Stamp
        ensures { result.0 ≡ durable_stamp self.now }
    {
        stamp_at(self.gone_stamp, &self.groups, self.durable_count())
    }

    /// The stamp up to which every change of this writer is durable: one less than the stamp of the first
    /// group that isn't durable, or `scalar`, its clock's, where every group is.
    pub fn settled(&self, scalar: Stamp) -> Stamp
        ensures { result.0 ≡ settled self.now scalar.0 }
    {
        match at(&self.groups, self.durable_count()) {
            Some(logged) => Stamp(logged.group.stamp.0 - 1),
            None => scalar,
        }
    }

    /// The least log store that hasn't acknowledged the group of that number, none where all three have.
    /// A group not yet appended isn't acknowledged by any.
    pub fn lacking(&self, seq: u32) -> Option<u8>
        ensures { result ≡ lacking self.now seq }
    {
        if seq > 0 && seq as usize <= self.gone {
            return None;
        }
        match self.numbered(seq) {
            Some(logged) => logged.acks.least_lacking(),
            None => Some(1),
        }
    }

    /// The [`RESENT`] lowest groups that the store hasn't acknowledged, or all of these that are still here where
    /// there are fewer, in the order of their numbers.
    pub fn resend(&self, store: u8) -> Mem<GroupList>
        ensures { IfOk result (λ groups. groups ≡ resent self.now.groups store) }
    {
        first_lacking(&self.groups, self.reached(store), store)
    }

    /// The group of a number that is still here, with its acknowledgements.
    fn numbered(&self, seq: u32) -> Option<&Logged>
        ensures { option_copied result ≡ numbered self.now seq }
    {
        let place = (seq as usize).checked_sub(self.gone + 1)?;
        at(&self.groups, place)
    }

    /// How many groups from the front on are durable.
    fn durable_count(&self) -> usize
        ensures { result ≡ durable_count self.now.groups }
    {
        self.first.min(self.second).min(self.third)
    }

    /// How many groups from the front on a store acknowledged.
    #[tactic(auto, using(crate::proofs::PrefixLemmas::reached_other))]
    fn reached(&self, store: u8) -> usize
        ensures { result ≡ reached self.now.groups store }
    {
        match store {
            1 => self.first,
            2 => self.second,
            3 => self.third,
            _ => 0,
        }
    }
}
