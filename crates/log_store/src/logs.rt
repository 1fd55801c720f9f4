//! The logs of all writers.
ghost use Rattle.std.specs.Prelude.{◌≡◌, ◌+◌, ◌<◌, ◌≤◌, ◌^◌, [], nat_eq, length, OnOk, OnErr, IsOk};
ghost use Rattle.std.specs.Map.{lookup};
ghost use Rattle.std.specs.Option.{option_copied};
ghost use Rattle.indexmap.specs.IndexMap.{spare};
ghost use Rattle.store_model.specs.LogState.{log_in, numbered, put};
ghost use Rattle.store_model.specs.LogStep.{servable, with_entries, with_group, with_state};
ghost use Rattle.log_store.specs.Inside.{set_to};

use crate::writer_log::WriterLog;
use indexmap::IndexMap;
use std::alloc::Global;
use std::marker::Model;
use tm_base::{Group, Mem, RosterEntry, Writer, WriterState};

/// The log of each writer that was heard of, by its number. Contracts see the list of them.
#[derive(Drop)]
pub struct Logs {
    alloc: Global,
    map: IndexMap<u32, WriterLog>,
}

impl Model for Logs {
    ghost use Rattle.std.specs.Prelude.{List, ℕ};
    ghost use Rattle.store_model.specs.LogState.{Log};

    ghost Value = { List (ℕ × Log) };

    ghost view = { λ l. l.map.entries };
}

impl Logs {
    /// No writer was heard of.
    pub fn new(alloc: Global) -> Logs
        ensures { result ≡ [] }
    {
        Logs {
            alloc,
            map: IndexMap::new(alloc),
        }
    }

    fn get(&self, writer: Writer) -> Option<&WriterLog>
        ensures { option_copied result ≡ lookup (nat_eq writer.0) self.now }
    {
        self.map.get(&writer.0)
    }

    /// How many groups of a writer are held.
    pub fn len_of(&self, writer: Writer) -> u32
        ensures { result ≡ length (log_in self.now writer.0).groups }
    {
        match self.get(writer) {
            Some(log) => log.len(),
            None => 0,
        }
    }

    /// Whether no more groups of a writer are taken.
    pub fn is_sealed(&self, writer: Writer) -> bool
        ensures { result ≡ (log_in self.now writer.0).is_sealed }
    {
        match self.get(writer) {
            Some(log) => log.is_sealed(),
            None => false,
        }
    }

    /// Groups of a writer up to this number may be served.
    pub fn mark_of(&self, writer: Writer) -> u32
        ensures { result ≡ (log_in self.now writer.0).mark }
    {
        match self.get(writer) {
            Some(log) => log.mark(),
            None => 0,
        }
    }

    /// The group of a writer and a number, if it is held.
    pub fn held(&self, writer: Writer, seq: u32) -> Option<&Group>
        ensures { option_copied result ≡ numbered (log_in self.now writer.0).groups seq }
    {
        match self.get(writer) {
            Some(log) => log.held(seq),
            None => None,
        }
    }

    /// The groups of a writer from a number on, up to the mark.
    pub fn servable(&self, writer: Writer, first: u32) -> &[Group]
        ensures { result.now ≡ servable (log_in self.now writer.0) first }
    {
        match self.get(writer) {
            Some(log) => log.servable(first),
            None => &[],
        }
    }

    /// Keeps the next group of its writer. With want of memory nothing changes.
    pub fn keep(&mut self, group: Group) -> Mem<()>
        requires { length (log_in self.old group.writer.0).groups + 1 < 2 ^ 32 }
        ensures ok { OnOk result (self.new ≡ put self.old group.writer.0 (with_group (log_in self.old group.writer.0) group)) }
        ensures err { OnErr result (self.new ≡ self.old) }
    {
        let writer = group.writer.0;
        let Some(log) = self.map.get_mut(&writer) else {
            let mut log = WriterLog::new(self.alloc);
            log.push(group)?;
            self.map.insert(writer, log)?;
            return Ok(());
        };
        log.push(group)
    }

    /// Sets the mark of a writer's log, and whether it takes more groups. With want of memory nothing changes.
    pub fn set(&mut self, writer: Writer, mark: u32, is_sealed: bool) -> Mem<()>
        ensures ok { OnOk result (self.new ≡ put self.old writer.0 (set_to (log_in self.old writer.0) mark is_sealed)) }
        ensures err { OnErr result (self.new ≡ self.old) }
    {
        set_in(&mut self.map, self.alloc, writer.0, mark, is_sealed)?;
        Ok(())
    }

    /// Closes the logs of all writers that aren't live. With want of memory nothing changes.
    pub fn close_all(&mut self, entries: &[RosterEntry]) -> Mem<()>
        ensures ok { OnOk result (self.new ≡ with_entries self.old entries.now) }
        ensures err { OnErr result (self.new ≡ self.old) }
    {
        self.map.reserve(entries.len())?;
        close_in(&mut self.map, self.alloc, entries);
        Ok(())
    }
}

fn set_in(
    map: &mut IndexMap<u32, WriterLog>,
    alloc: Global,
    writer: u32,
    mark: u32,
    is_sealed: bool,
) -> Mem<()>
    ensures ok { OnOk result (map.new.entries ≡ put map.old.entries writer (set_to (log_in map.old.entries writer) mark is_sealed)) }
    ensures err { OnErr result (map.new.entries ≡ map.old.entries) }
    ensures succeeds { 0 < spare map.old → IsOk result }
    ensures room { spare map.old ≤ spare map.new + 1 }
{
    if let Some(log) = map.get_mut(&writer) {
        log.set(mark, is_sealed);
        return Ok(());
    }
    let mut log = WriterLog::new(alloc);
    log.set(mark, is_sealed);
    map.insert(writer, log)?;
    Ok(())
}

/// There is room for as many new writers as there are entries.
fn close_in(map: &mut IndexMap<u32, WriterLog>, alloc: Global, entries: &[RosterEntry])
    requires { length entries.now ≤ spare map.old }
    ensures { map.new.entries ≡ with_entries map.old.entries entries.now }
{
    for entry in entries {
        close_entry(map, alloc, entry);
    }
}

/// There is room for one new writer.
#[tactic(auto, using(crate::proofs::LogsLemmas::of_ok))]
fn close_entry(map: &mut IndexMap<u32, WriterLog>, alloc: Global, entry: &RosterEntry)
    requires { 0 < spare map.old }
    ensures closed { map.new.entries ≡ with_state map.old.entries entry.now entry.now.state }
    ensures room { spare map.old ≤ spare map.new + 1 }
{
    match entry.state {
        WriterState::Live => {}
        WriterState::Closed | WriterState::Recovered => {
            let _ = set_in(map, alloc, entry.writer.0, entry.length, true);
        }
    }
}
