//! A file in memory with its past.
ghost use Rattle.std.specs.Prelude.{◌≡◌, ◌+◌, ◌-◌, ◌++◌, [], length, replicate, OnOk, OnErr};
ghost use Rattle.tm_disks.specs.Disk.{HasRoom};
ghost use Rattle.tm_disks.specs.MemoryDisk.{Content, new_content, seen_in, synced, filled, put, wrote, cut_to, was_synced, IsWhole, Padded};

use crate::history::History;
use std::alloc::Global;
use std::marker::Model;
use tm_base::{ByteList, Mem};

// Puts bytes over those that are stored from `at` on, as far as there are any.
fn overwrite(store: &mut [u8], at: usize, bytes: &[u8])
    ensures { store.new ≡ put store.old at bytes.now }
{
    let start = at.min(store.len());
    let count = bytes.len().min(store.len() - start);
    store[start..start + count].copy_from_slice(&bytes[..count]);
}

// Puts the byte 255 over so many stored bytes from `at` on, as far as there are any.
fn fill(store: &mut [u8], at: usize, count: usize)
    ensures { store.new ≡ put store.old at (replicate count 255) }
{
    let start = at.min(store.len());
    let end = start + count.min(store.len() - start);
    store[start..end].fill(255);
}

// Stores at least so many bytes.
fn grow(store: &mut Vec<u8>, size: usize) -> Mem<()>
    ensures ok { OnOk result (store.new.items ≡ store.old.items ++ replicate (size - length store.old.items) 0) }
    ensures err { OnErr result (store.new.items ≡ store.old.items) }
{
    let more = size.max(store.len());
    store.resize(more, 0)?;
    Ok(())
}

/// The bytes of a file, and each change that was made of them.
///
/// Contracts see the file, with what is stored behind its end, and its past.
#[derive(Debug, Drop)]
pub(crate) struct Stored {
    store: Vec<u8>,
    size: usize,
    history: History,
}

impl Model for Stored {
    ghost use Rattle.tm_disks.specs.MemoryDisk.{Content, IsWhole};

    ghost Value = { Content };

    ghost view = { λ m. record { file = record { store = m.store.items; size = m.size }; past = m.history } };

    ghost invariant = { λ m. IsWhole (record { store = m.store.items; size = m.size }) m.history };
}

impl Stored {
    /// A file of these bytes, of which nothing is known before.
    pub(crate) fn new(alloc: Global, bytes: ByteList) -> Stored
        ensures { result ≡ new_content bytes }
    {
        let store = bytes.into_vec();
        Stored {
            size: store.len(),
            store,
            history: History::new(alloc),
        }
    }

    /// The file's bytes.
    pub(crate) fn bytes(&self) -> &[u8]
        ensures { result.now ≡ seen_in self.now.file }
    {
        let (bytes, _) = self.store.split_at(self.size);
        bytes
    }

    /// Makes room for so many changes up to that size. With want of memory there is the room of before.
    pub(crate) fn reserve(&mut self, size: usize, changes: u32) -> Mem<()>
        ensures ok { OnOk result (self.new.past.room ≡ record { size = size; changes = changes }) }
        ensures err { OnErr result (self.new.past.room ≡ self.old.past.room) }
        ensures same { Padded self.old self.new }
        ensures whole { IsWhole self.old.file self.old.past }
    {
        grow(&mut self.store, size)?;
        self.history.reserve(size, changes)?;
        Ok(())
    }

    /// Writes bytes.
    pub(crate) fn write(&mut self, at: usize, bytes: &[u8])
        requires { HasRoom (at + length bytes.now) 1 self.old.past.room }
        ensures value { self.new ≡ wrote at bytes.now self.old }
        ensures whole { IsWhole self.old.file self.old.past }
    {
        let (_, rest) = self.store.split_at(at);
        let (old, _) = rest.split_at(bytes.len());
        self.history.note(at, old, self.size, false);
        overwrite(&mut self.store, at, bytes);
        self.size = self.size.max(at + bytes.len());
    }

    /// Cuts the file.
    pub(crate) fn cut(&mut self, size: usize)
        requires { HasRoom size 1 self.old.past.room }
        ensures value { self.new ≡ cut_to size self.old }
        ensures whole { IsWhole self.old.file self.old.past }
    {
        self.history.note(0, &[], self.size, false);
        self.size = size;
    }

    /// Notes that all of the file is on the disk.
    pub(crate) fn note_sync(&mut self)
        requires { HasRoom 0 1 self.old.past.room }
        ensures { self.new ≡ was_synced self.old }
    {
        self.history.note(0, &[], self.size, true);
    }

    /// Takes back what was changed since the last sync.
    pub(crate) fn take_back(&mut self)
        ensures { seen_in self.new.file ≡ synced self.old.past.changes self.old.file }
    {
        while let Some(mark) = self.history.newest() {
            if mark.is_sync {
                return;
            }
            overwrite(&mut self.store, mark.at, self.history.overwritten());
            self.size = mark.size;
            self.history.forget();
        }
    }

    /// Fills the places that were written since the last sync.
    pub(crate) fn fill_all(&mut self)
        ensures { seen_in self.new.file ≡ filled self.old.past.changes self.old.file }
    {
        while let Some(mark) = self.history.newest() {
            if mark.is_sync {
                return;
            }
            fill(&mut self.store, mark.at, mark.span);
            self.size = self.size.max(mark.size);
            self.history.forget();
        }
    }

    /// Forgets the past.
    pub(crate) fn forget(&mut self)
        ensures file { self.new.file ≡ self.old.file }
        ensures past { self.new.past.changes ≡ [] }
    {
        self.history.clear();
    }
}
