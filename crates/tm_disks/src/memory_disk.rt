//! A file in memory, which can be made to fail and to crash.
ghost use Rattle.std.specs.Prelude.{◌≡◌, ◌-◌, ◌≤◌, [], true, length, Some};
ghost use Rattle.std.proofs.Common.{inl, refl};
ghost use Rattle.tm_disks.specs.Disk.{Obeys, fails_next, has_next, is_next, one_lower};
ghost use Rattle.tm_ports.specs.Faults.{HasCause};
ghost use Rattle.tm_disks.specs.MemoryDisk.{MemoryFile, DiskCalls, Leaves, HadLeft, coming, failing_of, seen_in, left_in};
ghost use Rattle.tm_disks.specs.MemoryPast.{counts, counts_alone};

use crate::Disk;
use crate::stored::Stored;
use std::alloc::Global;
use std::marker::Model;
use tm_base::{ByteList, Mem};
use tm_ports::{FailList, Failed};

/// The calls of a disk that were made, those that failed, and those that are to fail.
#[derive(Debug, Drop)]
struct DiskPlan {
    made: u64,
    failed: u64,
    fails: FailList,
    named: Option<u32>,
}

impl Model for DiskPlan {
    ghost Value = { DiskCalls };

    ghost view = { λ p. record { made = p.made; failed = p.failed; fails = p.fails; named = p.named } };
}

impl DiskPlan {
    /// Whether the next call is one of those listed.
    fn is_listed(&self) -> bool
        ensures { result ≡ has_next (coming self.now.fails self.now.made) }
    {
        match self.made.checked_add(1) {
            Some(call) => self.fails.names(call),
            None => false,
        }
    }

    /// Whether the next call fails.
    fn fails_next(&self) -> bool
        ensures { result ≡ fails_next (failing_of self.now) }
    {
        is_now(self.named) || self.is_listed()
    }

    /// Counts a call, and answers whether it fails.
    fn answer(&mut self) -> Result<(), Failed>
        ensures plan { Obeys (Some (failing_of self.old)) (Some (failing_of self.new)) result }
        ensures cause { HasCause self.old.failed self.new.failed result }
    {
        let fails = self.fails_next();
        self.made = self.made.saturating_add(1);
        self.named = lower(self.named);
        if fails {
            self.failed = self.failed.saturating_add(1);
            return Err(Failed);
        }
        Ok(())
    }
}

// Whether the next call is the one that was named.
fn is_now(named: Option<u32>) -> bool
    ensures { result ≡ is_next named }
{
    match named {
        Some(number) => number == 1,
        None => false,
    }
}

// The number of a call, one call later.
fn lower(named: Option<u32>) -> Option<u32>
    ensures { result ≡ one_lower named }
{
    match named {
        Some(number) if number > 1 => Some(number - 1),
        _ => None,
    }
}

/// A disk with one file, in memory.
///
/// It keeps each change with what it overwrote. So it tells what a crash may leave, now and at each
/// moment since it was made or since its last crash. A call that is to fail fails after its work: a
/// write or a cut is made, a sync is not.
///
/// Contracts see the file, its past and the calls.
#[derive(Debug, Drop)]
pub struct MemoryDisk {
    content: Stored,
    plan: DiskPlan,
}

impl Model for MemoryDisk {
    ghost use Rattle.tm_disks.specs.MemoryDisk.{MemoryFile};

    ghost Value = { MemoryFile };

    ghost view = { λ m. record { file = m.content.file; past = m.content.past; calls = m.plan } };
}

impl MemoryDisk {
    ghost use Rattle.tm_disks.specs.MemoryDisk.{new_file};

    /// A disk with a file of these bytes, of which the calls fail that the list names, counted from 1.
    pub fn new(alloc: Global, bytes: ByteList, fails: FailList) -> MemoryDisk
        ensures { result ≡ new_file bytes fails }
    {
        MemoryDisk {
            content: Stored::new(alloc, bytes),
            plan: DiskPlan {
                made: 0,
                failed: 0,
                fails,
                named: None,
            },
        }
    }

    /// The file's bytes, as a read gives them.
    pub fn bytes(&self) -> &[u8]
        ensures { result.now ≡ seen_in self.now.file }
    {
        self.content.bytes()
    }

    /// The machine stops and comes back. In mode 0 no change since the last sync is left, in mode 1 each
    /// is, and in mode 2 the places that were written since have the byte 255, and no cut is made.
    pub fn crash(&mut self, mode: u8)
        requires { mode ≤ 2 }
        ensures left { seen_in self.new.file ≡ left_in mode self.old.past.changes self.old.file }
        ensures past { self.new.past.changes ≡ [] }
        ensures calls { self.new.calls ≡ self.old.calls }
    {
        match mode {
            0 => self.content.take_back(),
            1 => {}
            _ => self.content.fill_all(),
        }
        self.content.forget();
    }
}

impl Disk for MemoryDisk {
    ghost tells = { λ _. true };

    ghost seen = { λ m. seen_in m.file };

    ghost may_leave = { λ m. Leaves m.past.changes m.file };

    ghost moment = { λ m. length m.past.changes };

    ghost left_since = { λ m t. HadLeft (length m.past.changes - t) m.past.changes m.file };

    ghost count = { λ m. m.calls.failed };

    ghost failing = { λ m. Some (failing_of m.calls) };

    ghost room = { λ m. m.past.room };

    ghost seen_may_stay = { λ m. inl refl };

    ghost counts_now = { λ m t c le now. counts (length m.past.changes - t) m.past.changes m.file c now };

    ghost only_now = { λ m c left. counts_alone m.past.changes m.file c left };

    fn faults(&self) -> u64 {
        self.plan.failed
    }

    fn open(&mut self, _name: &[u8]) -> Result<(), Failed> {
        self.plan.answer()?;
        Ok(())
    }

    fn size(&mut self) -> Result<u64, Failed> {
        self.plan.answer()?;
        Ok(self.content.bytes().len() as u64)
    }

    fn read(&mut self, at: u64, into: &mut [u8]) -> Result<usize, Failed> {
        self.plan.answer()?;
        let bytes = self.content.bytes();
        let (_, rest) = bytes.split_at(bytes.len().min(at as usize));
        let count = into.len().min(rest.len());
        into[..count].copy_from_slice(&rest[..count]);
        Ok(count)
    }

    fn reserve(&mut self, size: u64, changes: u32) -> Mem<()> {
        self.content.reserve(size as usize, changes)?;
        Ok(())
    }

    fn write_at(&mut self, at: u64, bytes: &[u8]) -> Result<(), Failed> {
        self.content.write(at as usize, bytes);
        self.plan.answer()?;
        Ok(())
    }

    fn cut(&mut self, size: u64) -> Result<(), Failed> {
        self.content.cut(size as usize);
        self.plan.answer()?;
        Ok(())
    }

    fn sync(&mut self) -> Result<(), Failed> {
        self.plan.answer()?;
        self.content.note_sync();
        Ok(())
    }

    fn fail_at(&mut self, k: u32) {
        self.plan.named = Some(k);
    }
}
