//! The journal.
ghost use Rattle.std.specs.Prelude.{◌≡◌, ◌+◌, ◌<◌, ◌≤◌, List, ℕ, IsTrue, false};
ghost use Rattle.journal_core.specs.Inside.{IsAtRest};

use crate::loading::load;
use crate::parse::Parsed;
use crate::writing::write_record;
use crate::{AppendError, OpenError, Unopened};
use std::alloc::Global;
use tm_base::{ByteList, Mem, NoMemory};
use tm_disks::Disk;

/// A list of records on a disk. After a crash at any moment the file opens to each record that was
/// acknowledged, in order, and perhaps the one that was under way.
#[derive(Drop)]
pub struct Journal<D: Disk> {
    disk: D,
    bodies: Vec<ByteList>,
    end: u64,
    buffer: Vec<u8>,
    is_closed: bool,
    ghost rest: { IsTrue (D.Disk.tells disk) → is_closed ≡ false → IsAtRest (D.Disk.seen disk) end },
    ghost durable: { IsTrue (D.Disk.tells disk) → is_closed ≡ false → (c : List ℕ) → D.Disk.may_leave disk c → c ≡ D.Disk.seen disk },
}

impl<D: Disk> Journal<D> {
    ghost use Rattle.std.specs.Prelude.{◌⊎◌, ◌↔◌, ◌++◌, ◌∷◌, [], true, Ok, Err, IsErr, length, get_or, IfOk, OnOk, OnErr, IfErr};
    ghost use Rattle.tm_disks.specs.Disk.{Only, LeavesOnly, with_named};
    ghost use Rattle.journal_core.specs.Cause.{HasAppendCause, OpenCause, Says};
    ghost use Rattle.journal_core.specs.Journal.{disk_of, records_of, is_shut, CanTake, left_disk, end_of};
    ghost use Rattle.journal_core.specs.Reading.{IsBeforeOrAfter, bodies_in, kept, max_body, opened, with_record};
    ghost use Rattle.journal_core.specs.Steps.{Rests};
    ghost use Rattle.journal_core.specs.declared.error.AppendError.TheVariants.{Closed};

    /// Opens the journal in the file of this name: what follows its end gate is cut, and of a file of at
    /// most one byte it makes a new journal.
    ///
    /// # Errors
    ///
    /// `DiskFault` where the disk failed, `Damaged` with the offset where the file has no reading, and
    /// `NoMemory`. The disk is handed back, and no record of its file has changed.
    pub fn open(alloc: Global, disk: D, name: &[u8]) -> Result<Journal<D>, Unopened<D>>
        ensures records { IsTrue (D.tells disk) → IfOk result (λ j. opened (D.seen disk) ≡ Ok (records_of j)) }
        ensures file { IsTrue (D.tells disk) → IfOk result (λ j. D.seen (disk_of j) ≡ kept (D.seen disk) (end_of j)) }
        ensures same { IsTrue (D.tells disk) → IfOk result (λ j. opened (D.seen (disk_of j)) ≡ Ok (records_of j)) }
        ensures durable { IsTrue (D.tells disk) → IfOk result (λ j. Only (D.seen (disk_of j)) (D.may_leave (disk_of j))) }
        ensures usable { IfOk result (λ j. is_shut j ≡ false) }
        ensures refused { IsTrue (D.tells disk) → IfErr result (λ e. Says e.error (opened (D.seen disk))) }

        // A crash at any moment of the call leaves what it might have left before, or a file that opens to the same.
        ensures any_moment { IsTrue (D.tells disk) → LeavesOnly D.moment D.left_since disk (left_disk result) (λ c. D.may_leave disk c ⊎ (opened c ≡ opened (D.seen disk))) }
        ensures tells { D.tells (left_disk result) ≡ D.tells disk }
        ensures later { D.count disk ≤ D.count (left_disk result) }
        ensures cause { IfErr result (λ e. OpenCause e.error (D.count disk) (D.count e.disk)) }
    {
        let mut disk = disk;
        let loaded = match load(alloc, &mut disk, name) {
            Ok(loaded) => loaded,
            Err(error) => return Err(Unopened { disk, error }),
        };
        let Parsed { bodies, end } = loaded;
        Ok(Journal {
            disk,
            bodies,
            end: end as u64,
            buffer: Vec::new(alloc),
            is_closed: false,
        })
    }

    /// Gives the disk back.
    pub fn into_disk(self) -> D
        ensures { result ≡ disk_of self }
    {
        let Journal { disk, .. } = self;
        disk
    }

    /// How many records there were when the journal was opened.
    pub fn count(&self) -> usize
        ensures { result ≡ length (records_of self.now) }
    {
        self.bodies.len()
    }

    /// The body of one of the records that there were when the journal was opened, from 0 on.
    pub fn body(&self, i: usize) -> &[u8]
        requires { i < length (records_of self.now) }
        ensures { result.now ≡ get_or (records_of self.now) i [] }
    {
        self.bodies[i].as_slice()
    }

    /// Makes room, in memory and on the disk, for the next append of a body of at most so many bytes. Of
    /// the file nothing changes.
    pub fn reserve(&mut self, longest: usize) -> Mem<()>
        ensures room { OnOk result ((n : ℕ) → n ≤ longest → CanTake self.new n) }
        ensures rests { Rests D.seen D.may_leave D.moment D.left_since (disk_of self.old) (disk_of self.new) }
        ensures records { records_of self.new ≡ records_of self.old }
        ensures end { end_of self.new ≡ end_of self.old }
        ensures state { is_shut self.new ≡ is_shut self.old }
        ensures tells { D.tells (disk_of self.new) ≡ D.tells (disk_of self.old) }
        ensures count { D.count (disk_of self.new) ≡ D.count (disk_of self.old) }
    {
        let staged = longest.checked_add(5).ok_or(NoMemory)?;
        let behind = (longest as u64).checked_add(6).ok_or(NoMemory)?;
        let size = self.end.checked_add(behind).ok_or(NoMemory)?;
        self.buffer.clear();
        self.buffer.reserve(staged)?;
        self.disk.reserve(size, 4)?;
        Ok(())
    }

    /// Adds a record. At `Ok` it is acknowledged: each crash leaves a file that has it. It takes no memory
    /// and makes at most four calls of the disk.
    ///
    /// # Errors
    ///
    /// `DiskFault` where the disk failed: the record is there or not, and the journal is to be opened again.
    /// `Closed` where an earlier append failed; nothing changes then.
    pub fn append(&mut self, body: &[u8]) -> Result<(), AppendError>
        requires short { length body.now ≤ max_body }
        requires room { is_shut self.old ≡ false → CanTake self.old (length body.now) }
        ensures closed { (result ≡ Err Closed) ↔ (is_shut self.old ≡ true) }
        ensures state { IsErr result ↔ (is_shut self.new ≡ true) }
        ensures untouched { is_shut self.old ≡ true → disk_of self.new ≡ disk_of self.old }
        ensures file { IsTrue (D.tells (disk_of self.old)) → OnOk result (D.seen (disk_of self.new) ≡ with_record (D.seen (disk_of self.old)) body.now) }
        ensures acknowledged { IsTrue (D.tells (disk_of self.old)) → OnOk result (opened (D.seen (disk_of self.new)) ≡ Ok (bodies_in (D.seen (disk_of self.old)) ++ body.now ∷ [])) }
        ensures durable { IsTrue (D.tells (disk_of self.old)) → OnOk result (Only (D.seen (disk_of self.new)) (D.may_leave (disk_of self.new))) }

        // A crash at any moment of the call leaves the records from before it, with the new one or without.
        ensures any_moment { IsTrue (D.tells (disk_of self.old)) → is_shut self.old ≡ false
            → LeavesOnly D.moment D.left_since (disk_of self.old) (disk_of self.new) (IsBeforeOrAfter (bodies_in (D.seen (disk_of self.old))) body.now) }
        ensures records { records_of self.new ≡ records_of self.old }
        ensures tells { D.tells (disk_of self.new) ≡ D.tells (disk_of self.old) }
        ensures cause { HasAppendCause (D.count (disk_of self.old)) (D.count (disk_of self.new)) result }
    {
        if self.is_closed {
            return Err(AppendError::Closed);
        }
        self.is_closed = true;
        write_record(&mut self.disk, self.end, &mut self.buffer, body)?;
        self.end += 5 + body.len() as u64;
        self.is_closed = false;
        Ok(())
    }

    /// The k-th call of the disk from now on is to fail, where the disk can fail on demand.
    pub fn fail_at(&mut self, k: u32)
        requires { 1 ≤ k }
        ensures rests { Rests D.seen D.may_leave D.moment D.left_since (disk_of self.old) (disk_of self.new) }
        ensures records { records_of self.new ≡ records_of self.old }
        ensures end { end_of self.new ≡ end_of self.old }
        ensures state { is_shut self.new ≡ is_shut self.old }
        ensures room { (n : ℕ) → CanTake self.old n → CanTake self.new n }
        ensures tells { D.tells (disk_of self.new) ≡ D.tells (disk_of self.old) }
        ensures plan { D.failing (disk_of self.new) ≡ with_named (D.failing (disk_of self.old)) k }
        ensures count { D.count (disk_of self.new) ≡ D.count (disk_of self.old) }
    {
        self.disk.fail_at(k);
    }
}
