//! Opening the file of a journal: nothing is pending then, and nothing follows its end gate.
ghost use Rattle.std.specs.Prelude.{Ok, ◌^◌, ◌≡◌, ◌⊎◌, ◌+◌, ◌<◌, ◌≤◌, IsTrue, List, ℕ, [], ◌∷◌, length, take, IfOk, OnOk, IfErr};
ghost use Rattle.tm_disks.specs.Disk.{Only, LeavesOnly};
ghost use Rattle.tm_ports.specs.Faults.{HasCause};
ghost use Rattle.journal_core.specs.Cause.{HasOpenCause, Says};
ghost use Rattle.journal_core.specs.Inside.{IsAtRest, IsParsed, IsLoaded};
ghost use Rattle.journal_core.specs.Reading.{kept, opened, bodies_in};
ghost use Rattle.journal_core.specs.Steps.{Rests};

use crate::OpenError;
use crate::parse::{Parsed, parse};
use crate::steps::{cut_synced, write_synced};
use std::alloc::Global;
use tm_disks::Disk;

// Opens the file, and syncs, so that nothing is pending.
fn ready<D: Disk>(disk: &mut D, name: &[u8]) -> Result<(), OpenError>
    ensures rests { Rests D.seen D.may_leave D.moment D.left_since disk.old disk.new }
    ensures durable { IsTrue (D.tells disk.old) → OnOk result (Only (D.seen disk.old) (D.may_leave disk.new)) }
    ensures tells { D.tells disk.new ≡ D.tells disk.old }
    ensures refused { IfErr result (λ e. Says e (opened (D.seen disk.old))) }
    ensures cause { HasOpenCause (D.count disk.old) (D.count disk.new) result }
{
    disk.open(name)?;
    disk.reserve(0, 1)?;
    disk.sync()?;
    Ok(())
}

// Reads the whole file.
fn fetch<D: Disk>(alloc: Global, disk: &mut D) -> Result<Vec<u8>, OpenError>
    ensures bytes { IsTrue (D.tells disk.old) → IfOk result (λ bytes. bytes.items ≡ D.seen disk.old) }
    ensures rests { Rests D.seen D.may_leave D.moment D.left_since disk.old disk.new }
    ensures tells { D.tells disk.new ≡ D.tells disk.old }
    ensures refused { IfErr result (λ e. Says e (opened (D.seen disk.old))) }
    ensures cause { HasOpenCause (D.count disk.old) (D.count disk.new) result }
{
    let size = disk.size()?;
    let mut bytes = vec![in alloc; 0; size as usize]?;
    let count = disk.read(0, &mut bytes)?;
    bytes.truncate(count);
    Ok(bytes)
}

// Makes a new journal of a file of at most one byte.
fn begin<D: Disk>(disk: &mut D) -> Result<(), OpenError>
    requires small { IsTrue (D.tells disk.old) → length (D.seen disk.old) ≤ 1 }
    requires settled { IsTrue (D.tells disk.old) → Only (D.seen disk.old) (D.may_leave disk.old) }
    ensures file { IsTrue (D.tells disk.old) → OnOk result (D.seen disk.new ≡ 0 ∷ []) }
    ensures durable { IsTrue (D.tells disk.old) → OnOk result (Only (D.seen disk.new) (D.may_leave disk.new)) }
    ensures any_moment { IsTrue (D.tells disk.old) → LeavesOnly D.moment D.left_since disk.old disk.new (λ c. opened c ≡ opened (D.seen disk.old)) }
    ensures tells { D.tells disk.new ≡ D.tells disk.old }
    ensures refused { IfErr result (λ e. Says e (opened (D.seen disk.old))) }
    ensures cause { HasOpenCause (D.count disk.old) (D.count disk.new) result }
{
    disk.reserve(1, 2)?;
    write_synced(disk, 0, &[0])?;
    Ok(())
}

// Cuts what follows the end gate.
fn trim<D: Disk>(disk: &mut D, parsed: &Parsed) -> Result<(), OpenError>
    requires gate { IsTrue (D.tells disk.old) → IsParsed (D.seen disk.old) parsed.now.bodies.items parsed.now.end }
    requires place { parsed.now.end + 1 < 2 ^ 64 }
    requires settled { IsTrue (D.tells disk.old) → Only (D.seen disk.old) (D.may_leave disk.old) }
    ensures file { IsTrue (D.tells disk.old) → OnOk result (D.seen disk.new ≡ take (parsed.now.end + 1) (D.seen disk.old)) }
    ensures durable { IsTrue (D.tells disk.old) → OnOk result (Only (D.seen disk.new) (D.may_leave disk.new)) }
    ensures any_moment { IsTrue (D.tells disk.old) → LeavesOnly D.moment D.left_since disk.old disk.new (λ c. opened c ≡ opened (D.seen disk.old)) }
    ensures tells { D.tells disk.new ≡ D.tells disk.old }
    ensures refused { IfErr result (λ e. Says e (opened (D.seen disk.old))) }
    ensures cause { HasOpenCause (D.count disk.old) (D.count disk.new) result }
{
    let size = parsed.end as u64 + 1;
    disk.reserve(size, 2)?;
    cut_synced(disk, size)?;
    Ok(())
}

// Leaves the file at rest: what follows its end gate is cut, or it is a new journal.
fn settle<D: Disk>(disk: &mut D, bytes: &[u8], parsed: &Parsed) -> Result<(), OpenError>
    requires same { IsTrue (D.tells disk.old) → bytes.now ≡ D.seen disk.old }
    requires opens { opened bytes.now ≡ Ok parsed.now.bodies.items }
    requires gate { 2 ≤ length bytes.now → IsParsed bytes.now parsed.now.bodies.items parsed.now.end }
    requires new { length bytes.now ≤ 1 → parsed.now.end ≡ 0 }
    requires settled { IsTrue (D.tells disk.old) → Only (D.seen disk.old) (D.may_leave disk.old) }
    ensures loaded { IsTrue (D.tells disk.old) → OnOk result (IsLoaded (D.seen disk.old) (D.seen disk.new) parsed.now.bodies.items parsed.now.end) }
    ensures durable { IsTrue (D.tells disk.old) → OnOk result (Only (D.seen disk.new) (D.may_leave disk.new)) }
    ensures any_moment { IsTrue (D.tells disk.old) → LeavesOnly D.moment D.left_since disk.old disk.new (λ c. opened c ≡ opened (D.seen disk.old)) }
    ensures tells { D.tells disk.new ≡ D.tells disk.old }
    ensures refused { IfErr result (λ e. Says e (opened (D.seen disk.old))) }
    ensures cause { HasOpenCause (D.count disk.old) (D.count disk.new) result }
{
    if bytes.len() < 2 {
        begin(disk)?;
    } else {
        trim(disk, parsed)?;
    }
    Ok(())
}

/// Opens the file of this name, and gives its records.
pub(crate) fn load<D: Disk>(alloc: Global, disk: &mut D, name: &[u8]) -> Result<Parsed, OpenError>
    ensures loaded { IsTrue (D.tells disk.old) → IfOk result (λ p. IsLoaded (D.seen disk.old) (D.seen disk.new) p.bodies.items p.end) }
    ensures durable { IsTrue (D.tells disk.old) → OnOk result (Only (D.seen disk.new) (D.may_leave disk.new)) }
    ensures refused { IsTrue (D.tells disk.old) → IfErr result (λ e. Says e (opened (D.seen disk.old))) }
    ensures any_moment { IsTrue (D.tells disk.old) → LeavesOnly D.moment D.left_since disk.old disk.new (λ c. D.may_leave disk.old c ⊎ (opened c ≡ opened (D.seen disk.old))) }
    ensures tells { D.tells disk.new ≡ D.tells disk.old }
    ensures cause { HasOpenCause (D.count disk.old) (D.count disk.new) result }
{
    ready(disk, name)?;
    let bytes = fetch(alloc, disk)?;
    let parsed = parse(alloc, &bytes)?;
    settle(disk, &bytes, &parsed)?;
    Ok(parsed)
}
