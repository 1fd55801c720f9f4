//! Journals: what files open to, what a failed append leaves, and a file of the system.
ghost use Rattle.std.specs.Prelude.{◌≤◌};

use journal_core::{AppendError, Journal, OpenError, Unopened};
use std::alloc::Global;
use std::test::Fail;
use tm_base::ByteList;
use tm_disks::{Disk, FileDisk, Fuse, MemoryDisk};
use tm_ports::FailList;

fn disk_of(alloc: Global, bytes: &[u8]) -> Result<MemoryDisk, Fail> {
    let bytes = ByteList::from_slice(alloc, bytes)?;
    Ok(MemoryDisk::new(alloc, bytes, FailList::new(alloc)))
}

fn journal_of<D: Disk + Drop>(alloc: Global, disk: D) -> Result<Journal<D>, Fail> {
    match Journal::open(alloc, disk, b"journal") {
        Ok(journal) => Ok(journal),
        Err(_) => Err(Fail::from("a journal was not opened")),
    }
}

#[test]
fn files_open_to_their_records(rt: HostRuntime) -> Result<(), Fail> {
    // The file, how many records it has, and the file then.
    let table: [(&[u8], usize, &[u8]); 6] = [
        (&[], 0, &[0]),
        (&[5], 0, &[0]),
        (&[1], 0, &[0]),
        (&[0, 255, 255], 0, &[0]),
        (&[1, 0, 0, 0, 0, 0], 1, &[1, 0, 0, 0, 0, 0]),
        (&[1, 0, 0, 0, 1, 9, 7, 1], 1, &[1, 0, 0, 0, 1, 9, 7]),
    ];
    let alloc = rt.alloc();
    for (file, count, wanted) in table.iter() {
        let journal = journal_of(alloc, disk_of(alloc, *file)?)?;
        assert_eq!(rt; journal.count(), *count);
        assert_eq!(rt; journal.into_disk().bytes(), *wanted);
    }
    Ok(())
}

#[test]
fn damage_is_named_with_its_place(rt: HostRuntime) -> Result<(), Fail> {
    let table: [(&[u8], u64); 5] = [
        (&[1, 0, 0, 0], 0),
        (&[1, 255, 255, 255, 255], 0),
        (&[1, 0, 0, 0, 0], 0),
        (&[1, 0, 0, 0, 0, 1], 5),
        (&[1, 0, 0, 0, 2, 7, 8, 1, 0, 0, 0, 3, 9], 7),
    ];
    let alloc = rt.alloc();
    for (file, at) in table.iter() {
        match Journal::open(alloc, disk_of(alloc, *file)?, b"journal") {
            Ok(_) => return Err(Fail::from("a damaged file was opened")),
            Err(Unopened { disk, error }) => {
                assert_eq!(rt; error, OpenError::Damaged { at: *at });
                assert_eq!(rt; disk.bytes(), *file);
            }
        }
    }
    Ok(())
}

// How many records there are after an append whose call of this number fails, and a crash in that mode.
fn left_after(alloc: Global, call: u32, mode: u8) -> Result<usize, Fail>
    requires call { 1 ≤ call }
    requires mode { mode ≤ 2 }
{
    let mut journal = journal_of(alloc, disk_of(alloc, &[])?)?;
    journal.reserve(1)?;
    if journal.append(b"a").is_err() {
        return Err(Fail::from("a record was not appended"));
    }
    journal.fail_at(call);
    journal.reserve(2)?;
    let fault = journal.append(b"bc");
    journal.reserve(2)?;
    let failed = [fault, journal.append(b"bc")];
    if failed != [Err(AppendError::DiskFault), Err(AppendError::Closed)] {
        return Err(Fail::from("a fault was not answered"));
    }
    let mut disk = journal.into_disk();
    disk.crash(mode);
    let again = journal_of(alloc, disk)?;
    Ok(again.count())
}

#[test]
fn a_failed_append_counts_only_once_its_gate_is_open(rt: HostRuntime) -> Result<(), Fail> {
    for call in 1u32..5 {
        for mode in 0u8..3 {
            let wanted: usize = if mode == 1 && call >= 3 { 2 } else { 1 };
            assert_eq!(rt; left_after(rt.alloc(), call, mode)?, wanted);
        }
    }
    Ok(())
}

// Appends three records behind a fuse of so many calls, and answers how many were acknowledged and how
// many are there when the file is opened again.
fn behind_a_fuse(alloc: Global, calls: u32) -> Result<(usize, usize), Fail>
    requires { calls ≤ 12 }
{
    let settled = journal_of(alloc, disk_of(alloc, &[])?)?;
    // An opening makes six calls.
    let mut journal = journal_of(alloc, Fuse::new(settled.into_disk(), calls + 6))?;
    let mut acknowledged: usize = 0;
    for _ in 0u8..3 {
        journal.reserve(4)?;
        if journal.append(b"text").is_ok() {
            acknowledged = acknowledged.saturating_add(1);
        }
    }
    let again = journal_of(alloc, journal.into_disk().into_disk())?;
    Ok((acknowledged, again.count()))
}

#[test]
fn what_was_acknowledged_is_there(rt: HostRuntime) -> Result<(), Fail> {
    for calls in 0u32..13 {
        let (acknowledged, count) = behind_a_fuse(rt.alloc(), calls)?;
        assert_eq!(rt; acknowledged, calls as usize / 4);
        assert_eq!(rt; count, (calls as usize + 1) / 4);
    }
    Ok(())
}

#[test]
fn a_file_of_the_system_is_opened_again(rt: HostRuntime) -> Result<(), Fail> {
    let alloc = rt.alloc();
    let mut disk = FileDisk::new(&rt);
    assert_eq!(rt; disk.open(b"journal"), Ok(()));
    disk.reserve(0, 1)?;
    assert_eq!(rt; disk.cut(0), Ok(()));
    let mut journal = journal_of(alloc, disk)?;
    assert_eq!(rt; journal.count(), 0);
    journal.reserve(3)?;
    assert_eq!(rt; journal.append(b"abc"), Ok(()));
    let again = journal_of(alloc, FileDisk::new(&rt))?;
    assert_eq!(rt; again.count(), 1);
    assert_eq!(rt; again.body(0), b"abc".as_slice());
    Ok(())
}
