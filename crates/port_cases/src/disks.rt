//! Disks: what a crash leaves in each mode, calls that fail, and a file of the system.
use std::alloc::Global;
use std::test::Fail;
use tm_base::ByteList;
use tm_disks::{Disk, FileDisk, Fuse, MemoryDisk};
use tm_ports::{FailList, Failed};

// A synced file of three bytes, then a write over its end, and a cut.
fn changed(alloc: Global) -> Result<MemoryDisk, Fail> {
    let bytes = ByteList::from_slice(alloc, b"ab")?;
    let mut disk = MemoryDisk::new(alloc, bytes, FailList::new(alloc));
    disk.reserve(5, 4)?;
    let done = [
        disk.open(b"log"),
        disk.write_at(2, b"c"),
        disk.sync(),
        disk.write_at(2, b"XY"),
        disk.cut(1),
    ];
    match done {
        [Ok(()), Ok(()), Ok(()), Ok(()), Ok(())] => Ok(disk),
        _ => Err(Fail::from("a call failed")),
    }
}

#[test]
fn a_crash_leaves_what_its_mode_says(rt: HostRuntime) -> Result<(), Fail> {
    let table: [(u8, &[u8]); 3] = [(0, b"abc"), (1, b"a"), (2, &[b'a', b'b', 255, 255])];
    for (mode, wanted) in table.iter() {
        let mut disk = changed(rt.alloc())?;
        disk.crash(*mode);
        assert_eq!(rt; disk.bytes(), *wanted);
    }
    Ok(())
}

#[test]
fn named_calls_of_a_disk_fail(rt: HostRuntime) -> Result<(), Fail> {
    let alloc = rt.alloc();
    let fails = FailList::from_vec(vec![in alloc; 2, 4]?);
    let mut disk = MemoryDisk::new(alloc, ByteList::from_slice(alloc, b"abc")?, fails);
    let mut into = [0; 2];
    assert_eq!(rt; disk.size(), Ok(3));
    assert_eq!(rt; disk.read(1, &mut into), Err(Failed));
    assert_eq!(rt; disk.read(1, &mut into), Ok(2));
    assert_eq!(rt; into.as_slice(), b"bc".as_slice());
    disk.fail_at(3);
    assert_eq!(rt; disk.size(), Err(Failed));
    assert_eq!(rt; disk.read(2, &mut into), Ok(1));
    assert_eq!(rt; disk.size(), Err(Failed));
    assert_eq!(rt; disk.faults(), 3);
    Ok(())
}

#[test]
fn a_fuse_passes_so_many_calls_on(rt: HostRuntime) -> Result<(), Fail> {
    let alloc = rt.alloc();
    let disk = MemoryDisk::new(
        alloc,
        ByteList::from_slice(alloc, b"abc")?,
        FailList::new(alloc),
    );
    let mut fuse = Fuse::new(disk, 2);
    fuse.reserve(4, 3)?;
    assert_eq!(rt; fuse.open(b"log"), Ok(()));
    assert_eq!(rt; fuse.write_at(3, b"d"), Ok(()));
    assert_eq!(rt; fuse.cut(0), Err(Failed));
    assert_eq!(rt; fuse.sync(), Err(Failed));
    assert_eq!(rt; fuse.faults(), 2);
    assert_eq!(rt; fuse.into_disk().bytes(), b"abcd".as_slice());
    Ok(())
}

#[test]
fn a_file_of_the_system_is_a_disk(rt: HostRuntime) -> Result<(), Fail> {
    let mut disk = FileDisk::new(&rt);
    let mut into = [0; 4];
    assert_eq!(rt; disk.size(), Err(Failed));
    assert_eq!(rt; disk.open(b"disk.test"), Ok(()));
    disk.reserve(3, 3)?;
    assert_eq!(rt; disk.cut(0), Ok(()));
    assert_eq!(rt; disk.write_at(0, b"abc"), Ok(()));
    assert_eq!(rt; disk.sync(), Ok(()));

    let mut again = FileDisk::new(&rt);
    assert_eq!(rt; again.open(b"disk.test"), Ok(()));
    assert_eq!(rt; again.size(), Ok(3));
    assert_eq!(rt; again.read(1, &mut into), Ok(2));
    assert_eq!(rt; into.as_slice(), b"bc\0\0".as_slice());
    assert_eq!(rt; (disk.faults(), again.faults()), (1, 0));
    Ok(())
}
