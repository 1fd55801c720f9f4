//! Groups and their parts: what comes back, and the first fault with its place.
use log_record::{decode, decode_part, encode, encode_part};
use std::alloc::{AllocError, Global};
use std::test::*;
use wire_fields::ReadError;

/// Writer 1, sequence number 1, stamp 1, nothing learnt, and the row of key 6b in table 1 on page 1 by
/// transaction 1.1, now 76, before none.
const GROUP: [u8; 50] = [
    0, 0, 0, 1, 0, 0, 0, 1, 0, 0, 0, 0, 0, 0, 0, 1, 0, 0, 0, 1, 1, 0, 0, 0, 1, 0, 0, 0, 0, 0, 0, 0,
    0, 0, 1, 1, 107, 0, 0, 0, 1, 0, 0, 0, 1, 0, 1, 118, 255, 255,
];

/// Writer 2, sequence number 1, stamp 9, of writer 1 stamp 4 learnt, and on pages 1, 2 and 3 a Cut at 6b, a
/// Format as a leaf of table 1 with open fences and no rows, and a NodeAdd of 6c and page 7.
const THREE: [u8; 87] = [
    0, 0, 0, 2, 0, 0, 0, 1, 0, 0, 0, 0, 0, 0, 0, 9, 0, 1, 0, 0, 0, 1, 0, 0, 0, 0, 0, 0, 0, 4, 0, 3,
    2, 0, 0, 0, 1, 0, 0, 0, 0, 0, 0, 0, 8, 1, 107, 3, 0, 0, 0, 2, 0, 0, 0, 0, 0, 0, 0, 0, 1, 0, 1,
    0, 0, 0, 0, 0, 4, 0, 0, 0, 3, 0, 0, 0, 0, 0, 0, 0, 0, 1, 108, 0, 0, 0, 7,
];

/// Where the fields of the three records and what is before them begin.
const FIELDS: [usize; 25] = [
    0, 4, 8, 16, 18, 22, 30, 32, 33, 37, 45, 47, 48, 52, 60, 61, 63, 64, 65, 66, 68, 69, 73, 81, 83,
];

// Whether the group that the bytes give is written as these bytes.
fn comes_back(alloc: Global, bytes: &[u8]) -> Result<bool, Fail> {
    let group = decode(alloc, bytes)?;
    let written = encode(alloc, &group)?;
    Ok(written.as_slice() == bytes)
}

fn fault(alloc: Global, bytes: &[u8]) -> Option<ReadError> {
    decode(alloc, bytes).err()
}

// The same of a part of a group, and how many records it has.
fn part_comes_back(alloc: Global, bytes: &[u8]) -> Result<Option<usize>, Fail> {
    let part = decode_part(alloc, bytes)?;
    let written = encode_part(alloc, &part)?;
    if written.as_slice() != bytes {
        return Ok(None);
    }
    Ok(Some(part.records.len()))
}

/// What the bytes give with one byte changed.
fn fault_of(
    alloc: Global,
    bytes: &[u8],
    at: usize,
    byte: u8,
) -> Result<Option<ReadError>, AllocError> {
    let mut changed = bytes.to_vec(alloc)?;
    if let Some(place) = changed.get_mut(at) {
        *place = byte;
    }
    Ok(fault(alloc, &changed))
}

#[test]
fn groups_come_back(rt: HostRuntime) -> Result<(), Fail> {
    assert!(rt; comes_back(rt.alloc(), &GROUP)?);
    assert!(rt; comes_back(rt.alloc(), &THREE)?);
    Ok(())
}

/// A group's part of no record.
const NONE: [u8; 20] = [0, 0, 0, 1, 0, 0, 0, 1, 0, 0, 0, 0, 0, 0, 0, 1, 0, 0, 0, 0];

#[test]
fn parts_may_have_no_record(rt: HostRuntime) -> Result<(), Fail> {
    assert_eq!(rt; fault(rt.alloc(), &NONE), Some(ReadError::Range { at: 18 }));
    assert_eq!(rt; part_comes_back(rt.alloc(), &NONE)?, Some(0));
    Ok(())
}

// Of the group of one row: a place, the byte put there, and the fault.
fn row_fault(number: u32) -> (usize, u8, ReadError) {
    match number {
        0 => (20, 9, ReadError::Kind { at: 20 }),
        1 => (20, 0, ReadError::Kind { at: 20 }),
        2 => (8, 128, ReadError::Range { at: 8 }),
        3 => (3, 0, ReadError::Range { at: 0 }),
        4 => (7, 0, ReadError::Range { at: 4 }),
        5 => (15, 0, ReadError::Range { at: 8 }),
        6 => (19, 0, ReadError::Range { at: 18 }),
        7 => (24, 0, ReadError::Range { at: 21 }),
        8 => (32, 1, ReadError::Range { at: 25 }),
        _ => (19, 2, ReadError::Truncated { at: 50 }),
    }
}

// The same of the three records.
fn records_fault(number: u32) -> (usize, u8, ReadError) {
    match number {
        0 => (21, 2, ReadError::NotCanonical { at: 18 }),
        1 => (21, 0, ReadError::Range { at: 18 }),
        2 => (29, 0, ReadError::Range { at: 22 }),
        3 => (51, 1, ReadError::NotCanonical { at: 47 }),
        4 => (51, 0, ReadError::Range { at: 48 }),
        5 => (44, 9, ReadError::Range { at: 37 }),
        6 => (68, 6, ReadError::NotCanonical { at: 68 }),
        7 => (32, 5, ReadError::NotCanonical { at: 32 }),
        _ => (60, 3, ReadError::Kind { at: 60 }),
    }
}

#[test]
fn faults_are_named(rt: HostRuntime) -> Result<(), Fail> {
    for number in 0..10 {
        let (at, byte, wanted) = row_fault(number);
        assert_eq!(rt; fault_of(rt.alloc(), &GROUP, at, byte)?, Some(wanted));
    }
    for number in 0..9 {
        let (at, byte, wanted) = records_fault(number);
        assert_eq!(rt; fault_of(rt.alloc(), &THREE, at, byte)?, Some(wanted));
    }
    Ok(())
}

#[test]
fn other_spellings_are_refused(rt: HostRuntime) -> Result<(), Fail> {
    let mut same = GROUP.to_vec(rt.alloc())?;
    same.truncate(48);
    same.extend_from_slice(&[0, 1, 118])?;
    assert_eq!(rt;
        fault(rt.alloc(), &same),
        Some(ReadError::NotCanonical { at: 48 })
    );
    let mut more = GROUP.to_vec(rt.alloc())?;
    more.push(0)?;
    assert_eq!(rt;
        fault(rt.alloc(), &more),
        Some(ReadError::NotCanonical { at: 50 })
    );
    Ok(())
}

#[test]
fn cut_groups_are_truncated(rt: HostRuntime) {
    assert_eq!(rt;
        fault(rt.alloc(), &GROUP[..49]),
        Some(ReadError::Truncated { at: 48 })
    );
    let mut field = 0;
    for (end, _) in THREE.iter().enumerate() {
        for at in FIELDS {
            if at <= end {
                field = at;
            }
        }
        assert_eq!(rt;
            fault(rt.alloc(), &THREE[..end]),
            Some(ReadError::Truncated { at: field })
        );
    }
}

/// A group of `count` rows, each on a page of its own, with values of 512 bytes and in the last of `last`.
fn rows_of(alloc: Global, count: u8, last: u16) -> Result<Vec<u8>, AllocError> {
    let mut bytes = GROUP.to_vec(alloc)?;
    bytes.truncate(18);
    bytes.extend_from_slice(&[0, count])?;
    for number in 1..=count {
        bytes.extend_from_slice(&[1, 0, 0, 0, number, 0, 0, 0, 0, 0, 0, 0, 0, 0, 1])?;
        bytes.extend_from_slice(&[1, 107, 0, 0, 0, 1, 0, 0, 0, 1])?;
        let mut length = last;
        if number < count {
            length = 512;
        }
        bytes.extend_from_slice(&length.to_be_bytes())?;
        for _ in 0..length {
            bytes.push(170)?;
        }
        bytes.extend_from_slice(&[255, 255])?;
    }
    Ok(bytes)
}

#[test]
fn the_greatest_group(rt: HostRuntime) -> Result<(), Fail> {
    let full = rows_of(rt.alloc(), 122, 26)?;
    assert_eq!(rt; full.len(), 65536);
    assert!(rt; comes_back(rt.alloc(), &full)?);
    let more = rows_of(rt.alloc(), 122, 27)?;
    assert_eq!(rt;
        fault(rt.alloc(), &more),
        Some(ReadError::NotCanonical { at: 0 })
    );
    Ok(())
}
