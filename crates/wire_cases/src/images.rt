//! Images: what comes back, and the first fault with its place.
use page_image::{decode, encode};
use std::alloc::{AllocError, Global};
use std::test::*;
use wire_fields::ReadError;

/// Page 1 at stamp 5: a leaf of table 1 with open fences and the row of key 6b by transaction 1.1, now
/// 76, before none.
const LEAF: [u8; 35] = [
    1, 0, 0, 0, 1, 0, 0, 0, 0, 0, 0, 0, 5, 0, 1, 0, 0, 0, 0, 1, 1, 107, 0, 0, 0, 1, 0, 0, 0, 1, 0,
    1, 118, 255, 255,
];

/// Page 2 at stamp 0: an inner page of table 1 and level 1 between 6b and the open end, with first child 7
/// and child 8 from 6c on.
const INNER: [u8; 31] = [
    2, 0, 0, 0, 2, 0, 0, 0, 0, 0, 0, 0, 0, 0, 1, 1, 1, 107, 0, 0, 1, 0, 0, 0, 7, 1, 108, 0, 0, 0, 8,
];

// Whether the image that the bytes give is written as these bytes.
fn comes_back(alloc: Global, bytes: &[u8]) -> Result<bool, Fail> {
    let image = decode(alloc, bytes)?;
    let written = encode(alloc, &image)?;
    Ok(written.as_slice() == bytes)
}

fn fault(alloc: Global, bytes: &[u8]) -> Option<ReadError> {
    decode(alloc, bytes).err()
}

/// What the bytes give with one byte changed.
fn fault_of(
    alloc: Global,
    bytes: &[u8],
    at: usize,
    byte: u8,
) -> Result<Option<ReadError>, AllocError> {
    let mut changed = bytes.to_vec(alloc)?;
    if let Some(place) = changed.get_mut(at) {
        *place = byte;
    }
    Ok(fault(alloc, &changed))
}

#[test]
fn images_come_back(rt: HostRuntime) -> Result<(), Fail> {
    assert!(rt; comes_back(rt.alloc(), &LEAF)?);
    assert!(rt; comes_back(rt.alloc(), &INNER)?);
    Ok(())
}

// Of the leaf: a place, the byte put there, and the fault.
fn leaf_fault(number: u32) -> (usize, u8, ReadError) {
    match number {
        0 => (0, 3, ReadError::Kind { at: 0 }),
        1 => (4, 0, ReadError::Range { at: 1 }),
        2 => (5, 128, ReadError::Range { at: 5 }),
        3 => (15, 1, ReadError::Range { at: 15 }),
        4 => (16, 65, ReadError::Range { at: 16 }),
        5 => (20, 0, ReadError::Range { at: 20 }),
        6 => (20, 65, ReadError::Range { at: 20 }),
        7 => (25, 0, ReadError::Range { at: 22 }),
        8 => (29, 0, ReadError::Range { at: 26 }),
        9 => (30, 3, ReadError::Range { at: 30 }),
        10 => (34, 253, ReadError::Range { at: 33 }),
        11 => (19, 2, ReadError::Truncated { at: 35 }),
        _ => (19, 0, ReadError::NotCanonical { at: 20 }),
    }
}

// The same of the inner page.
fn inner_fault(number: u32) -> (usize, u8, ReadError) {
    match number {
        0 => (15, 0, ReadError::Range { at: 15 }),
        1 => (15, 6, ReadError::Range { at: 15 }),
        2 => (26, 106, ReadError::NotCanonical { at: 25 }),
        _ => (26, 0, ReadError::NotCanonical { at: 25 }),
    }
}

#[test]
fn faults_are_named(rt: HostRuntime) -> Result<(), Fail> {
    for number in 0..13 {
        let (at, byte, wanted) = leaf_fault(number);
        assert_eq!(rt; fault_of(rt.alloc(), &LEAF, at, byte)?, Some(wanted));
    }
    for number in 0..4 {
        let (at, byte, wanted) = inner_fault(number);
        assert_eq!(rt; fault_of(rt.alloc(), &INNER, at, byte)?, Some(wanted));
    }
    Ok(())
}

/// A blank page with a stamp.
const STAMPED: [u8; 13] = [0, 0, 0, 0, 9, 0, 0, 0, 0, 0, 0, 0, 1];

/// The low fence is the high one.
const FENCES: [u8; 20] = [
    2, 0, 0, 0, 2, 0, 0, 0, 0, 0, 0, 0, 0, 0, 1, 1, 1, 107, 1, 107,
];

/// A key on the high fence.
const HIGH: [u8; 31] = [
    2, 0, 0, 0, 2, 0, 0, 0, 0, 0, 0, 0, 0, 0, 1, 1, 0, 1, 107, 0, 1, 0, 0, 0, 7, 1, 107, 0, 0, 0, 8,
];

/// The same key twice.
const TWICE: [u8; 36] = [
    2, 0, 0, 0, 2, 0, 0, 0, 0, 0, 0, 0, 0, 0, 1, 1, 0, 0, 0, 2, 0, 0, 0, 7, 1, 107, 0, 0, 0, 8, 1,
    107, 0, 0, 0, 9,
];

/// A before that spells the value of now.
const SAME: [u8; 36] = [
    1, 0, 0, 0, 1, 0, 0, 0, 0, 0, 0, 0, 5, 0, 1, 0, 0, 0, 0, 1, 1, 107, 0, 0, 0, 1, 0, 0, 0, 1, 0,
    1, 118, 0, 1, 118,
];

/// A byte behind the image.
const BEHIND: [u8; 14] = [0, 0, 0, 0, 9, 0, 0, 0, 0, 0, 0, 0, 0, 0];

// Bytes, and the fault in them.
fn spelled(number: u32) -> (&'static [u8], ReadError) {
    match number {
        0 => (&STAMPED, ReadError::Range { at: 5 }),
        1 => (&FENCES, ReadError::NotCanonical { at: 18 }),
        2 => (&HIGH, ReadError::NotCanonical { at: 25 }),
        3 => (&TWICE, ReadError::NotCanonical { at: 30 }),
        4 => (&SAME, ReadError::NotCanonical { at: 33 }),
        _ => (&BEHIND, ReadError::NotCanonical { at: 13 }),
    }
}

#[test]
fn orders_are_kept(rt: HostRuntime) {
    for number in 0..6 {
        let (bytes, wanted) = spelled(number);
        assert_eq!(rt; fault(rt.alloc(), bytes), Some(wanted));
    }
}

#[test]
fn cut_images_are_truncated(rt: HostRuntime) {
    let fields = [0, 1, 5, 13, 15, 16, 17, 18, 20, 22, 26, 30, 33, 35];
    let mut field = 0;
    for (end, _) in LEAF.iter().enumerate() {
        for at in fields {
            if at <= end {
                field = at;
            }
        }
        assert_eq!(rt;
            fault(rt.alloc(), &LEAF[..end]),
            Some(ReadError::Truncated { at: field })
        );
    }
}

/// A leaf of 15 rows of 527 bytes and one of a value of `last` bytes.
fn leaf_of(alloc: Global, last: u8) -> Result<Vec<u8>, AllocError> {
    let mut bytes = [1, 0, 0, 0, 1, 0, 0, 0, 0, 0, 0, 0, 16, 0, 1, 0, 0, 0, 0, 16].to_vec(alloc)?;
    for number in 1..=16u8 {
        bytes.extend_from_slice(&[2, 0, number, 0, 0, 0, 1, 0, 0, 0, 1])?;
        let mut length = u16::from(last);
        if number < 16 {
            length = 512;
        }
        bytes.extend_from_slice(&length.to_be_bytes())?;
        for _ in 0..length {
            bytes.push(0xaa)?;
        }
        bytes.extend_from_slice(&[255, 255])?;
    }
    Ok(bytes)
}

#[test]
fn the_greatest_image(rt: HostRuntime) -> Result<(), Fail> {
    let full = leaf_of(rt.alloc(), 252)?;
    assert_eq!(rt; full.len(), 8192);
    assert!(rt; comes_back(rt.alloc(), &full)?);
    let more = leaf_of(rt.alloc(), 253)?;
    assert_eq!(rt;
        fault(rt.alloc(), &more),
        Some(ReadError::NotCanonical { at: 0 })
    );
    Ok(())
}
