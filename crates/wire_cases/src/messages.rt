//! Messages: each kind comes back, and the first fault is named with its place.
use node_messages::{decode, encode};
use std::alloc::{AllocError, Global};
use std::test::*;
use tm_base::{Message, Node, Note, Page, Stamp, Writer};
use wire_fields::ReadError;

/// A boot number, a writer or a page.
const NUMBER: [u8; 4] = [0, 0, 0, 1];

/// A boot number and a writer.
const JOINED: [u8; 8] = [0, 0, 0, 1, 0, 0, 0, 1];

/// A group of one row.
const GROUP: [u8; 50] = [
    0, 0, 0, 1, 0, 0, 0, 1, 0, 0, 0, 0, 0, 0, 0, 1, 0, 0, 0, 1, 1, 0, 0, 0, 1, 0, 0, 0, 0, 0, 0, 0,
    0, 0, 1, 1, 107, 0, 0, 0, 1, 0, 0, 0, 1, 0, 1, 118, 255, 255,
];

/// A writer and a number.
const PAIR: [u8; 8] = [0, 0, 0, 1, 0, 0, 0, 2];

/// Two groups of a Beat.
const GROUPS: [u8; 50] = [
    0, 0, 0, 1, 0, 0, 0, 2, 0, 0, 0, 1, 0, 0, 0, 2, 0, 0, 0, 0, 0, 0, 0, 3, 0, 0, 0, 1, 6, 0, 0, 0,
    1, 0, 0, 0, 2, 0, 0, 0, 0, 0, 0, 0, 3, 0, 0, 0, 1, 6,
];

/// Writer 1, length 2, log store 3.
const ENDING: [u8; 9] = [0, 0, 0, 1, 0, 0, 0, 2, 3];

/// The last part, of pages 0 and 1, with a vector.
const TAKEOVER: [u8; 63] = [
    0, 0, 0, 1, 0, 0, 0, 2, 1, 0, 0, 0, 2, 0, 0, 0, 0, 0, 0, 0, 0, 0, 0, 0, 4, 0, 0, 0, 1, 0, 0, 0,
    0, 0, 0, 0, 5, 0, 2, 0, 0, 0, 1, 0, 0, 0, 0, 0, 0, 0, 4, 0, 0, 0, 2, 0, 0, 0, 0, 0, 0, 0, 5,
];

/// Writer 1, recoverer 2, with a vector.
const UNDONE: [u8; 34] = [
    0, 0, 0, 1, 0, 0, 0, 2, 0, 2, 0, 0, 0, 1, 0, 0, 0, 0, 0, 0, 0, 4, 0, 0, 0, 2, 0, 0, 0, 0, 0, 0,
    0, 5,
];

/// Writer 1 with a vector.
const RECOVERED: [u8; 30] = [
    0, 0, 0, 1, 0, 2, 0, 0, 0, 1, 0, 0, 0, 0, 0, 0, 0, 4, 0, 0, 0, 2, 0, 0, 0, 0, 0, 0, 0, 5,
];

/// Writer 1, page 2, epoch 3.
const LEASE: [u8; 12] = [0, 0, 0, 1, 0, 0, 0, 2, 0, 0, 0, 3];

/// Page 7 with stamp 3, four tags and a vector: of two tags of one key the writer or the number is greater.
const GRANT: [u8; 90] = [
    0, 0, 0, 1, 0, 0, 0, 7, 0, 0, 0, 2, 0, 0, 0, 0, 0, 0, 0, 3, 0, 0, 0, 4, 1, 107, 0, 0, 0, 1, 0,
    0, 0, 5, 1, 107, 0, 0, 0, 1, 0, 0, 0, 6, 1, 107, 0, 0, 0, 2, 0, 0, 0, 1, 1, 108, 0, 0, 0, 1, 0,
    0, 0, 1, 0, 2, 0, 0, 0, 1, 0, 0, 0, 0, 0, 0, 0, 4, 0, 0, 0, 2, 0, 0, 0, 0, 0, 0, 0, 5,
];

/// Page 1,025 as the second fresh page of writer 1.
const FRESH: [u8; 12] = [0, 0, 0, 1, 0, 0, 0, 2, 0, 0, 4, 1];

/// The blank image of page 9.
const IMAGE: [u8; 13] = [0, 0, 0, 0, 9, 0, 0, 0, 0, 0, 0, 0, 0];

/// Page 7 and stamp 3.
const MISSING: [u8; 12] = [0, 0, 0, 7, 0, 0, 0, 0, 0, 0, 0, 3];

/// Transaction 1.2 for master 3.
const ASK: [u8; 9] = [0, 0, 0, 1, 0, 0, 0, 2, 3];

/// Transaction 1.2 ended, with a vector.
const FATE: [u8; 35] = [
    0, 0, 0, 1, 0, 0, 0, 2, 1, 0, 2, 0, 0, 0, 1, 0, 0, 0, 0, 0, 0, 0, 4, 0, 0, 0, 2, 0, 0, 0, 0, 0,
    0, 0, 5,
];

/// Writer 1 closed and writer 2 live.
const ROSTER: [u8; 38] = [
    0, 2, 0, 0, 0, 1, 1, 1, 0, 0, 0, 9, 0, 0, 0, 0, 0, 0, 0, 3, 0, 0, 0, 2, 2, 0, 0, 0, 0, 0, 0, 0,
    0, 0, 0, 0, 0, 4,
];

/// No writer.
const NONE: [u8; 4] = [0, 0, 0, 0];

// Of each kind a body, and where the last field of the message begins.
fn body_of(kind: u8) -> (&'static [u8], usize) {
    match kind {
        1 => (&NUMBER, 13),
        2 => (&JOINED, 17),
        3 => (&GROUP, 61),
        4 => (&PAIR, 17),
        5 => (&PAIR, 17),
        6 => (&PAIR, 17),
        7 => (&PAIR, 17),
        8 => (&PAIR, 17),
        9 => (&GROUPS, 62),
        10 => (&NUMBER, 13),
        11 => (&PAIR, 17),
        12 => (&ENDING, 21),
        13 => (&ENDING, 21),
        14 => (&TAKEOVER, 68),
        15 => (&PAIR, 17),
        16 => (&UNDONE, 39),
        17 => (&RECOVERED, 35),
        18 => (&PAIR, 17),
        19 => (&PAIR, 17),
        20 => (&LEASE, 21),
        21 => (&GRANT, 95),
        22 => (&FRESH, 21),
        23 => (&GRANT, 95),
        24 => (&LEASE, 21),
        25 => (&NUMBER, 13),
        26 => (&IMAGE, 18),
        27 => (&MISSING, 17),
        28 => (&ASK, 21),
        29 => (&FATE, 40),
        30 => (&ROSTER, 43),
        _ => (&NONE, 13),
    }
}

/// From master 1 to the lock manager, with stamp 6.
const HEAD: [u8; 12] = [1, 1, 4, 1, 0, 0, 0, 0, 0, 0, 0, 6];

/// The bytes of a message of this kind and body.
fn spelled(alloc: Global, kind: u8, body: &[u8]) -> Result<Vec<u8>, AllocError> {
    let mut bytes = HEAD.to_vec(alloc)?;
    bytes.push(kind)?;
    bytes.extend_from_slice(body)?;
    Ok(bytes)
}

// Whether the message that the bytes give is written as these bytes.
fn comes_back(alloc: Global, bytes: &[u8]) -> Result<bool, Fail> {
    let message = decode(alloc, bytes)?;
    let written = encode(alloc, &message)?;
    Ok(written.as_slice() == bytes)
}

fn fault(alloc: Global, bytes: &[u8]) -> Option<ReadError> {
    decode(alloc, bytes).err()
}

#[test]
fn each_kind_comes_back(rt: HostRuntime) -> Result<(), Fail> {
    for kind in 1..32 {
        let (body, _) = body_of(kind);
        let bytes = spelled(rt.alloc(), kind, body)?;
        assert!(rt; comes_back(rt.alloc(), &bytes)?);
    }
    Ok(())
}

#[test]
fn cut_and_longer_messages_are_refused(rt: HostRuntime) -> Result<(), Fail> {
    for kind in 1..32 {
        let (body, last) = body_of(kind);
        let mut bytes = spelled(rt.alloc(), kind, body)?;
        let end = bytes.len();
        assert_eq!(rt;
            fault(rt.alloc(), &bytes[..end.saturating_sub(1)]),
            Some(ReadError::Truncated { at: last })
        );
        bytes.push(0)?;
        assert_eq!(rt;
            fault(rt.alloc(), &bytes),
            Some(ReadError::NotCanonical { at: end })
        );
    }
    Ok(())
}

/// Register of boot 1 from master 1 to the lock manager, with stamp 0.
const REGISTER: [u8; 17] = [1, 1, 4, 1, 0, 0, 0, 0, 0, 0, 0, 0, 1, 0, 0, 0, 1];

#[test]
fn register_is_written(rt: HostRuntime) -> Result<(), Fail> {
    let message = Message {
        from: Node::Master { number: 1 },
        to: Node::LockManager,
        stamp: Stamp(0),
        note: Note::Register { boot: 1 },
    };
    let bytes = encode(rt.alloc(), &message)?;
    assert_eq!(rt; bytes.as_slice(), REGISTER.as_slice());
    Ok(())
}

/// Its answer: writer 1.
const REGISTERED: [u8; 21] = [
    4, 1, 1, 1, 0, 0, 0, 0, 0, 0, 0, 0, 2, 0, 0, 0, 1, 0, 0, 0, 1,
];

#[test]
fn registered_is_written(rt: HostRuntime) -> Result<(), Fail> {
    let message = Message {
        from: Node::LockManager,
        to: Node::Master { number: 1 },
        stamp: Stamp(0),
        note: Note::Registered {
            boot: 1,
            writer: Writer(1),
        },
    };
    let bytes = encode(rt.alloc(), &message)?;
    assert_eq!(rt; bytes.as_slice(), REGISTERED.as_slice());
    Ok(())
}

/// The recall of page 1 at epoch 2 from writer 2, which is of master 2.
const RECALL: [u8; 25] = [
    4, 1, 1, 2, 0, 0, 0, 0, 0, 0, 0, 0, 20, 0, 0, 0, 2, 0, 0, 0, 1, 0, 0, 0, 2,
];

#[test]
fn recall_is_written(rt: HostRuntime) -> Result<(), Fail> {
    let message = Message {
        from: Node::LockManager,
        to: Node::Master { number: 2 },
        stamp: Stamp(0),
        note: Note::Recall {
            writer: Writer(2),
            page: Page(1),
            epoch: 2,
        },
    };
    let bytes = encode(rt.alloc(), &message)?;
    assert_eq!(rt; bytes.as_slice(), RECALL.as_slice());
    Ok(())
}

/// What a message of this kind gives with one byte changed.
fn fault_of(alloc: Global, kind: u8, at: usize, byte: u8) -> Result<Option<ReadError>, AllocError> {
    let (body, _) = body_of(kind);
    let mut bytes = spelled(alloc, kind, body)?;
    if let Some(place) = bytes.get_mut(at) {
        *place = byte;
    }
    Ok(fault(alloc, &bytes))
}

// A kind, a place, the byte put there, and the fault: of the head.
fn head_fault(number: u32) -> (u8, usize, u8, ReadError) {
    match number {
        0 => (1, 0, 0, ReadError::Kind { at: 0 }),
        1 => (1, 0, 6, ReadError::Kind { at: 0 }),
        2 => (1, 1, 0, ReadError::Range { at: 1 }),
        3 => (1, 2, 7, ReadError::Kind { at: 2 }),
        4 => (1, 3, 2, ReadError::Range { at: 3 }),
        5 => (1, 4, 128, ReadError::Range { at: 4 }),
        6 => (1, 12, 0, ReadError::Kind { at: 12 }),
        _ => (1, 12, 32, ReadError::Kind { at: 12 }),
    }
}

#[test]
fn faults_of_the_head_are_named(rt: HostRuntime) -> Result<(), Fail> {
    for number in 0..8 {
        let (kind, at, byte, wanted) = head_fault(number);
        assert_eq!(rt; fault_of(rt.alloc(), kind, at, byte)?, Some(wanted));
    }
    Ok(())
}

// The same of the parts of a message.
fn part_fault(number: u32) -> (u8, usize, u8, ReadError) {
    match number {
        0 => (2, 20, 0, ReadError::Range { at: 17 }),
        1 => (4, 16, 0, ReadError::Range { at: 13 }),
        2 => (10, 16, 0, ReadError::Range { at: 13 }),
        3 => (12, 16, 0, ReadError::Range { at: 13 }),
        4 => (20, 16, 0, ReadError::Range { at: 13 }),
        5 => (22, 16, 0, ReadError::Range { at: 13 }),
        6 => (27, 17, 128, ReadError::Range { at: 17 }),
        7 => (28, 20, 0, ReadError::Range { at: 17 }),
        8 => (3, 16, 0, ReadError::Range { at: 13 }),
        9 => (3, 33, 7, ReadError::Kind { at: 33 }),
        10 => (9, 20, 3, ReadError::Truncated { at: 63 }),
        11 => (9, 24, 0, ReadError::Range { at: 21 }),
        12 => (9, 41, 7, ReadError::Kind { at: 41 }),
        13 => (9, 61, 0, ReadError::Range { at: 60 }),
        14 => (26, 13, 3, ReadError::Kind { at: 13 }),
        15 => (26, 25, 1, ReadError::Range { at: 18 }),
        _ => (26, 17, 0, ReadError::Range { at: 14 }),
    }
}

#[test]
fn faults_of_parts_are_named(rt: HostRuntime) -> Result<(), Fail> {
    for number in 0..17 {
        let (kind, at, byte, wanted) = part_fault(number);
        assert_eq!(rt; fault_of(rt.alloc(), kind, at, byte)?, Some(wanted));
    }
    Ok(())
}

// The same of lists.
fn list_fault(number: u32) -> (u8, usize, u8, ReadError) {
    match number {
        0 => (14, 21, 2, ReadError::Range { at: 21 }),
        1 => (14, 41, 0, ReadError::NotCanonical { at: 38 }),
        2 => (14, 42, 128, ReadError::Range { at: 42 }),
        3 => (14, 25, 3, ReadError::Truncated { at: 76 }),
        4 => (14, 51, 3, ReadError::Truncated { at: 76 }),
        5 => (16, 20, 0, ReadError::Range { at: 17 }),
        6 => (16, 26, 2, ReadError::NotCanonical { at: 35 }),
        7 => (17, 30, 0, ReadError::Range { at: 23 }),
        8 => (29, 20, 0, ReadError::Range { at: 17 }),
        9 => (29, 21, 2, ReadError::Range { at: 21 }),
        10 => (29, 27, 0, ReadError::Range { at: 24 }),
        11 => (21, 25, 128, ReadError::Range { at: 25 }),
        12 => (21, 36, 5, ReadError::Range { at: 77 }),
        13 => (21, 42, 0, ReadError::Range { at: 39 }),
        14 => (21, 48, 106, ReadError::NotCanonical { at: 47 }),
        15 => (21, 52, 3, ReadError::NotCanonical { at: 57 }),
        16 => (21, 56, 5, ReadError::NotCanonical { at: 47 }),
        17 => (21, 56, 4, ReadError::NotCanonical { at: 47 }),
        18 => (21, 58, 108, ReadError::NotCanonical { at: 67 }),
        19 => (21, 62, 1, ReadError::NotCanonical { at: 57 }),
        20 => (21, 68, 106, ReadError::NotCanonical { at: 67 }),
        21 => (21, 47, 65, ReadError::Range { at: 47 }),
        22 => (21, 94, 1, ReadError::NotCanonical { at: 91 }),
        23 => (21, 83, 128, ReadError::Range { at: 83 }),
        24 => (30, 18, 0, ReadError::Range { at: 15 }),
        25 => (30, 20, 3, ReadError::Range { at: 20 }),
        26 => (30, 25, 128, ReadError::Range { at: 25 }),
        27 => (30, 36, 1, ReadError::NotCanonical { at: 33 }),
        _ => (30, 14, 3, ReadError::Truncated { at: 51 }),
    }
}

#[test]
fn faults_of_lists_are_named(rt: HostRuntime) -> Result<(), Fail> {
    for number in 0..29 {
        let (kind, at, byte, wanted) = list_fault(number);
        assert_eq!(rt; fault_of(rt.alloc(), kind, at, byte)?, Some(wanted));
    }
    Ok(())
}

/// A grant with `count` tags on keys of two bytes.
fn grant_of(alloc: Global, count: u16) -> Result<Vec<u8>, AllocError> {
    let mut bytes = spelled(alloc, 21, &GRANT[..20])?;
    bytes.extend_from_slice(&u32::from(count).to_be_bytes())?;
    for number in 0..count {
        bytes.push(2)?;
        bytes.extend_from_slice(&number.to_be_bytes())?;
        bytes.extend_from_slice(&[0, 0, 0, 1, 0, 0, 0, 1])?;
    }
    bytes.extend_from_slice(&[0, 0])?;
    Ok(bytes)
}

#[test]
fn a_grant_of_many_tags(rt: HostRuntime) -> Result<(), Fail> {
    let bytes = grant_of(rt.alloc(), 4096)?;
    assert!(rt; comes_back(rt.alloc(), &bytes)?);
    Ok(())
}
