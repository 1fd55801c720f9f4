//! What is printed of outcomes and messages.
ghost use Rattle.schedule_text.specs.Outcomes.{IsShown};

use page_image::decode;
use schedule_text::{print_message, print_outcome};
use std::alloc::Global;
use std::test::*;
use tm_base::{
    Key, Message, Node, Note, Outcome, Page, Pair, PairList, RecoveryWait, Reply, Stamp, Txn,
    Value, Vector, Writer,
};

const MASTER: Node = Node::Master { number: 1 };

const STORE: Node = Node::PageStore { number: 1 };

const REPLICA: Node = Node::Replica { number: 1 };

/// Whether the outcome is printed so.
fn shows(alloc: Global, outcome: Outcome, text: &[u8]) -> bool
    requires { IsShown outcome }
{
    match print_outcome(alloc, &outcome) {
        Ok(printed) => printed.as_slice() == text,
        Err(_) => false,
    }
}

/// Whether the reply of master 1 to its session 2 is printed so.
fn replies(alloc: Global, reply: Reply, text: &[u8]) -> bool {
    let outcome = Outcome::Reply {
        master: 1,
        session: 2,
        reply,
    };
    shows(alloc, outcome, text)
}

const TXN: Txn = Txn {
    writer: Writer(3),
    number: 4,
};

/// The replies that own no memory, one after another.
fn reply_of(number: usize) -> Reply {
    match number {
        0 => Reply::Fenced,
        1 => Reply::NotJoined,
        2 => Reply::NoTransaction,
        3 => Reply::AlreadyOpen { txn: TXN },
        4 => Reply::Ending { txn: TXN },
        5 => Reply::NoTable { table: 1025 },
        6 => Reply::TooLongKey { length: 65 },
        7 => Reply::TooLongValue { length: 513 },
        8 => Reply::AgainPage { page: Page(7) },
        9 => Reply::AgainFate { txn: TXN },
        10 => Reply::AgainFresh { wanting: 2 },
        11 => Reply::PagesSpent,
        12 => Reply::AgainRows { left: 5 },
        13 => Reply::AgainStore { store: 1, seq: 2 },
        14 => Reply::NoWriter { writer: Writer(7) },
        15 => Reply::OtherRecovery { writer: Writer(7) },
        16 => Reply::FullTags,
        17 => Reply::FullHeight,
        18 => Reply::FullGroups,
        19 => Reply::FullTransactions,
        20 => Reply::StampsSpent,
        21 => Reply::Begun { txn: TXN },
        22 => Reply::Value { value: None },
        23 => Reply::Done,
        24 => Reply::Committed { txn: TXN },
        25 => Reply::Aborted { txn: TXN },
        26 => Reply::Recovered { writer: Writer(7) },
        27 => Reply::Recovering {
            wait: RecoveryWait::Seal,
        },
        28 => Reply::Recovering {
            wait: RecoveryWait::Close,
        },
        29 => Reply::Recovering {
            wait: RecoveryWait::Scan,
        },
        30 => Reply::Recovering {
            wait: RecoveryWait::Take,
        },
        _ => Reply::Recovering {
            wait: RecoveryWait::Told,
        },
    }
}

/// Their lines.
const REPLIES: [&[u8]; 32] = [
    b"m1 2 Fenced",
    b"m1 2 NotJoined",
    b"m1 2 NoTransaction",
    b"m1 2 AlreadyOpen 3.4",
    b"m1 2 Ending 3.4",
    b"m1 2 NoTable 1025",
    b"m1 2 TooLong key 65",
    b"m1 2 TooLong value 513",
    b"m1 2 Again page 7",
    b"m1 2 Again fate 3.4",
    b"m1 2 Again fresh 2",
    b"m1 2 PagesSpent",
    b"m1 2 Again rows 5",
    b"m1 2 Again store 1 2",
    b"m1 2 NoWriter 7",
    b"m1 2 OtherRecovery 7",
    b"m1 2 Full tags 4096",
    b"m1 2 Full height 6",
    b"m1 2 Full groups",
    b"m1 2 Full transactions",
    b"m1 2 StampsSpent",
    b"m1 2 Begun 3.4",
    b"m1 2 Value none",
    b"m1 2 Done",
    b"m1 2 Committed 3.4",
    b"m1 2 Aborted 3.4",
    b"m1 2 Recovered 7",
    b"m1 2 Recovering seal",
    b"m1 2 Recovering close",
    b"m1 2 Recovering scan",
    b"m1 2 Recovering take",
    b"m1 2 Recovering told",
];

#[test]
fn replies_are_printed(rt: HostRuntime) -> Result<(), Fail> {
    for (number, text) in REPLIES.iter().enumerate() {
        assert!(rt; replies(rt.alloc(), reply_of(number), text));
    }
    Ok(())
}

/// The outcomes that own no memory, one after another.
fn outcome_of(number: usize) -> Outcome
    ensures { IsShown result }
{
    match number {
        0 => Outcome::Fine,
        1 => Outcome::Lost { node: MASTER },
        2 => Outcome::Up {
            node: Node::LockManager,
        },
        3 => Outcome::Down { node: REPLICA },
        4 => Outcome::Stopped { node: STORE },
        5 => Outcome::NotHere { store: 1 },
        6 => Outcome::RosterBehind {
            store: 1,
            upto: Stamp(0),
        },
        7 => Outcome::Behind {
            store: 1,
            writer: Writer(2),
            upto: Stamp(9),
        },
        8 => Outcome::Missing {
            store: 1,
            stamp: Stamp(9),
        },
        9 => Outcome::Unfit {
            node: STORE,
            stamp: Stamp(9),
        },
        10 => Outcome::Waits {
            replica: 1,
            writer: Writer(2),
            stamp: Stamp(9),
        },
        11 => Outcome::FullPoints { replica: 1 },
        12 => Outcome::Level { replica: 1 },
        13 => Outcome::Value {
            replica: 1,
            value: None,
        },
        14 => Outcome::NoPoint {
            replica: 1,
            number: 2,
        },
        15 => Outcome::NoTable {
            replica: 1,
            table: 0,
        },
        _ => Outcome::TooLongKey {
            replica: 1,
            length: 65,
        },
    }
}

/// Their lines.
const OUTCOMES: [&[u8]; 17] = [
    b"ok",
    b"m1 lost",
    b"g up",
    b"r1 down",
    b"p1 Stopped",
    b"p1 NotHere",
    b"p1 RosterBehind 0",
    b"p1 Behind 2 9",
    b"p1 Missing 9",
    b"p1 Unfit 9",
    b"r1 Waits 2 9",
    b"r1 Full points",
    b"r1 Level",
    b"r1 Value none",
    b"r1 NoPoint 2",
    b"r1 NoTable 0",
    b"r1 TooLong key 65",
];

#[test]
fn outcomes_are_printed(rt: HostRuntime) -> Result<(), Fail> {
    for (number, text) in OUTCOMES.iter().enumerate() {
        assert!(rt; shows(rt.alloc(), outcome_of(number), text));
    }
    Ok(())
}

fn locked(alloc: Global, text: &[u8]) -> bool {
    let Ok(key) = Key::new(alloc, b"k") else {
        return false;
    };
    replies(alloc, Reply::LockedRow { txn: TXN, key }, text)
}

fn locked_split(alloc: Global, text: &[u8]) -> bool {
    let Ok(key) = Key::new(alloc, b"k") else {
        return false;
    };
    replies(alloc, Reply::LockedSplit { txn: TXN, key }, text)
}

fn valued(alloc: Global, value: &[u8], text: &[u8]) -> bool {
    let Ok(value) = Value::new(alloc, value) else {
        return false;
    };
    replies(alloc, Reply::Value { value: Some(value) }, text)
}

fn pointed(alloc: Global, text: &[u8]) -> bool {
    let Ok(vector) = Vector::single(alloc, Writer(1), Stamp(2)) else {
        return false;
    };
    let outcome = Outcome::Point {
        replica: 1,
        number: 1,
        vector,
    };
    shows(alloc, outcome, text)
}

fn listed(alloc: Global, text: &[u8]) -> bool {
    let Ok(key) = Key::new(alloc, b"k") else {
        return false;
    };
    let Ok(value) = Value::new(alloc, b"") else {
        return false;
    };
    let mut pairs = PairList::new(alloc);
    let Ok(()) = pairs.push(Pair { key, value }) else {
        return false;
    };
    shows(alloc, Outcome::Rows { replica: 1, pairs }, text)
}

/// The empty leaf of table 1.
const LEAF: [u8; 20] = [1, 0, 0, 0, 1, 0, 0, 0, 0, 0, 0, 0, 0, 0, 1, 0, 0, 0, 0, 0];

fn paged(alloc: Global, text: &[u8]) -> bool {
    let Ok(image) = decode(alloc, &LEAF) else {
        return false;
    };
    shows(alloc, Outcome::Page { store: 1, image }, text)
}

#[test]
fn what_owns_memory_is_printed(rt: HostRuntime) -> Result<(), Fail> {
    let alloc = rt.alloc();
    assert!(rt; locked(alloc, b"m1 2 Locked 3.4 6b row"));
    assert!(rt; locked_split(alloc, b"m1 2 Locked 3.4 6b split"));
    assert!(rt; valued(alloc, b"v", b"m1 2 Value 76"));
    assert!(rt; valued(alloc, b"", b"m1 2 Value -"));
    assert!(rt; pointed(alloc, b"r1 Point 1 1:2"));
    assert!(rt; listed(alloc, b"r1 Rows 1 6b=-"));
    assert!(rt; paged(alloc, b"p1 Page 0100000001000000000000000000010000000000"));
    Ok(())
}

#[test]
fn messages_are_printed(rt: HostRuntime) -> Result<(), Fail> {
    let message = Message {
        from: MASTER,
        to: Node::LockManager,
        stamp: Stamp(0),
        note: Note::Register { boot: 1 },
    };
    let Ok(text) = print_message(rt.alloc(), 12, &message) else {
        return Err(Fail::from("no memory"));
    };
    assert_eq!(rt;
        text.as_slice(),
        b"#12 m1>g Register 0101040100000000000000000100000001".as_slice()
    );
    Ok(())
}
