//! That the copies answer with ample memory, by example.
use std::test::Fail;
use tm_base::{
    ByteList, Command, Key, Message, Node, Note, Outcome, Page, Reply, Stamp, Step, TryCopy, Txn,
    Writer,
};

#[test]
fn a_copied_command_is_the_same(rt: HostRuntime) -> Result<(), Fail> {
    let key = ByteList::from_slice(rt.alloc(), b"k")?;
    let value = ByteList::from_slice(rt.alloc(), b"v")?;
    let put = Command::Put {
        table: 1,
        key,
        value,
    };
    let copy = put.copy()?;
    assert!(rt; copy == put);
    Ok(())
}

#[test]
fn a_copied_reply_is_the_same(rt: HostRuntime) -> Result<(), Fail> {
    let txn = Txn {
        writer: Writer(1),
        number: 2,
    };
    let key = Key::new(rt.alloc(), b"k")?;
    let locked = Reply::LockedSplit { txn, key };
    let copy = locked.copy()?;
    assert!(rt; copy == locked);
    Ok(())
}

#[test]
fn a_copied_step_is_the_same(rt: HostRuntime) -> Result<(), Fail> {
    let step = Step::Lose { number: 3 };
    let Step::Lose { number } = step.copy()? else {
        return Err(Fail::from("another step"));
    };
    assert_eq!(rt; number, 3);
    Ok(())
}

#[test]
fn a_copied_outcome_is_the_same(rt: HostRuntime) -> Result<(), Fail> {
    let outcome = Outcome::Up {
        node: Node::LockManager,
    };
    let Outcome::Up { node } = outcome.copy()? else {
        return Err(Fail::from("another outcome"));
    };
    assert_eq!(rt; node, Node::LockManager);
    Ok(())
}

#[test]
fn a_copied_message_goes_to_the_same_node(rt: HostRuntime) -> Result<(), Fail> {
    let wanted = Message {
        from: Node::Master { number: 2 },
        to: Node::PageStore { number: 1 },
        stamp: Stamp(4),
        note: Note::ReadPage { page: Page(1) },
    };
    let copy = wanted.copy()?;
    assert_eq!(rt; copy.from, Node::Master { number: 2 });
    assert_eq!(rt; copy.to, Node::PageStore { number: 1 });
    assert_eq!(rt; copy.stamp, Stamp(4));
    Ok(())
}
