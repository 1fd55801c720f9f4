//! What no clause says: that steps are answered with ample memory. Whole scripts are among the repository's examples.
use net_world::{PlainGroup, PlainMessage, PlainOutcome, PlainStep, PlainWorld};
use std::test::Fail;
use tm_base::{Reply, Txn, Writer};

const FIRST: Txn = Txn {
    writer: Writer(1),
    number: 1,
};

fn does(world: &mut PlainWorld, step: &PlainStep) -> Result<(PlainOutcome, u32), Fail> {
    if !world.allows(step) {
        return Err(Fail::from("a step that is not allowed"));
    }
    let Ok(done) = world.step(step) else {
        return Err(Fail::from("no memory"));
    };
    Ok(done)
}

fn is_begun(outcome: &PlainOutcome) -> bool {
    match outcome {
        PlainOutcome::Answer(reply) => *reply == Reply::Begun { txn: FIRST },
        _ => false,
    }
}

#[test]
fn a_transaction_begins(rt: HostRuntime) -> Result<(), Fail> {
    let mut world = PlainWorld::new(rt.alloc());
    let (outcome, sent) = does(&mut world, &PlainStep::Begin)?;
    assert!(rt; is_begun(&outcome));
    assert_eq!(rt; sent, 0);
    Ok(())
}

// Whether there is one message: the end of the first transaction, as the first group.
fn is_end(messages: &[PlainMessage]) -> bool {
    let [message] = messages else {
        return false;
    };
    *message == PlainMessage::Append(PlainGroup::End { seq: 1, txn: FIRST })
}

#[test]
fn a_commit_is_sent(rt: HostRuntime) -> Result<(), Fail> {
    let mut world = PlainWorld::new(rt.alloc());
    does(&mut world, &PlainStep::Begin)?;
    does(&mut world, &PlainStep::Commit)?;
    assert!(rt; is_end(world.messages()));
    Ok(())
}
