//! What no clause says: that the calls answer with ample memory; and the order by hand.
use replica_apply::Order;
use std::alloc::Global;
use std::test::Fail;
use tm_base::{Group, RecordList, Stamp, Vector, Writer};

fn group(
    alloc: Global,
    writer: u32,
    seq: u32,
    stamp: u64,
    learnt: Option<(u32, u64)>,
) -> Result<Group, Fail> {
    let learnt = match learnt {
        Some((writer, stamp)) if writer > 0 => {
            Vector::single(alloc, Writer(writer), Stamp(stamp))?
        }
        _ => Vector::new(alloc),
    };
    Ok(Group {
        writer: Writer(writer),
        seq,
        stamp: Stamp(stamp),
        learnt,
        records: RecordList::new(alloc),
    })
}

/// A group waits until what its writer had learnt is applied.
#[test]
fn a_group_waits_for_its_causes(rt: HostRuntime) -> Result<(), Fail> {
    let mut order = Order::new(rt.alloc());
    order.offer(&group(rt.alloc(), 3, 1, 2, Some((1, 1)))?)?;
    assert!(rt; order.next()?.is_none());
    assert_eq!(rt; order.waits(), Some((Writer(1), Stamp(1))));
    order.offer(&group(rt.alloc(), 1, 1, 1, None)?)?;
    assert_eq!(rt; order.waits(), Some((Writer(1), Stamp(1))));
    assert_eq!(rt; order.next()?.map(|group| group.writer), Some(Writer(1)));
    assert_eq!(rt; order.waits(), None);
    assert_eq!(rt; order.next()?.map(|group| group.writer), Some(Writer(3)));
    assert!(rt; order.next()?.is_none());
    assert_eq!(rt; order.frontier().get(Writer(3)), Stamp(2));
    Ok(())
}

/// Of several groups that may be applied the least writer's comes first, and each writer's in their order.
#[test]
fn the_least_writer_comes_first(rt: HostRuntime) -> Result<(), Fail> {
    let mut order = Order::new(rt.alloc());
    for (writer, seq, stamp) in [
        (2, 1, 4),
        (2, 2, 5),
        (1, 1, 7),
        (1, 1, 7),
        (1, 3, 9),
        (4, 2, 1),
    ] {
        order.offer(&group(rt.alloc(), writer, seq, stamp, None)?)?;
    }
    for (writer, stamp) in [(1, 7), (2, 4), (2, 5)] {
        let next = order.next()?;
        let taken = next.map(|group| (group.writer, group.stamp));
        assert_eq!(rt; taken, Some((Writer(writer), Stamp(stamp))));
    }
    assert!(rt; order.next()?.is_none());
    Ok(())
}
