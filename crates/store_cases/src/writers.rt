//! A log: groups are acknowledged in any order, sent again, and let go.
ghost use Rattle.std.specs.Prelude.{◌≡◌, IfOk};

use log_writer::LogWriter;
use std::alloc::Global;
use std::test::Fail;
use tm_base::{Group, GroupList, ItemList, Mem, Record, Stamp, Vector, Writer};

/// A group that says nothing.
fn beat(alloc: Global, writer: Writer, seq: u32, stamp: u64) -> Mem<Group>
    ensures { IfOk result (λ group. (group.writer ≡ writer) × (group.seq ≡ seq) × (group.stamp.0 ≡ stamp)) }
{
    let mut records = ItemList::new(alloc);
    records.push(Record::Beat)?;
    Ok(Group {
        writer,
        seq,
        stamp: Stamp(stamp),
        learnt: Vector::new(alloc),
        records,
    })
}

/// Logs one more group, ten stamps above the last one. False where the numbers are spent.
fn log_next(alloc: Global, log: &mut LogWriter) -> Mem<bool> {
    let seq = log.last_seq();
    let stamp = log.last_stamp().0;
    if seq == u32::MAX || stamp > 1000 {
        return Ok(false);
    }
    let group = beat(alloc, log.writer(), seq + 1, stamp + 10)?;
    log.append(group)?;
    Ok(true)
}

/// A log of groups 1 to `count`, with the stamps 10, 20 and so on.
fn logged(alloc: Global, count: u32) -> Mem<LogWriter> {
    let mut log = LogWriter::new(alloc, Writer(1));
    for _ in 0..count {
        log_next(alloc, &mut log)?;
    }
    Ok(log)
}

#[test]
fn the_durable_prefix_is_what_all_three_acknowledged(rt: HostRuntime) -> Result<(), Fail> {
    let Ok(mut log) = logged(rt.alloc(), 3) else {
        return Err(Fail::from("no memory"));
    };
    assert_eq!(rt; log.last_seq(), 3);
    assert_eq!(rt; log.last_stamp(), Stamp(30));
    assert_eq!(rt; log.settled(Stamp(99)), Stamp(9));
    // store, number, and then: the durable number and stamp, and what number 2 lacks
    let acks: [(u8, u32, u32, u64, Option<u8>); 11] = [
        (1, 1, 0, 0, Some(1)),
        (2, 1, 0, 0, Some(1)),
        (3, 3, 0, 0, Some(1)),
        (3, 1, 1, 10, Some(1)),
        (1, 2, 1, 10, Some(2)),
        (2, 2, 1, 10, Some(3)),
        (4, 2, 1, 10, Some(3)),
        (3, 4, 1, 10, Some(3)),
        (0, 0, 1, 10, Some(3)),
        (3, 2, 2, 20, None),
        (3, 2, 2, 20, None),
    ];
    for (store, seq, durable_seq, durable, lacking) in acks.iter() {
        log.on_ack(*store, *seq);
        assert_eq!(rt; log.durable_seq(), *durable_seq);
        assert_eq!(rt; log.durable(), Stamp(*durable));
        assert_eq!(rt; log.lacking(2), *lacking);
    }
    assert_eq!(rt; log.settled(Stamp(99)), Stamp(29));
    assert_eq!(rt; log.lacking(0), Some(1));
    assert_eq!(rt; log.lacking(4), Some(1));
    Ok(())
}

#[test]
fn what_a_store_lacks_is_sent_again(rt: HostRuntime) -> Result<(), Fail> {
    let Ok(mut log) = logged(rt.alloc(), 20) else {
        return Err(Fail::from("no memory"));
    };
    log.on_ack(2, 1);
    log.on_ack(2, 3);
    // store, how many groups, and the number of the first, the second and the last of them
    let sent: [(u8, usize, u32, u32, u32); 2] = [(1, 16, 1, 2, 16), (2, 16, 2, 4, 18)];
    for (store, count, first, second, last) in sent.iter() {
        let Ok(groups) = log.resend(*store) else {
            return Err(Fail::from("no memory"));
        };
        if groups.len() != *count {
            return Err(Fail::from("another number of groups"));
        }
        let numbers = [groups.get(0), groups.get(1), groups.get(15)];
        let [Some(a), Some(b), Some(c)] = numbers else {
            return Err(Fail::from("fewer groups"));
        };
        assert_eq!(rt; (a.seq, b.seq, c.seq), (*first, *second, *last));
    }
    Ok(())
}

/// Logs two more groups at once, ten stamps apart. False where the numbers are spent.
fn log_two(alloc: Global, log: &mut LogWriter) -> Mem<bool> {
    let seq = log.last_seq();
    let stamp = log.last_stamp().0;
    if seq > 1000 || stamp > 1000 {
        return Ok(false);
    }
    let mut groups = GroupList::new(alloc);
    groups.push(beat(alloc, log.writer(), seq + 1, stamp + 10)?)?;
    groups.push(beat(alloc, log.writer(), seq + 2, stamp + 20)?)?;
    log.append_all(&groups)?;
    Ok(true)
}

#[test]
fn durable_groups_are_let_go(rt: HostRuntime) -> Result<(), Fail> {
    let Ok(mut log) = logged(rt.alloc(), 3) else {
        return Err(Fail::from("no memory"));
    };
    // store, number, and then, once what is durable was let go: the durable number and stamp, and whether groups 1
    // and 2 are still there
    let acks: [(u8, u32, u32, u64, bool, bool); 7] = [
        (1, 1, 0, 0, true, true),
        (2, 1, 0, 0, true, true),
        (3, 1, 1, 10, false, true),
        (1, 3, 1, 10, false, true),
        (2, 2, 1, 10, false, true),
        (3, 2, 1, 10, false, true),
        (1, 2, 2, 20, false, false),
    ];
    for (store, seq, durable_seq, durable, first, second) in acks.iter() {
        log.on_ack(*store, *seq);
        log.let_go();
        assert_eq!(rt; log.durable_seq(), *durable_seq);
        assert_eq!(rt; log.durable(), Stamp(*durable));
        assert_eq!(rt; log.group(1).is_some(), *first);
        assert_eq!(rt; log.group(2).is_some(), *second);
    }
    assert_eq!(rt; log.settled(Stamp(99)), Stamp(29));
    assert_eq!(rt; log.lacking(2), None);
    assert_eq!(rt; log.lacking(3), Some(2));
    let Ok(true) = log_two(rt.alloc(), &mut log) else {
        return Err(Fail::from("no memory"));
    };
    assert_eq!(rt; (log.last_seq(), log.last_stamp()), (5, Stamp(50)));
    let Ok(groups) = log.resend(1) else {
        return Err(Fail::from("no memory"));
    };
    let [Some(a), Some(b), None] = [groups.get(0), groups.get(1), groups.get(2)] else {
        return Err(Fail::from("another number of groups"));
    };
    assert_eq!(rt; (a.seq, b.seq), (4, 5));
    Ok(())
}
