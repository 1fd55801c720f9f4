//! Worked cases, with ample memory.
use std::alloc::Global;
use std::test::Fail;
use tm_base::{MAX_STAMP, Stamp, Vector, VectorEntry, Writer};
use vs_clock::{Clock, StampsSpent};

fn entry(writer: u32, stamp: u64) -> VectorEntry {
    VectorEntry {
        writer: Writer(writer),
        stamp: Stamp(stamp),
    }
}

fn clock_at(alloc: Global) -> Clock {
    Clock::new(alloc, Writer(1), Stamp(5))
}

#[test]
fn hears_ticks_and_sends(rt: HostRuntime) -> Result<(), Fail> {
    let alloc = rt.alloc();
    let mut clock = clock_at(alloc);
    clock.hear_scalar(Stamp(9));
    assert_eq!(rt; clock.tick(), Ok(Stamp(10)));
    clock.hear_vector(&Vector::single(alloc, Writer(2), Stamp(12))?)?;
    assert_eq!(rt; clock.tick(), Ok(Stamp(13)));
    assert_eq!(rt; clock.scalar(), Stamp(13));
    let sent = clock.vector_for_sending(Stamp(10))?;
    assert_eq!(rt; sent.as_slice(), [entry(1, 10), entry(2, 12)].as_slice());
    let nothing_durable = clock.vector_for_sending(Stamp(0))?;
    assert_eq!(rt; nothing_durable.as_slice(), [entry(2, 12)].as_slice());
    assert_eq!(rt; clock.learnt()?.as_slice(), [entry(2, 12)].as_slice());
    clock.told();
    assert!(rt; clock.learnt()?.as_slice().is_empty());
    Ok(())
}

#[test]
fn learns_only_what_rose(rt: HostRuntime) -> Result<(), Fail> {
    let alloc = rt.alloc();
    let mut clock = clock_at(alloc);
    clock.hear_vector(&Vector::single(alloc, Writer(2), Stamp(12))?)?;
    clock.hear_vector(&Vector::single(alloc, Writer(4), Stamp(7))?)?;
    clock.told();
    clock.hear_vector(&Vector::single(alloc, Writer(2), Stamp(11))?)?;
    clock.hear_vector(&Vector::single(alloc, Writer(1), Stamp(30))?)?;
    clock.hear_vector(&Vector::single(alloc, Writer(4), Stamp(8))?)?;
    assert_eq!(rt; clock.learnt()?.as_slice(), [entry(4, 8)].as_slice());
    assert_eq!(rt; clock.tick(), Ok(Stamp(31)));
    let sent = clock.vector_for_sending(Stamp(0))?;
    assert_eq!(rt; sent.as_slice(), [entry(2, 12), entry(4, 8)].as_slice());
    Ok(())
}

#[test]
fn the_last_stamp_is_given_and_no_more(rt: HostRuntime) -> Result<(), Fail> {
    let mut clock = clock_at(rt.alloc());
    clock.hear_scalar(Stamp(MAX_STAMP - 1));
    assert_eq!(rt; clock.tick(), Ok(Stamp(MAX_STAMP)));
    assert_eq!(rt; clock.tick(), Err(StampsSpent));
    assert_eq!(rt; clock.scalar(), Stamp(MAX_STAMP));
    Ok(())
}
