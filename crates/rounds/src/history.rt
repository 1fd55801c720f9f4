//! The rows and the map at a cut, of a list of events.
use event_cuts::{map_at, rows_at};
use key_model::{Event, EventKind, EventList};
use round_works::Failure;
use std::alloc::Global;
use tm_base::{Key, Stamp, Txn, Value, Vector, Writer};

const WRITER: Writer = Writer(1);

// The event at this place: of each four three are puts and the last is their transaction's end. Every other
// transaction puts keys of its own, the rest the same few keys.
fn kind(alloc: Global, at: u32) -> Result<EventKind, Failure> {
    let txn = Txn {
        writer: WRITER,
        number: at / 4,
    };
    if at % 4 == 3 {
        return Ok(EventKind::End {
            txn,
            committed: true,
        });
    }
    let key = if at % 8 < 4 { at } else { at % 1_000 };
    Ok(EventKind::Put {
        txn,
        table: 1,
        key: Key::new(alloc, key.to_be_bytes().as_slice())?,
        value: Some(Value::new(alloc, b"value")?),
    })
}

// So many events, each in a group of its own.
fn events(alloc: Global, count: u32) -> Result<EventList, Failure> {
    let mut events = EventList::new(alloc);
    for at in 0..count {
        let seq = at.saturating_add(1);
        events.push(Event {
            actor: WRITER,
            seq,
            stamp: Stamp(u64::from(seq)),
            kind: kind(alloc, at)?,
        })?;
    }
    Ok(events)
}

/// Makes the map at the cut of all of so many events in each round. Gives the sum of the numbers of its keys.
pub fn maps(alloc: Global, count: u32, rounds: u32) -> Result<u64, Failure> {
    let events = events(alloc, count)?;
    let cut = Vector::single(alloc, WRITER, Stamp(u64::from(count)))?;
    let mut sum: u64 = 0;
    for _ in 0..rounds {
        sum = sum.saturating_add(map_at(&events, &cut)?.len() as u64);
    }
    Ok(sum)
}

/// Makes the rows at the cut of all of so many events in each round. Gives the sum of their numbers.
pub fn rows(alloc: Global, count: u32, rounds: u32) -> Result<u64, Failure> {
    let events = events(alloc, count)?;
    let cut = Vector::single(alloc, WRITER, Stamp(u64::from(count)))?;
    let mut sum: u64 = 0;
    for _ in 0..rounds {
        sum = sum.saturating_add(rows_at(&events, &cut)?.len() as u64);
    }
    Ok(sum)
}
