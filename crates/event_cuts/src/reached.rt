//! The events that reach one event.
ghost use Rattle.std.specs.Prelude.{◌≡◌, ◌+◌, ◌||◌, ◌&&◌, is_some, length, slice_get, IfOk, OnOk};
ghost use Rattle.std.specs.FinMap as fin;
ghost use Rattle.std.specs.List.{list_any};
ghost use Rattle.key_model.specs.Events.{logs, is_of};
ghost use Rattle.key_model.specs.Causes.{reaching};
ghost use Rattle.event_cuts.specs.Places.{passes, HasPlaces};
ghost use Rattle.event_cuts.specs.Inside.{or_zero, or_false, with_number, with_key, with_kind_key, with_found, hits, end_hits, reaches, found_if, HasFound};

use crate::numbers::NumberMap;
use crate::own_events::{OwnEvents, own_events};
use key_model::{Event, EventKind};
use std::alloc::Global;
use tm_base::{ByteList, Key, Mem, NoMemory, RowKey, RowMap, Txn, Writer};

/// What was found of the events that reach one.
#[derive(Drop)]
pub struct Reached {
    /// Of each writer that made one of them, how many are logged.
    pub numbers: NumberMap,
    /// Of each key that one of them is on, whether one is a put on it.
    pub keys: RowMap<bool>,
}

fn place_of(alloc: Global, table: u16, key: &Key) -> Mem<RowKey>
    ensures { IfOk result (λ place. (place.table ≡ table) × (place.key ≡ key.now)) }
{
    Ok(RowKey {
        table,
        key: ByteList::from_slice(alloc, key.as_slice())?,
    })
}

// One more event of the writer is found. More than 2^32 - 1 logged ones have no room in memory.
fn count(numbers: &mut NumberMap, writer: Writer, logged: bool) -> Mem<()>
    ensures { OnOk result (numbers.new ≡ with_number numbers.old writer logged) }
{
    let number = match numbers.get(&writer) {
        Some(number) => *number,
        None => 0,
    };
    if !logged {
        numbers.insert(writer, number)?;
        return Ok(());
    }
    let Some(more) = number.checked_add(1) else {
        return Err(NoMemory);
    };
    numbers.insert(writer, more)?;
    Ok(())
}

// One more event on the key is found.
fn note_key(keys: &mut RowMap<bool>, place: RowKey, put: bool) -> Mem<()>
    ensures { OnOk result (keys.new ≡ with_key keys.old place put) }
{
    let had = match keys.get(&place) {
        Some(had) => *had,
        None => false,
    };
    keys.insert(place, put || had)?;
    Ok(())
}

fn note(alloc: Global, keys: &mut RowMap<bool>, kind: &EventKind) -> Mem<()>
    ensures { OnOk result (keys.new ≡ with_kind_key keys.old kind.now) }
{
    match kind {
        EventKind::Read { table, key, .. } => {
            note_key(keys, place_of(alloc, *table, key)?, false)?;
            Ok(())
        }
        EventKind::Put { table, key, .. } => {
            note_key(keys, place_of(alloc, *table, key)?, true)?;
            Ok(())
        }
        EventKind::End { .. } => Ok(()),
    }
}

fn is_logged(kind: &EventKind) -> bool
    ensures { result ≡ logs kind.now }
{
    match kind {
        EventKind::Read { .. } => false,
        EventKind::Put { .. } | EventKind::End { .. } => true,
    }
}

// Whether the event is of the transaction.
fn is_of(txn: &Txn, event: &Event) -> bool
    ensures { result ≡ is_of txn.now event.now }
{
    match &event.kind {
        EventKind::Read { txn: own, .. } => *txn == *own,
        EventKind::Put { txn: own, .. } => *txn == *own,
        EventKind::End { txn: own, .. } => *txn == *own,
    }
}

// Whether it conflicts with an event that was found.
fn hits(alloc: Global, keys: &RowMap<bool>, kind: &EventKind) -> Mem<bool>
    ensures { IfOk result (λ test. test ≡ hits keys.now kind.now) }
{
    match kind {
        EventKind::Read { table, key, .. } => {
            let place = place_of(alloc, *table, key)?;
            let put = match keys.get(&place) {
                Some(put) => *put,
                None => false,
            };
            Ok(put)
        }
        EventKind::Put { table, key, .. } => {
            let place = place_of(alloc, *table, key)?;
            Ok(keys.get(&place).is_some())
        }
        EventKind::End { .. } => Ok(false),
    }
}

// Whether the event at a place conflicts with one that was found.
fn hits_at(alloc: Global, events: &[Event], keys: &RowMap<bool>, place: usize) -> Mem<bool>
    ensures { IfOk result (λ test. test ≡ passes (λ e. hits keys.now e.kind) (slice_get events.now place)) }
{
    match events.get(place) {
        Some(event) => hits(alloc, keys, &event.kind),
        None => Ok(false),
    }
}

// Whether an event of the transaction conflicts with one that was found.
fn txn_hits(
    alloc: Global,
    events: &[Event],
    own: &OwnEvents,
    keys: &RowMap<bool>,
    txn: &Txn,
) -> Mem<bool>
    requires { HasPlaces events.now (length events.now) own.now }
    ensures { IfOk result (λ test. test ≡ list_any (λ e. is_of txn.now e && hits keys.now e.kind) events.now) }
{
    let Some(places) = own.get(txn) else {
        return Ok(false);
    };
    for place in places.as_slice().iter() {
        if hits_at(alloc, events, keys, *place)? {
            return Ok(true);
        }
    }
    Ok(false)
}

fn end_hits(
    alloc: Global,
    events: &[Event],
    own: &OwnEvents,
    keys: &RowMap<bool>,
    kind: &EventKind,
) -> Mem<bool>
    requires { HasPlaces events.now (length events.now) own.now }
    ensures { IfOk result (λ test. test ≡ end_hits events.now keys.now kind.now) }
{
    let EventKind::End { txn, .. } = kind else {
        return Ok(false);
    };
    txn_hits(alloc, events, own, keys, txn)
}

// Whether the event touches one that was found.
fn reaches(
    alloc: Global,
    events: &[Event],
    own: &OwnEvents,
    reached: &Reached,
    event: &Event,
) -> Mem<bool>
    requires { HasPlaces events.now (length events.now) own.now }
    ensures { IfOk result (λ test. test ≡ reaches events.now reached.now event.now) }
{
    if reached.numbers.get(&event.actor).is_some() {
        return Ok(true);
    }
    if hits(alloc, &reached.keys, &event.kind)? {
        return Ok(true);
    }
    end_hits(alloc, events, own, &reached.keys, &event.kind)
}

// One more event is found.
fn add(alloc: Global, reached: &mut Reached, event: &Event) -> Mem<()>
    ensures { OnOk result (reached.new ≡ with_found reached.old event.now) }
{
    count(&mut reached.numbers, event.actor, is_logged(&event.kind))?;
    note(alloc, &mut reached.keys, &event.kind)?;
    Ok(())
}

// One more event is looked at.
fn look(
    alloc: Global,
    events: &[Event],
    own: &OwnEvents,
    reached: &mut Reached,
    event: &Event,
) -> Mem<()>
    requires { HasPlaces events.now (length events.now) own.now }
    ensures { OnOk result (reached.new ≡ found_if (reaches events.now reached.old event.now) reached.old event.now) }
{
    if reaches(alloc, events, own, reached, event)? {
        add(alloc, reached, event)?;
    }
    Ok(())
}

// The event alone.
fn alone(alloc: Global, event: &Event) -> Mem<Reached>
    ensures { IfOk result (λ reached. reached ≡ with_found (record { numbers = fin.empty; keys = fin.empty }) event.now) }
{
    let mut reached = Reached {
        numbers: NumberMap::new(alloc),
        keys: RowMap::new(alloc),
    };
    add(alloc, &mut reached, event)?;
    Ok(reached)
}

/// The event and those before it that reach it, in a list of events.
pub fn reached_by(alloc: Global, events: &[Event], before: &[Event], event: &Event) -> Mem<Reached>
    ensures { IfOk result (λ reached. HasFound reached (reaching events.now before.now event.now)) }
{
    let own = own_events(alloc, events)?;
    let mut reached = alone(alloc, event)?;
    let mut at = before.len();
    while at > 0 {
        at -= 1;
        look(alloc, events, &own, &mut reached, &before[at])?;
    }
    Ok(reached)
}
