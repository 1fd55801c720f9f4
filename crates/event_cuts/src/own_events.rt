//! Where the events of each transaction stand in a list.
ghost use Rattle.std.specs.Prelude.{◌≡◌, ◌++◌, ◌∷◌, [], length, IfOk, OnOk};
ghost use Rattle.std.specs.FinMap as fin;
ghost use Rattle.event_cuts.specs.Places.{txn_of, or_none, with_place, HasPlaces};

use key_model::{Event, EventKind};
use std::alloc::Global;
use tm_base::{ItemList, Mem, Txn, TxnMap};

/// Places in a list of events, counted from 0.
pub type PlaceList = ItemList<usize>;

/// The places of the events of each transaction.
pub type OwnEvents = TxnMap<PlaceList>;

fn txn_of(event: &Event) -> Txn
    ensures { result ≡ txn_of event.now.kind }
{
    match &event.kind {
        EventKind::Read { txn, .. } => *txn,
        EventKind::Put { txn, .. } => *txn,
        EventKind::End { txn, .. } => *txn,
    }
}

// Takes out the places of a transaction.
fn taken(alloc: Global, own: &mut OwnEvents, txn: &Txn) -> PlaceList
    ensures value { result ≡ or_none (fin.get own.old txn.now) }
    ensures removed { own.new ≡ fin.remove own.old txn.now }
{
    match own.remove(txn) {
        Some(places) => places,
        None => ItemList::new(alloc),
    }
}

// The event at the place is one more of the transaction.
fn note(alloc: Global, own: &mut OwnEvents, txn: Txn, place: usize) -> Mem<()>
    ensures { OnOk result (own.new ≡ with_place own.old txn place) }
{
    let mut places = taken(alloc, own, &txn);
    places.push(place)?;
    own.insert(txn, places)?;
    Ok(())
}

/// The places of the events of each transaction, ascending.
pub fn own_events(alloc: Global, events: &[Event]) -> Mem<OwnEvents>
    ensures { IfOk result (λ own. HasPlaces events.now (length events.now) own) }
{
    let mut own = TxnMap::new(alloc);
    let mut at = 0;
    while at < events.len() {
        note(alloc, &mut own, txn_of(&events[at]), at)?;
        at += 1;
    }
    Ok(own)
}
