//! Which events are in a cut, and which transactions have their end there.
ghost use Rattle.std.specs.Prelude.{◌≡◌, IfOk, OnOk};
ghost use Rattle.key_model.specs.Cuts.{is_in, of_vector, within};
ghost use Rattle.event_cuts.specs.Inside.{with_end, HasEnds};

use key_model::{Event, EventKind, EventList};
use tm_base::{Mem, TxnMap, Vector};

/// Whether the event is a logged one whose stamp is at most its writer's in the cut.
pub fn is_in(cut: &Vector, event: &Event) -> bool
    ensures { result ≡ is_in (of_vector cut.now) event.now }
{
    match event.kind {
        EventKind::Read { .. } => false,
        EventKind::Put { .. } | EventKind::End { .. } => event.stamp.0 <= cut.get(event.actor).0,
    }
}

// One more event is found.
fn add_event(ended: &mut TxnMap<()>, event: &Event, cut: &Vector) -> Mem<()>
    ensures { OnOk result (ended.new ≡ with_end (is_in (of_vector cut.now) event.now) ended.old event.now.kind) }
{
    if !is_in(cut, event) {
        return Ok(());
    }
    let EventKind::End { txn, .. } = &event.kind else {
        return Ok(());
    };
    ended.insert(*txn, ())?;
    Ok(())
}

/// The transactions that have their end in the cut.
pub fn ended_in(events: &EventList, cut: &Vector) -> Mem<TxnMap<()>>
    ensures { IfOk result (λ ended. HasEnds ended (within (of_vector cut.now) events.now)) }
{
    let mut ended = TxnMap::new(events.allocator());
    for event in events.as_slice().iter() {
        add_event(&mut ended, event, cut)?;
    }
    Ok(ended)
}
