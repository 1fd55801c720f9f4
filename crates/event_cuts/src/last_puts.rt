//! The last put on each key in a cut, with the value before its transaction.
ghost use Rattle.std.specs.Prelude.{◌≡◌, [], IfOk, OnOk};
ghost use Rattle.std.specs.FinMap as fin;
ghost use Rattle.std.specs.Option.{option_copied};
ghost use Rattle.key_model.specs.Steps.{row_of};
ghost use Rattle.key_model.specs.Cuts.{is_in, of_vector, row_at};
ghost use Rattle.event_cuts.specs.Inside.{last_put, with_earlier, with_put, with_event, before_in, row_from, mapped, Finds};

use crate::ended::is_in;
use key_model::{Event, EventKind, EventList};
use std::alloc::Global;
use tm_base::{
    Before, ByteList, Key, Mem, Row, RowKey, RowMap, TryCopy, Txn, TxnMap, Value, Vector,
};

/// The last put on a key, and what was found of the puts before it, from the last on.
#[derive(Drop)]
pub struct LastPut {
    pub key: Key,
    pub txn: Txn,
    pub value: Option<Value>,
    /// What the put before the transaction's earliest known one wrote, unless that one is the earliest.
    pub before: Option<Value>,
    /// Whether the earliest known put is one of the transaction.
    pub own: bool,
}

/// The last put on each of some keys.
pub type LastPuts = RowMap<LastPut>;

impl LastPut {
    // The last put on its key.
    fn new(key: &Key, txn: Txn, value: &Option<Value>) -> Mem<LastPut>
        ensures { IfOk result (λ put. put ≡ last_put key.now txn value.now) }
    {
        Ok(LastPut {
            key: key.copy()?,
            txn,
            value: value.copy()?,
            before: None,
            own: true,
        })
    }

    // One more put is found, earlier than those before.
    fn add(self, txn: Txn, value: &Option<Value>) -> Mem<LastPut>
        ensures { IfOk result (λ put. put ≡ with_earlier self txn value.now) }
    {
        let own = self.txn == txn;
        if !self.own {
            return Ok(LastPut { own, ..self });
        }
        let before = value.copy()?;
        Ok(LastPut {
            before,
            own,
            ..self
        })
    }

    // The value before the transaction, once all puts are found.
    fn value_before(&self) -> Option<&Value>
        ensures { option_copied result ≡ before_in self.now }
    {
        if self.own { None } else { self.before.as_ref() }
    }

    /// The row of the key, once all puts are found.
    pub fn row(&self) -> Mem<Row>
        ensures { IfOk result (λ row. row ≡ row_from self.now) }
    {
        let before = if self.value_before() == self.value.as_ref() {
            Before::Same
        } else {
            let value = match self.value_before() {
                Some(value) => Some(value.copy()?),
                None => None,
            };
            Before::Was(value)
        };
        Ok(Row {
            key: self.key.copy()?,
            txn: self.txn,
            now: self.value.copy()?,
            before,
        })
    }

    /// The value of the key in the map, once all puts are found, where these transactions have ended.
    pub fn value(&self, ended: &TxnMap<()>) -> Option<&Value>
        ensures { option_copied result ≡ mapped ended.now self.now }
    {
        if ended.get(&self.txn).is_some() {
            self.value.as_ref()
        } else {
            self.value_before()
        }
    }
}

// One more put is found, earlier than those before.
fn add_put(
    puts: &mut LastPuts,
    place: RowKey,
    key: &Key,
    txn: Txn,
    value: &Option<Value>,
) -> Mem<()>
    ensures { OnOk result (puts.new ≡ with_put puts.old place key.now txn value.now) }
{
    let put = match puts.remove(&place) {
        Some(put) => put.add(txn, value)?,
        None => LastPut::new(key, txn, value)?,
    };
    puts.insert(place, put)?;
    Ok(())
}

// One more event is found, earlier than those before.
fn add_event(alloc: Global, puts: &mut LastPuts, event: &Event, cut: &Vector) -> Mem<()>
    ensures { OnOk result (puts.new ≡ with_event (is_in (of_vector cut.now) event.now) puts.old event.now.kind) }
{
    if !is_in(cut, event) {
        return Ok(());
    }
    let EventKind::Put {
        txn,
        table,
        key,
        value,
    } = &event.kind
    else {
        return Ok(());
    };
    let place = RowKey {
        table: *table,
        key: ByteList::from_slice(alloc, key.as_slice())?,
    };
    add_put(puts, place, key, *txn, value)?;
    Ok(())
}

/// The last put on each key that the cut has a put on.
///
/// The events are gone through from the last to the first: so the value before a transaction is that of the
/// put that comes next after each of the transaction's, whatever puts of others stand between.
pub fn last_puts(events: &EventList, cut: &Vector) -> Mem<LastPuts>
    ensures { IfOk result (λ puts. Finds puts (λ key. []) (row_at events.now (of_vector cut.now))) }
{
    let alloc = events.allocator();
    let items = events.as_slice();
    let mut puts = RowMap::new(alloc);
    let mut at = items.len();
    while at > 0 {
        at -= 1;
        add_event(alloc, &mut puts, &items[at], cut)?;
    }
    Ok(puts)
}
