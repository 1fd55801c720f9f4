//! How transactions ended.
ghost use Rattle.std.specs.Prelude.{◌≡◌, OnOk, OnErr};
ghost use Rattle.std.specs.FinMap as fin;
ghost use Rattle.key_model.specs.Inside.{valued, over, HasAll};

use tm_base::{Mem, Txn, TxnMap};

/// A place for each transaction that may have ended: an empty place counts as no end. So ends can enter
/// without memory once there are places for them.
pub type Outcomes = TxnMap<Option<bool>>;

/// How a transaction ended.
pub fn outcome_of(places: &Outcomes, txn: &Txn) -> Option<bool>
    ensures { result ≡ fin.get (valued places.now) txn.now }
{
    match places.get(txn) {
        Some(place) => *place,
        None => None,
    }
}

/// Enters one end.
pub fn enter_end(places: &mut Outcomes, txn: Txn, committed: bool) -> Mem<()>
    ensures ok { OnOk result (valued places.new ≡ fin.insert (valued places.old) txn committed) }
    ensures err { OnErr result (valued places.new ≡ valued places.old) }
{
    places.insert(txn, Some(committed))?;
    Ok(())
}

/// Makes an empty place for each end that is to enter and has none. Nothing ends by it, also where memory
/// is wanting.
pub fn reserve_ends(places: &mut Outcomes, ends: &TxnMap<bool>) -> Mem<()>
    ensures same { valued places.new ≡ valued places.old }
    ensures ready { OnOk result (HasAll places.new (fin.keys ends.now)) }
{
    for (txn, _) in ends.iter() {
        if places.get(txn).is_none() {
            places.insert(*txn, None)?;
        }
    }
    Ok(())
}

/// Enters the ends.
pub fn enter_ends(places: &mut Outcomes, ends: &TxnMap<bool>)
    requires { HasAll places.old (fin.keys ends.now) }
    ensures { valued places.new ≡ over (valued places.old) (fin.entries ends.now) }
{
    for (txn, committed) in ends.iter() {
        let _ = places.insert(*txn, Some(*committed));
    }
}
