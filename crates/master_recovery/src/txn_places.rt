//! The transactions that have ended, with places that are made before they are needed.
ghost use Rattle.std.specs.Prelude.{◌≡◌, None, Some, IsSome, OnOk, OnErr};
ghost use Rattle.std.specs.FinMap as fin;
ghost use Rattle.master_recovery.specs.Places.{HasAll, itself, nothing, valued, with_items};

use tm_base::{ItemList, Mem, Txn, TxnMap};

/// A place for each of some transactions; an empty one counts as none.
pub(crate) type TxnPlaces = TxnMap<Option<()>>;

/// Whether the transaction is noted.
pub(crate) fn has_end(places: &TxnPlaces, txn: Txn) -> bool
    ensures { result ≡ fin.contains_key (valued places.now) txn }
{
    match places.get(&txn) {
        Some(place) => place.is_some(),
        None => false,
    }
}

/// Whether the transaction has a place.
fn has(places: &TxnPlaces, txn: &Txn) -> bool
    ensures { result ≡ fin.contains_key places.now txn.now }
{
    places.get(txn).is_some()
}

/// Notes a transaction that has a place. It takes no memory.
fn set(places: &mut TxnPlaces, txn: Txn)
    requires { IsSome (fin.get places.old txn) }
    ensures { places.new ≡ fin.insert places.old txn (Some tt) }
{
    let _ = places.insert(txn, Some(()));
}

/// Makes an empty place for each transaction that has none. None is noted by it, also where memory is wanting.
pub(crate) fn reserve(places: &mut TxnPlaces, txns: &ItemList<Txn>) -> Mem<()>
    ensures same { valued places.new ≡ valued places.old }
    ensures ready { OnOk result (HasAll itself places.new txns.now) }
{
    for txn in txns.as_slice().iter() {
        if !has(places, txn) {
            places.insert(*txn, None)?;
        }
    }
    Ok(())
}

/// Notes the transactions, which have places. It takes no memory.
pub(crate) fn enter(places: &mut TxnPlaces, txns: ItemList<Txn>)
    requires { HasAll itself places.old txns }
    ensures { valued places.new ≡ with_items itself nothing (valued places.old) txns }
{
    for txn in txns.into_vec() {
        set(places, txn);
    }
}
