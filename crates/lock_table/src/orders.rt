//! Where the nodes of lists are, for a search by halving.
ghost use Rattle.std.specs.Prelude.{◌≡◌, ◌≤◌, ◌<◌, ℕ, List, ◌∷◌, [], Some, None, length, OnOk, OnErr, IfOk, insert, remove, nat_le, ◌||◌};
ghost use Rattle.std.specs.Option.{option_copied};
ghost use Rattle.std.specs.Map.{lookup};
ghost use Rattle.lock_table.specs.Inside.{Becomes, KeepsOthers, Reorders};

use std::alloc::Global;
use std::cmp::Eq;
use std::collections::HashMap;
use std::hash::Hash;
use std::marker::Model;
use tm_base::{Mem, Txn};

/// The places of a list's nodes, as the list has them. Contracts see the list of the places.
#[derive(Drop)]
pub(crate) struct Order {
    places: Vec<usize>,
}

impl Model for Order {
    ghost use Rattle.std.specs.Prelude.{List, ℕ};
    ghost use Rattle.std.specs.Coded.{coded_ℕ, coded_list};

    ghost Value = { List ℕ };

    ghost coded = { coded_list coded_ℕ };

    ghost view = { λ o. o.places.items };
}

impl Order {
    /// One place.
    fn one(alloc: Global, key: usize) -> Mem<Order>
        ensures { IfOk result (λ order. order ≡ key ∷ []) }
    {
        let mut places = Vec::new(alloc);
        places.push(key)?;
        Ok(Order { places })
    }

    /// The places.
    pub(crate) fn as_slice(&self) -> &[usize]
        ensures { result.now ≡ self.now }
    {
        self.places.as_slice()
    }

    /// Adds a place behind the first `at`.
    fn insert(&mut self, at: usize, key: usize) -> Mem<()>
        requires { at ≤ length self.old }
        ensures ok { OnOk result (self.new ≡ insert self.old at key) }
        ensures err { OnErr result (self.new ≡ self.old) }
    {
        self.places.insert(at, key)?;
        Ok(())
    }

    /// Whether it isn't kept without the place behind the first `at`: that is its last one, or isn't there.
    fn is_done(&self, at: usize) -> bool
        ensures { result ≡ (nat_le (length self.now) 1 || nat_le (length self.now) at) }
    {
        self.places.len() <= 1 || at >= self.places.len()
    }

    /// Takes out the place behind the first `at`.
    fn remove(&mut self, at: usize)
        requires { at < length self.old }
        ensures { self.new ≡ remove self.old at }
    {
        self.places.remove(at);
    }
}

/// The orders of some lists, by hash, each under what its list is of. One may be missing, where its memory was wanting:
/// then the list is walked. So no call fails for want of an order. Contracts see the entries.
#[derive(Drop)]
pub(crate) struct OrderMap<K: Eq + Hash> {
    orders: HashMap<K, Order>,
    alloc: Global,
}

impl<K: Eq + Hash> Model for OrderMap<K> {
    ghost use Rattle.std.specs.Prelude.{List, ℕ};

    ghost Value = { List (K × List ℕ) };

    ghost view = { λ m. m.orders.entries };
}

impl<K: Eq + Hash + Copy> OrderMap<K> {
    /// No orders.
    fn new(alloc: Global) -> OrderMap<K>
        ensures { result ≡ [] }
    {
        OrderMap {
            orders: HashMap::new(alloc),
            alloc,
        }
    }

    /// The order of a list.
    pub(crate) fn get(&self, list: K) -> Option<&Order>
        ensures { option_copied result ≡ lookup (K.eq list) self.now }
    {
        self.orders.get(&list)
    }

    /// Drops the order of a list.
    pub(crate) fn forget(&mut self, list: K)
        ensures { Becomes K.eq self.old self.new list None }
    {
        self.orders.remove(&list);
    }

    /// Begins the order of a list with one place.
    pub(crate) fn begin(&mut self, list: K, key: usize)
        requires { lookup (K.eq list) self.old ≡ None }
        ensures { Reorders K.eq self.old self.new list (key ∷ []) }
    {
        let Ok(order) = Order::one(self.alloc, key) else {
            return;
        };
        let Ok(_) = self.orders.insert(list, order) else {
            return;
        };
    }

    /// Adds a place to the order of a list, behind the first `at`.
    pub(crate) fn insert(&mut self, list: K, at: usize, key: usize)
        requires { (order : List ℕ) → lookup (K.eq list) self.old ≡ Some order → at ≤ length order }
        ensures { (order : List ℕ) → lookup (K.eq list) self.old ≡ Some order → Reorders K.eq self.old self.new list (insert order at key) }
    {
        let Some(order) = self.orders.get_mut(&list) else {
            return;
        };
        let Ok(()) = order.insert(at, key) else {
            self.forget(list);
            return;
        };
    }

    /// Takes the place behind the first `at` out of the order of a list.
    pub(crate) fn remove(&mut self, list: K, at: usize)
        ensures order { (order : List ℕ) → lookup (K.eq list) self.old ≡ Some order → at < length order → Reorders K.eq self.old self.new list (remove order at) }
        ensures others { KeepsOthers K.eq self.old self.new list }
    {
        let Some(order) = self.orders.get_mut(&list) else {
            return;
        };
        if order.is_done(at) {
            self.forget(list);
            return;
        }
        order.remove(at);
    }
}

/// The orders of the lists of pages, and of those of transactions.
#[derive(Drop)]
pub(crate) struct Orders {
    pub(crate) pages: OrderMap<u32>,
    pub(crate) txns: OrderMap<Txn>,
}

impl Orders {
    /// No orders.
    pub(crate) fn new(alloc: Global) -> Orders
        ensures { (result.pages ≡ []) × (result.txns ≡ []) }
    {
        Orders {
            pages: OrderMap::new(alloc),
            txns: OrderMap::new(alloc),
        }
    }
}
