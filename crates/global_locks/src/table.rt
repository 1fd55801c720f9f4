//! Entries under numbers.
ghost use Rattle.std.specs.Prelude.{◌≡◌, ◌<◌, ◌≤◌, ◌+◌, ◌^◌, ℕ, [], length, nat_eq, cond, slice_get, OnOk, OnErr, IsSome, None, Some};
ghost use Rattle.std.specs.Option.{option_copied};
ghost use Rattle.std.specs.List.{IsDistinct};
ghost use Rattle.std.specs.Map.{keys_of};
ghost use Rattle.indexmap.specs.IndexMap.{spare};
ghost use Rattle.lock_model.specs.State.{at, put, put_all};

use indexmap::IndexMap;
use std::alloc::Global;
use std::marker::Model;
use tm_base::{Mem, NoMemory};

/// A table that keeps the order of insertion while nothing is taken out. Contracts see the list of its
/// entries.
#[derive(Drop)]
pub(crate) struct Table<V> {
    pub(crate) map: IndexMap<u32, V>,
}

impl<V> Model for Table<V> {
    ghost use Rattle.std.specs.Prelude.{List, ℕ};

    ghost Value = { List (ℕ × V) };

    ghost view = { λ t. t.map.entries };
}

impl<V> Table<V> {
    /// No entries.
    pub(crate) fn new(alloc: Global) -> Table<V>
        ensures { result ≡ [] }
    {
        Table {
            map: IndexMap::new(alloc),
        }
    }

    /// How many entries there are.
    pub(crate) fn len(&self) -> usize
        ensures { result ≡ length self.now }
    {
        self.map.len()
    }

    /// No number has two entries, as a proof may want to know.
    pub(crate) fn numbers_differ(&self)
        ensures { IsDistinct nat_eq (keys_of self.now) }
    {
        let _ = self.map.len();
    }

    /// The entry under a number, if there is one.
    pub(crate) fn get(&self, number: u32) -> Option<&V>
        ensures { option_copied result ≡ at self.now number }
    {
        self.map.get(&number)
    }
}

impl<V: Drop> Table<V> {
    /// Puts an entry under a number: one that is there is replaced in its place, a new one is last. Only
    /// a new one may want memory, and then nothing changes.
    pub(crate) fn put(&mut self, number: u32, entry: V) -> Mem<()>
        ensures ok { OnOk result (self.new ≡ put self.old number entry) }
        ensures err { OnErr result (self.new ≡ self.old) }
        ensures absent { OnErr result (at self.old number ≡ None) }
        ensures len { length self.new ≤ length self.old + 1 }
        ensures known { IsSome (at self.old number) → length self.new ≡ length self.old }
    {
        let _old = match self.map.insert(number, entry) {
            Ok(old) => old,
            Err(_) => return Err(NoMemory),
        };
        Ok(())
    }

    /// Puts another entry under a number that has one.
    pub(crate) fn set(&mut self, number: u32, entry: V)
        requires { IsSome (at self.old number) }
        ensures value { self.new ≡ put self.old number entry }
        ensures len { length self.new ≡ length self.old }
    {
        let _ = self.put(number, entry);
    }

    /// Takes out the entry under a number. The last entry gets its place.
    pub(crate) fn take(&mut self, number: u32)
        ensures { (other : ℕ) → at self.new other ≡ cond (nat_eq number other) None (at self.old other) }
    {
        let _entry = self.map.swap_remove(&number);
    }

    /// Puts each of these entries in turn. With want of memory nothing changes.
    pub(crate) fn put_all(&mut self, entries: Vec<(u32, V)>) -> Mem<()>
        ensures ok { OnOk result (self.new ≡ put_all self.old entries.items) }
        ensures err { OnErr result (self.new ≡ self.old) }
    {
        self.map.reserve(entries.len())?;
        for (number, entry) in entries {
            put_with_room(&mut self.map, number, entry);
        }
        Ok(())
    }
}

/// Puts an entry where there is room for it.
fn put_with_room<V: Drop>(map: &mut IndexMap<u32, V>, number: u32, entry: V)
    requires { 0 < spare map.old }
    ensures entries { map.new.entries ≡ put map.old.entries number entry }
    ensures room { spare map.old ≤ spare map.new + 1 }
{
    let _ = map.insert(number, entry);
}
