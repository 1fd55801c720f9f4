//! Values under numbers, in the order of the numbers.
ghost use Rattle.std.specs.Prelude.{◌≡◌, ℕ, OnOk, OnErr};
ghost use Rattle.std.specs.FinMap as fin;
ghost use Rattle.std.specs.Option.{option_copied};
ghost use Rattle.std.specs.Map.Iter.{ShowsInOrder, deref_pair};

use std::alloc::Global;
use std::collections::BTreeMap;
use std::collections::btree_map::Iter;
use std::marker::Model;
use tm_base::{Mem, NoMemory};

/// A value for each of some numbers. Contracts see the finite map.
#[derive(Drop)]
pub struct NumberMap<V> {
    values: BTreeMap<u32, V>,
}

impl<V> Model for NumberMap<V> {
    ghost use Rattle.std.specs.FinMap as fin;
    ghost use Rattle.std.specs.Ordering.{nat_cmp};
    ghost use Rattle.std.specs.Coded.{coded_ℕ};
    ghost use Rattle.tm_data.specs.Maps.{as_map};

    ghost Value = { fin.FinMap nat_cmp V };

    ghost coded = { fin.code coded_ℕ V.code };

    ghost view = { λ m. as_map m.values };
}

impl<V> NumberMap<V> {
    /// No numbers.
    pub fn new(alloc: Global) -> NumberMap<V>
        ensures { result ≡ fin.empty }
    {
        NumberMap {
            values: BTreeMap::new(alloc),
        }
    }

    /// The value of a number.
    pub fn get(&self, number: u32) -> Option<&V>
        ensures { option_copied result ≡ fin.get self.now number }
    {
        self.values.get(&number)
    }

    /// The numbers with their values, ascending.
    pub fn iter(&self) -> Iter<'_, u32, V>
        ensures rest { result ≡ fin.entries self.now }
        ensures runs { ShowsInOrder (deref_pair {K = ℕ} {X = V}) }
    {
        self.values.iter()
    }
}

impl<V: Drop> NumberMap<V> {
    /// Sets the value of a number. With want of memory nothing changes.
    pub fn insert(&mut self, number: u32, value: V) -> Mem<()>
        ensures ok { OnOk result (self.new ≡ fin.insert self.old number value) }
        ensures err { OnErr result (self.new ≡ self.old) }
    {
        let Ok(_) = self.values.insert(number, value) else {
            return Err(NoMemory);
        };
        Ok(())
    }
}
