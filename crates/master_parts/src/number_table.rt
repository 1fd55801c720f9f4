//! Values under numbers, with room for more.
ghost use Rattle.std.specs.Prelude.{◌≡◌, ◌≤◌, ◌+◌, IsSome, OnOk};
ghost use Rattle.std.specs.FinMap as fin;
ghost use Rattle.std.specs.Option.{option_copied};

use indexmap::IndexMap;
use std::alloc::Global;
use std::marker::Model;
use tm_base::Mem;

/// A value for each of some numbers, found by hash. The memory is taken before it is needed, so that a value that
/// comes later takes none. Contracts see the finite map, and for how many further numbers there is room at least.
#[derive(Drop)]
pub struct NumberTable<V> {
    values: IndexMap<u32, V>,
}

impl<V> Model for NumberTable<V> {
    ghost use Rattle.std.specs.FinMap as fin;
    ghost use Rattle.indexmap.specs.IndexMap.{spare};
    ghost use Rattle.master_parts.specs.Tables.{Table, coded_table};

    ghost Value = { Table V };

    ghost coded = { coded_table V.code };

    ghost view = { λ t. record { map = fin.from_entries t.values.entries; room = spare t.values } };
}

impl<V> NumberTable<V> {
    /// No numbers.
    pub fn new(alloc: Global) -> NumberTable<V>
        ensures { result.map ≡ fin.empty }
    {
        NumberTable {
            values: IndexMap::new(alloc),
        }
    }

    /// The value of a number.
    pub fn get(&self, number: u32) -> Option<&V>
        ensures { option_copied result ≡ fin.get self.now.map number }
    {
        self.values.get(&number)
    }
}

impl<V: Drop> NumberTable<V> {
    /// Takes room for so many numbers more. The values stay.
    pub fn make_room(&mut self, count: usize) -> Mem<()>
        ensures same { self.new.map ≡ self.old.map }
        ensures ok { OnOk result (count ≤ self.new.room) }
    {
        self.values.reserve(count)?;
        Ok(())
    }

    /// Sets the value of a number, where there is room for one more. It takes no memory.
    pub fn insert(&mut self, number: u32, value: V)
        requires { 1 ≤ self.old.room }
        ensures set { self.new.map ≡ fin.insert self.old.map number value }
        ensures room { self.old.room ≤ self.new.room + 1 }
    {
        let _ = self.values.insert(number, value);
    }

    /// Sets the value of a number that has one, and gives the one that it had. It takes no memory.
    pub fn replace(&mut self, number: u32, value: V) -> Option<V>
        requires { IsSome (fin.get self.old.map number) }
        ensures was { result ≡ fin.get self.old.map number }
        ensures set { self.new.map ≡ fin.insert self.old.map number value }
    {
        match self.values.insert(number, value) {
            Ok(old) => old,
            Err(_) => None,
        }
    }

    /// Takes a number away. It takes no memory.
    pub fn remove(&mut self, number: u32)
        ensures { self.new.map ≡ fin.remove self.old.map number }
    {
        let _ = self.values.swap_remove(&number);
    }
}
