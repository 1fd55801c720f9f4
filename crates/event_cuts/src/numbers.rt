//! A number for each of some writers.
ghost use Rattle.std.specs.Prelude.{◌≡◌, ℕ, OnOk};
ghost use Rattle.std.specs.FinMap as fin;
ghost use Rattle.std.specs.Option.{option_copied};
ghost use Rattle.std.specs.Map.Iter.{ShowsInOrder, deref_pair};

use std::alloc::Global;
use std::collections::BTreeMap;
use std::collections::btree_map::Iter;
use std::marker::Model;
use tm_base::{Mem, NoMemory, Writer};

/// A number for each of some writers, ascending by writer. Contracts see the finite map.
#[derive(Drop)]
pub struct NumberMap {
    numbers: BTreeMap<Writer, u32>,
}

impl Model for NumberMap {
    ghost use Rattle.std.specs.Prelude.{ℕ};
    ghost use Rattle.std.specs.Coded.{coded_ℕ};
    ghost use Rattle.std.specs.FinMap as fin;
    ghost use Rattle.tm_data.specs.Maps.{as_map};
    ghost use Rattle.tm_data.specs.Orders.{writer_cmp, coded_writer};

    ghost Value = { fin.FinMap writer_cmp ℕ };

    ghost coded = { fin.code coded_writer coded_ℕ };

    ghost view = { λ m. as_map m.numbers };
}

impl NumberMap {
    /// No writers.
    pub fn new(alloc: Global) -> NumberMap
        ensures { result ≡ fin.empty }
    {
        NumberMap {
            numbers: BTreeMap::new(alloc),
        }
    }

    /// The number of a writer.
    pub fn get(&self, writer: &Writer) -> Option<&u32>
        ensures { option_copied result ≡ fin.get self.now writer.now }
    {
        self.numbers.get(writer)
    }

    /// Sets the number of a writer.
    pub fn insert(&mut self, writer: Writer, number: u32) -> Mem<()>
        ensures { OnOk result (self.new ≡ fin.insert self.old writer number) }
    {
        let Ok(_) = self.numbers.insert(writer, number) else {
            return Err(NoMemory);
        };
        Ok(())
    }

    /// The writers with their numbers, ascending by writer.
    pub fn iter(&self) -> Iter<'_, Writer, u32>
        ensures rest { result ≡ fin.entries self.now }
        ensures runs { ShowsInOrder (deref_pair {K = Writer} {X = ℕ}) }
    {
        self.numbers.iter()
    }
}
