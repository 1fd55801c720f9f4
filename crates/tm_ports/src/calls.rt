//! Which calls of an object in memory are to fail.
ghost use Rattle.std.specs.Prelude.{◌≡◌, ◌↔◌, ◌≤◌, List, ℕ, [], IsTrue, Contains};
ghost use Rattle.tm_ports.specs.Calls.{Calls, next_call, passed, failed};

use std::alloc::Global;
use std::marker::Model;

/// The numbers of the calls that are to fail. The calls of one object are counted from 1.
///
/// Contracts see the list of the numbers, in ascending order.
#[derive(Debug, Drop)]
pub struct FailList {
    items: Vec<u64>,
}

impl Model for FailList {
    ghost use Rattle.std.specs.Prelude.{List, ℕ};
    ghost use Rattle.std.specs.List.Sorted.{IsNonDecreasing};

    ghost Value = { List ℕ };

    ghost view = { λ f. f.items.items };

    ghost invariant = { λ f. IsNonDecreasing f.items.items };
}

impl FailList {
    ghost use Rattle.std.specs.List.Sorted.{IsPermutation};

    /// No call fails.
    pub fn new(alloc: Global) -> FailList
        ensures { result ≡ [] }
    {
        FailList {
            items: Vec::new(alloc),
        }
    }

    /// The calls of these numbers fail. It takes the vector over, and sorts it.
    pub fn from_vec(mut items: Vec<u64>) -> FailList
        ensures { IsPermutation items.items result }
    {
        items.sort_unstable();
        FailList { items }
    }

    /// Whether the call of this number is to fail.
    pub fn names(&self, call: u64) -> bool
        ensures { IsTrue result ↔ Contains self.now call }
    {
        self.items.binary_search(&call).is_ok()
    }
}

/// The calls that were made of an object, those that failed, and those that are to fail.
#[derive(Debug, Drop)]
pub(crate) struct CallPlan {
    made: u64,
    failed: u64,
    fails: FailList,
}

impl Model for CallPlan {
    ghost Value = { Calls };

    ghost view = { λ p. record { made = p.made; failed = p.failed; fails = p.fails } };
}

impl CallPlan {
    /// No call was made yet.
    pub(crate) fn new(fails: FailList) -> CallPlan
        ensures { result ≡ record { made = 0; failed = 0; fails = fails } }
    {
        CallPlan {
            made: 0,
            failed: 0,
            fails,
        }
    }

    /// How many calls failed.
    pub(crate) fn failed(&self) -> u64
        ensures { result ≡ self.now.failed }
    {
        self.failed
    }

    /// Whether the next call is to fail.
    pub(crate) fn fails_next(&self) -> bool
        ensures { IsTrue result ↔ Contains self.now.fails (next_call self.now) }
    {
        self.fails.names(self.made.saturating_add(1))
    }

    /// Counts a call that didn't fail.
    pub(crate) fn pass(&mut self)
        ensures { self.new ≡ passed self.old }
    {
        self.made = self.made.saturating_add(1);
    }

    /// Counts a call that failed.
    pub(crate) fn fail(&mut self)
        ensures value { self.new ≡ failed self.old }
        ensures later { self.old.failed ≤ self.new.failed }
    {
        self.made = self.made.saturating_add(1);
        self.failed = self.failed.saturating_add(1);
    }
}
