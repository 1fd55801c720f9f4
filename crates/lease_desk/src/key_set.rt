//! A set of numbers in ascending order, with room for more.
ghost use Rattle.std.specs.Prelude.{◌≡◌, ◌<◌, ◌≤◌, ◌+◌, ◌^◌, ℕ, [], OnOk, IfSome, IfNone, true, false, cond, nat_eq, length};
ghost use Rattle.std.specs.Prelude.{get_or};
ghost use Rattle.lease_desk.specs.Inside.{is_in, IsPlace, Rising};

use std::alloc::Global;
use std::marker::Model;
use tm_base::Mem;

/// Numbers, each once, in ascending order in one piece of memory: a number is found by halving. The memory is
/// taken before it is needed, so that a number that comes later takes none. Contracts see the list of the
/// numbers, and for how many there is room.
#[derive(Drop)]
pub(crate) struct KeySet {
    keys: Vec<u64>,
}

impl Model for KeySet {
    ghost use Rattle.std.specs.Prelude.{◌≤◌, vec_len, vec_capacity};
    ghost use Rattle.lease_desk.specs.Inside.{Rising, Slots};

    ghost Value = { Slots };

    ghost view = { λ s. record { numbers = s.keys.items; room = vec_capacity s.keys } };

    ghost invariant = { λ s. Rising s.keys.items × (vec_len s.keys ≤ vec_capacity s.keys) };
}

impl KeySet {
    /// No numbers.
    pub(crate) fn new(alloc: Global) -> KeySet
        ensures { result.numbers ≡ [] }
    {
        KeySet {
            keys: Vec::new(alloc),
        }
    }

    /// How many numbers there are.
    pub(crate) fn len(&self) -> usize
        ensures { result ≡ length self.now.numbers }
    {
        self.keys.len()
    }

    /// Takes room for so many numbers.
    pub(crate) fn make_room(&mut self, count: usize) -> Mem<()>
        ensures same { self.new.numbers ≡ self.old.numbers }
        ensures kept { self.old.room ≤ self.new.room }
        ensures ok { OnOk result (count ≤ self.new.room) }
    {
        let len = self.keys.len();
        if len < count {
            self.keys.reserve(count - len)?;
        }
        Ok(())
    }

    /// Adds a number for which there is room.
    pub(crate) fn add(&mut self, key: u64)
        requires absent { is_in self.old.numbers key ≡ false }
        requires room { length self.old.numbers < self.old.room }
        ensures there { (k : ℕ) → is_in self.new.numbers k ≡ cond (nat_eq k key) true (is_in self.old.numbers k) }
        ensures count { length self.new.numbers ≡ length self.old.numbers + 1 }
        ensures room { self.new.room ≡ self.old.room }
    {
        let place = place(self.keys.as_slice(), key);
        let _ = self.keys.insert(place, key);
    }

    /// Takes a number out.
    pub(crate) fn remove(&mut self, key: u64)
        requires { is_in self.old.numbers key ≡ true }
        ensures gone { (k : ℕ) → is_in self.new.numbers k ≡ cond (nat_eq k key) false (is_in self.old.numbers k) }
        ensures count { length self.new.numbers + 1 ≡ length self.old.numbers }
        ensures room { self.new.room ≡ self.old.room }
    {
        let place = place(self.keys.as_slice(), key);
        self.keys.remove(place);
    }

    /// The least number from `least` on.
    pub(crate) fn first_from(&self, least: u64) -> Option<u64>
        ensures there { IfSome result (λ key. (least ≤ key) × (is_in self.now.numbers key ≡ true)) }
        ensures first { IfSome result (λ key. (k : ℕ) → least ≤ k → k < key → is_in self.now.numbers k ≡ false) }
        ensures none { IfNone result ((k : ℕ) → least ≤ k → is_in self.now.numbers k ≡ false) }
    {
        let place = place(self.keys.as_slice(), least);
        match self.keys.get(place) {
            Some(key) => Some(*key),
            None => None,
        }
    }
}

/// How many numbers are below `least`, by halving.
fn place(keys: &[u64], least: u64) -> usize
    requires { Rising keys.now }
    ensures { IsPlace keys.now least result }
{
    let mut low = 0;
    let mut high = keys.len();
    while low < high {
        let middle = low + (high - low) / 2;
        if keys[middle] < least {
            low = middle + 1;
        } else {
            high = middle;
        }
    }
    low
}
