//! The pages that are held.
ghost use Rattle.std.specs.Prelude.{◌≡◌, ◌<◌, ◌≤◌, ◌+◌, ◌^◌, ℕ, [], OnOk, OnErr, IfSome, IfNone, true, false, cond, nat_eq, length};
ghost use Rattle.lease_desk.specs.Inside.{is_in};

use std::alloc::Global;
use std::collections::BTreeSet;
use std::marker::Model;
use std::ops::Bound;
use tm_base::Mem;

/// Pages by their numbers. Contracts see the list of the numbers, ascending.
#[derive(Drop)]
pub(crate) struct HeldPages {
    pages: BTreeSet<u32>,
}

impl Model for HeldPages {
    ghost use Rattle.std.specs.Prelude.{List, ℕ};

    ghost Value = { List ℕ };

    ghost view = { λ s. s.pages.keys };
}

impl HeldPages {
    /// No pages.
    pub(crate) fn new(alloc: Global) -> HeldPages
        ensures { result ≡ [] }
    {
        HeldPages {
            pages: BTreeSet::new(alloc),
        }
    }

    /// How many pages there are.
    pub(crate) fn len(&self) -> usize
        ensures { result ≡ length self.now }
    {
        self.pages.len()
    }

    /// Adds a page. With want of memory nothing changes.
    pub(crate) fn add(&mut self, page: u32) -> Mem<()>
        requires { is_in self.old page ≡ false }
        ensures there { OnOk result ((k : ℕ) → is_in self.new k ≡ cond (nat_eq k page) true (is_in self.old k)) }
        ensures count { OnOk result (length self.new ≡ length self.old + 1) }
        ensures err { OnErr result (self.new ≡ self.old) }
    {
        self.pages.insert(page)?;
        Ok(())
    }

    /// Takes a page out.
    pub(crate) fn remove(&mut self, page: u32)
        requires { is_in self.old page ≡ true }
        ensures gone { (k : ℕ) → is_in self.new k ≡ cond (nat_eq k page) false (is_in self.old k) }
        ensures count { length self.new + 1 ≡ length self.old }
    {
        self.pages.remove(&page);
    }

    /// The least page above `after`.
    pub(crate) fn first_above(&self, after: u32) -> Option<u32>
        ensures there { IfSome result (λ page. (after < page) × (is_in self.now page ≡ true)) }
        ensures first { IfSome result (λ page. (k : ℕ) → after < k → k < page → is_in self.now k ≡ false) }
        ensures none { IfNone result ((k : ℕ) → after < k → is_in self.now k ≡ false) }
        ensures fits { IfSome result (λ page. page < 2 ^ 32) }
    {
        let mut above = self.pages.range((Bound::Excluded(after), Bound::Unbounded));
        match above.next() {
            Some(page) => Some(*page),
            None => None,
        }
    }
}
