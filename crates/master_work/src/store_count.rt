//! How many page stores there are.
ghost use Rattle.std.specs.Prelude.{◌≡◌, ◌≤◌, ◌+◌, ◌%◌};
ghost use Rattle.tm_base.specs.declared.message.Node.TheVariants.{PageStore};

use std::marker::Model;
use tm_base::{Node, Page};

/// The number of page stores, at least 1. Pages are dealt out to them in turn.
#[derive(Clone, Copy)]
pub struct StoreCount {
    count: u8,
}

impl Model for StoreCount {
    ghost use Rattle.std.specs.Prelude.{ℕ, ◌≤◌};

    ghost Value = { ℕ };

    ghost view = { λ s. s.count };

    ghost inverse = { λ n. record { count = n } };

    ghost invariant = { λ s. 1 ≤ s.count };
}

impl StoreCount {
    /// So many page stores, at least 1.
    pub fn new(count: u8) -> StoreCount
        requires { 1 ≤ count }
        ensures { result ≡ count }
    {
        StoreCount { count }
    }

    /// The page store of a page.
    pub fn store_of(&self, page: Page) -> Node
        ensures { result ≡ PageStore (1 + page.0 % self.now) }
    {
        let count = self.count;
        let turn = page.0 % u32::from(count);
        Node::PageStore {
            number: 1 + turn as u8,
        }
    }
}
