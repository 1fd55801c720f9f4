//! The fresh pages that a master has in stock.
ghost use Rattle.std.specs.Prelude.{◌≡◌, ◌++◌, ◌∷◌, [], List, filter, not, nat_eq, OnOk, OnErr};
ghost use Rattle.tm_data.specs.declared.transaction.Page.{Page};

use std::alloc::Global;
use std::marker::Model;
use tm_base::{Mem, Page};

/// Pages that no table uses, in the order in which they came. Contracts see the list of them.
#[derive(Drop)]
pub struct Stock {
    pages: Vec<Page>,
}

impl Model for Stock {
    ghost use Rattle.std.specs.Prelude.{List};
    ghost use Rattle.tm_data.specs.declared.transaction.Page.{Page};

    ghost Value = { List Page };

    ghost view = { λ s. s.pages.items };
}

impl Stock {
    /// No pages.
    pub fn new(alloc: Global) -> Stock
        ensures { result ≡ [] }
    {
        Stock {
            pages: Vec::new(alloc),
        }
    }

    /// The pages, in order.
    pub fn as_slice(&self) -> &[Page]
        ensures { result.now ≡ self.now }
    {
        self.pages.as_slice()
    }

    /// Adds a page behind the others. With want of memory nothing changes.
    pub fn push(&mut self, page: Page) -> Mem<()>
        ensures ok { OnOk result (self.new ≡ self.old ++ page ∷ []) }
        ensures err { OnErr result (self.new ≡ self.old) }
    {
        self.pages.push(page)?;
        Ok(())
    }

    /// Takes back the page that was added last. It takes no memory.
    pub fn take_back(&mut self)
        ensures { (pages : List Page) → (page : Page) → self.old ≡ pages ++ page ∷ [] → self.new ≡ pages }
    {
        let _ = self.pages.pop();
    }

    /// Takes a page out, wherever it is. It takes no memory.
    pub fn remove(&mut self, page: Page)
        ensures { self.new ≡ filter (λ p. not (nat_eq p.0 page.0)) self.old }
    {
        self.pages.retain(|p| p.0 != page.0);
    }
}
