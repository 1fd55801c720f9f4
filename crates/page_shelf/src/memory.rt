//! A shelf in memory.
ghost use Rattle.std.specs.Prelude.{◌≡◌, [], None};

use crate::{Shelf, ShelfError, ShelfItem, ShelfItemList};
use std::alloc::Global;
use std::marker::Model;
use tm_base::{Mem, NoMemory, TryCopy};

/// A shelf in memory, which never fails. Contracts see its items.
#[derive(Debug, Drop)]
pub struct MemoryShelf {
    kept: ShelfItemList,
}

impl Model for MemoryShelf {
    ghost use Rattle.std.specs.Prelude.{List};
    ghost use Rattle.page_shelf.specs.declared.shelf.ShelfItem.{ShelfItem};

    ghost Value = { List ShelfItem };

    ghost view = { λ s. s.kept };
}

impl MemoryShelf {
    /// No item.
    pub fn new(alloc: Global) -> MemoryShelf
        ensures { result ≡ [] }
    {
        MemoryShelf {
            kept: ShelfItemList::new(alloc),
        }
    }
}

impl Shelf for MemoryShelf {
    ghost items = { λ s. s };

    ghost under_way = { λ _. None };

    ghost faulted = { λ _. 0 };

    ghost failing = { λ _. None };

    fn faults(&self) -> u64 {
        0
    }

    fn fail_at(&mut self, _k: u32) {}

    fn add(&mut self, item: &ShelfItem) -> Result<(), ShelfError> {
        self.kept.push(item.copy()?)?;
        Ok(())
    }

    fn count(&self) -> usize {
        self.kept.len()
    }

    fn item(&self, at: usize) -> Mem<ShelfItem> {
        let Some(item) = self.kept.get(at) else {
            return Err(NoMemory);
        };
        item.copy()
    }
}
