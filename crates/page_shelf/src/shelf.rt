//! A shelf, as a page store sees it.
ghost use Rattle.std.specs.Prelude.{◌≡◌, ◌≤◌, ◌<◌, ◌++◌, ◌∷◌, [], List, ℕ, None, Some, length, slice_get, OnOk, OnErr, IfOk, IfErr};
ghost use Rattle.std.specs.declared.option.Option.{Option};
ghost use Rattle.tm_disks.specs.Disk.{Failing, with_named};
ghost use Rattle.page_shelf.specs.declared.shelf.ShelfItem.{ShelfItem};
ghost use Rattle.page_shelf.specs.Shelf.{Cause, IsItem, Obeys, left_under_way};

use tm_base::{Group, Image, ItemList, Mem, NoMemory, TryCopy};

/// What is kept.
#[derive(Debug, Drop, PartialEq, Eq)]
pub enum ShelfItem {
    /// A group with those of its records alone that are on the store's pages. There may be none.
    Part(Group),
    /// A page as it was after some of its records.
    Kept(Image),
}

impl TryCopy for ShelfItem {
    fn copy(&self) -> Mem<ShelfItem> {
        Ok(match self {
            ShelfItem::Part(group) => ShelfItem::Part(group.copy()?),
            ShelfItem::Kept(image) => ShelfItem::Kept(image.copy()?),
        })
    }
}

/// Items in order.
pub type ShelfItemList = ItemList<ShelfItem>;

/// Why an item wasn't added.
#[derive(Clone, Copy, Debug, PartialEq, Eq)]
pub enum ShelfError {
    /// The disk under the shelf failed: the shelf's count of faults rose in this call. Nothing is added any more.
    Failed,
    /// Want of memory. Nothing has changed.
    NoMemory,
}

impl From<NoMemory> for ShelfError {
    ghost use Rattle.page_shelf.specs.declared.shelf.ShelfError.TheVariants.{NoMemory};

    ghost from_gives = { λ _ e. e ≡ NoMemory };

    fn from(_: NoMemory) -> Self {
        ShelfError::NoMemory
    }
}

/// A list of items to which more are added at its end.
pub trait Shelf {
    /// The items, in the order in which they were added.
    ghost items: { Self → List ShelfItem };

    /// The item that was under way where an add failed. After a crash it may be the last one.
    ghost under_way: { Self → Option ShelfItem };

    /// How often it failed.
    ghost faulted: { Self → ℕ };

    /// Which of the coming calls of the disk under it are to fail, where that tells.
    ghost failing: { Self → Option Failing };

    /// How often it failed. The count stays at `u64::MAX`.
    fn faults(&self) -> u64
        ensures { result ≡ faulted self.now };

    /// The k-th call of the disk from now on is to fail, in place of one that was named so before and hasn't come. It
    /// takes no memory. A shelf that can't fail on demand ignores it.
    fn fail_at(&mut self, k: u32)
        requires { 1 ≤ k }
        ensures items { items self.new ≡ items self.old }
        ensures under_way { under_way self.new ≡ under_way self.old }
        ensures plan { failing self.new ≡ with_named (failing self.old) k }
        ensures count { faulted self.new ≡ faulted self.old };

    /// Adds an item, which has a spelling as bytes. No earlier add failed.
    fn add(&mut self, item: &ShelfItem) -> Result<(), ShelfError>
        requires spelled { IsItem item.now }
        requires open { under_way self.old ≡ None }
        ensures ok { OnOk result ((items self.new ≡ items self.old ++ item.now ∷ []) × (under_way self.new ≡ None)) }
        ensures err { OnErr result (items self.new ≡ items self.old) }
        ensures left { IfErr result (λ e. under_way self.new ≡ left_under_way item.now e) }
        ensures plan { Obeys (failing self.old) (failing self.new) result }
        ensures later { faulted self.old ≤ faulted self.new }
        ensures cause { IfErr result (λ e. Cause e (faulted self.old) (faulted self.new)) };

    /// How many items there are.
    fn count(&self) -> usize
        ensures { result ≡ length (items self.now) };

    /// The item at a place below the count, from 0.
    fn item(&self, at: usize) -> Mem<ShelfItem>
        requires { at < length (items self.now) }
        ensures { IfOk result (λ item. slice_get (items self.now) at ≡ Some item) };
}
