//! What a page store keeps of what it took: the parts of groups that concern its pages, and images of pages, in the
//! order in which they came.
//!
//! A [`Shelf`] is a list to which items are added, and from which a store is opened again. [`MemoryShelf`] keeps it in
//! memory, and never fails.
#![tactic(auto)]

mod memory;
mod shelf;

pub use memory::MemoryShelf;
pub use shelf::{Shelf, ShelfError, ShelfItem, ShelfItemList};
