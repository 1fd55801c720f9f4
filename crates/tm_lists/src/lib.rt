//! Lists: of items in the order in which they came, and of items that ascend by key and keep the sum of their
//! sizes; how a value is copied into memory of its own; and the answer where memory is wanting.
//!
//! `tm_data` and `tm_base` pass all of it on.
#![tactic(auto)]

mod kept;
mod list;
mod memory;

pub use kept::{KeyPlace, Keyed, KeyedList, is_less};
pub use list::{ItemList, TryCopy};
pub use memory::{Mem, NoMemory};
