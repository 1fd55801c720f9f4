//! What a master keeps that isn't kept by a crate of its own: values under numbers with room for more, sets of
//! transactions, and the fresh pages in stock.
//!
//! Each type is seen as the finite map, set or list that the definitions of a master speak of.
#![tactic(auto)]

mod number_table;
mod stock;
mod txn_set;

pub use number_table::NumberTable;
pub use stock::Stock;
pub use txn_set::TxnSet;
