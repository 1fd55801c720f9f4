//! A page store: it takes the groups of every writer's log in their order, and answers its pages at any
//! version or scalar.
//!
//! Its step, its tick and its reads are exactly those of `store_model`.
#![tactic(auto)]

mod intake;
mod page_store;
mod share;
mod state;

pub use page_store::PageStore;
pub use store_model::ReadRefusal;
