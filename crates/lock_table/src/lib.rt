//! Shared locks on keys, page by page.
//!
//! A tag says that a transaction has read a key, or has found that it is absent. It stands on the leaf that
//! may hold the key. Each tag is a node of a slab, in two doubly linked lists by index: that of its page,
//! ascending by key and transaction, and that of its transaction, ascending by page and key. So a
//! transaction's end goes through its own tags alone, and a page's leaving through the page's. Beside each list
//! stands its order, the places of its nodes in one piece of memory, in which a tag is found by halving. Where a
//! list begins, and its order, are found by hash.
#![tactic(auto)]

mod heads;
mod node;
mod nodes;
mod orders;
mod seek;
mod tags;

pub use tags::{MAX_TAGS, TagError, Tags};
