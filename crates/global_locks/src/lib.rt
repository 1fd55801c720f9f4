//! The lock manager without its journal: the numbers of writers, the leases of pages, and where the logs
//! of closed writers end.
//!
//! [`Locks::step`] takes a message, and answers whether it changed anything and what is sent. It is
//! exactly the step of `lock_model`, whose laws so speak of it.
#![tactic(auto)]

mod ends;
mod held;
mod leased;
mod leases;
mod locks;
mod pages;
mod table;
mod writers;

pub use locks::Locks;
