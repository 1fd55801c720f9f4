//! A log store: it keeps the log of every writer, and serves what is on every log store.
//!
//! Its step and its tick are exactly those of `store_model`; a call that wants memory changes nothing.
#![tactic(auto)]

mod log_store;
mod logs;
mod serving;
mod writer_log;

pub use log_store::LogStore;
