//! What follows from a history alone, with no node and no message: laws over the definitions of
//! `history_model`.
//!
//! A law is the contract of a function that does nothing: a caller that calls it has the law among its
//! facts.
#![tactic(auto)]

pub mod cuts;
pub mod laws;
