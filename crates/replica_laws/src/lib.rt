//! What holds of replicas over every list of messages: laws over the definitions of `replica_model`.
//!
//! A law is the contract of a function that does nothing: a caller that calls it has the law among its
//! facts.
#![tactic(auto)]

pub mod laws;
