//! The order in which a replica applies the groups of the writers' logs.
//!
//! A group is applied once every group that it may depend on was: the next one of the least writer whose vector the
//! applied frontier covers (causal broadcast: Birman, Schiper and Stephenson 1991). So all that is applied is at each
//! moment a causally closed cut of whole groups.
#![tactic(auto)]

mod cover;
mod lane;
mod lanes;
mod order;

pub use order::Order;
