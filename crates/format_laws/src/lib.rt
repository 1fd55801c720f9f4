//! Laws on what the nodes send to one another: as long as what comes can be spelled, what is kept and sent can be.
//!
//! The format of messages spells stamps and scalars up to 2^63 - 1, vectors whose writers ascend from 1 on and whose stamps
//! aren't 0, and writers' numbers from 1 on; of other fields nothing is said. The definitions of the nodes don't know of that:
//! a law is the contract of a function that does nothing, and says it of one step.
#![tactic(auto)]

pub mod locks;
pub mod masters;
pub mod stores;
