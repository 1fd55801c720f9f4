//! What the stores do: the state of a store as plain data, and its step as a function of the state and
//! the message to the state after and the messages that are sent.
//!
//! `specs/LogState.antt` and `specs/LogStep.antt` are the log store's; `specs/PageState.antt`,
//! `specs/PageReads.antt` and `specs/PageStep.antt` are the page store's. What is true of
//! them stands in [`log_laws`] and [`page_laws`].
#![tactic(auto)]

mod front;
pub mod log_laws;
pub mod page_laws;
mod refusal;

pub use front::Front;
pub use refusal::ReadRefusal;
