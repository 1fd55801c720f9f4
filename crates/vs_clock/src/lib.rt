//! The clock of a writer: a scalar that orders events (Lamport 1978), and a vector of what the other
//! writers are known to have made durable (Fidge 1988, Mattern 1989).
//!
//! Hearing a scalar claims nothing about causes; hearing a vector does. [`laws`] says what holds of every
//! run of such clocks.
#![tactic(auto)]

mod clock;
pub mod laws;

pub use clock::{Clock, StampsSpent};
