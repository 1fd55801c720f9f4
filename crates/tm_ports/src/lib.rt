//! The outside, as the system meets it: where bytes come from and where they go.
//!
//! A [`Source`] gives bytes and a [`Sink`] takes them. Each counts its faults, and answers that it
//! failed only where its count rose in that call, so a caller above can say of a fault that it came
//! from outside. An object in memory tells which bytes it has left or took, and contracts speak of
//! them; an adapter over a stream of the system tells nothing of content.
#![tactic(auto)]

mod calls;
mod lines;
mod sink;
mod source;
mod status;
mod system;
mod writes;

pub use calls::FailList;
pub use lines::{Found, LineError, LineReader, MAX_LINE};
pub use sink::{MemorySink, Sink, SinkError, SureSink};
pub use source::{Failed, MemorySource, Source, SureSource};
pub use status::{Status, Word};
pub use system::{StdSink, StdSource};
pub use writes::write_all;
