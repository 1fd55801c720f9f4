//! A journal: a list of records on a disk, of which none that was acknowledged is lost in a crash.
//!
//! Its file is a list of records and an end gate. A record is a gate of 1, its body's length in four bytes
//! and the body; the end gate is one byte other than 1. A record is written behind the end gate with a
//! new end gate, and counts once the old one is opened, after what it leads to is on the disk.
#![tactic(auto)]

mod error;
mod journal;
mod loading;
mod parse;
mod steps;
mod writing;

pub use error::{AppendError, OpenError, Unopened};
pub use journal::Journal;
pub use parse::MAX_BODY;
