//! The world: five kinds of node, the disks under them, the messages between them, and what is kept of a run beside
//! them: the event list, the plain machine, and what was answered.
//!
//! `specs/` has its state as plain data, and each step of a schedule as a total function to the state after, to what the
//! step shows, and to the messages that it sends.
#![tactic(auto)]

mod past;

pub use past::PointMark;
