//! The text of schedules, of the commands that a node is sent, and of transcripts.
//!
//! A printer gives the one text of an outcome or a message. The readers of lines and commands stand in
//! `schedule_lines`, and are passed on.
#![tactic(auto)]

mod message;
mod outcome;
mod reply;

pub use message::print_message;
pub use outcome::print_outcome;
pub use schedule_lines::{LineError, MAX_LINE, read_command, read_line, texts_differ};
