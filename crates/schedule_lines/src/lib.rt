//! The lines of a schedule, and the commands that a node is sent, read from their text.
//!
//! Each line and each command has one spelling. A reader gives the value that a text spells, and refuses
//! exactly the texts that spell none. Which nodes a world has, and which messages were sent, is no matter
//! of the text.
#![tactic(auto)]

mod bound;
mod command;
mod laws;
mod line;
mod node;
mod page;
mod replica;
mod sent;
mod verb;
mod words;
mod world;

pub use laws::texts_differ;
pub use line::{LineError, MAX_LINE, read_line};
pub use sent::read_command;
