//! The parts of messages between nodes as bytes: nodes, writers, pages, stamps and truth values, and the
//! lists of groups, tags, pages with their stamps, and roster entries.
//!
//! Each part has one spelling. As in `wire_fields` a reader is told by `total` how long the whole message
//! is, so that it names the place of a fault in the message.
#![tactic(auto)]

mod group_list;
mod node;
mod number;
mod page_list;
mod roster;
mod tag;

pub use group_list::{put_groups, read_groups};
pub use node::{put_node, read_node};
pub use number::{read_flag, read_page, read_stamp, read_writer};
pub use page_list::{put_page_stamps, read_page_stamps};
pub use roster::{put_roster, read_roster};
pub use tag::{put_tags, read_tags};
