//! The recovery of a lost writer, apart from what else a master does.
//!
//! A recovery goes through the stages of `master_model`: the writer's log is sealed and closed, its groups are read, the
//! pages that they changed are taken over part by part, and the rows of the writer's transactions without an end are
//! undone one by one. The groups aren't kept: in their place stand the pages with the stamps of their last changes, the
//! rows that the writer's transactions wrote, and the transactions that ended. `specs/Seen.antt` has these as plain
//! data, with each call's effect, and what is seen of a recovery of the definitions; `laws` says that they go on alike.
#![tactic(auto)]

mod batch;
pub mod laws;
mod page_places;
mod recovery;
mod row_places;
mod txn_places;
mod written_row;

pub use batch::is_next;
pub use recovery::Recovery;
pub use written_row::WrittenRow;
