//! The plain machine: one map and the open transactions, with no page, lease, message or log.
//!
//! It is what a user may think that the database is. Its step is a relation of an old state, a step
//! and a new state, in `specs/Steps.antt`; the running [`Machine`] takes exactly the steps of it.
#![tactic(auto)]

mod closed;
mod closing;
mod events;
pub mod laws;
mod machine;
mod owned;
mod sessions;
mod settled;
mod step;
mod values;

pub use events::{
    Count, CountList, EndList, Ended, Event, EventKind, EventList, PutKey, PutList, RowList,
    TableRow,
};
pub use machine::Machine;
pub use sessions::Session;
pub use step::MachineStep;
pub use values::{Entry, EntryList};
