//! The leases that a master has: of each page its greatest epoch, how far its lease has come, and the
//! stamp of its last change.
//!
//! A lease is granted at an epoch that rises page by page, is recalled, is given back, and is over once
//! that was acknowledged. So a late message about an older lease is told from one about the present
//! lease, and changes nothing.
#![tactic(auto)]

mod desk;
mod held_pages;
mod key_set;
mod lease;
mod lease_map;

pub use desk::Desk;
pub use lease::{Lease, PageLease};
