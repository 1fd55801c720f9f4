//! What the plain machine finds its open transactions by: for each transaction what it has read and
//! written, for each row the transactions that hold it, and the set of the closed writers.
//!
//! A look-up costs the depth of a map and a look at the transactions of one row.
#![tactic(auto)]

mod index;
mod opened;
mod txns;
mod writers;

pub use index::KeyIndex;
pub use opened::{Open, OpenMap};
pub use txns::TxnSet;
pub use writers::WriterSet;
