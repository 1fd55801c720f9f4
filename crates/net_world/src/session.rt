//! What the master knows of its one session.

use tm_base::Txn;

/// A session that has a transaction.
#[derive(Clone, Copy, Debug, PartialEq, Eq)]
pub struct PlainSession {
    pub txn: Txn,
    /// The number of the group that ends the transaction, once that is logged.
    pub ending: Option<u32>,
}
