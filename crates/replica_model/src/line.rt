//! What a replica keeps of a writer's log, and of a transaction's end.

use tm_base::{GroupList, Stamp, Vector, Writer};

/// What was received of a writer's log.
#[derive(Drop)]
pub struct Line {
    /// The number of the group that comes next, from 1.
    pub next: u32,
    /// The groups that were received and not applied yet, in order.
    pub waiting: GroupList,
    /// What the applied groups had learnt of other writers.
    pub learnt: Vector,
}

/// Where a transaction has its end.
#[derive(Clone, Copy, Debug, PartialEq, Eq)]
pub struct EndMark {
    /// The writer that logged it.
    pub writer: Writer,
    /// The stamp of its group.
    pub stamp: Stamp,
}
