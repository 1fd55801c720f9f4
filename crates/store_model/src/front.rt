//! How far a writer's log was taken.

use tm_base::Stamp;

/// What a page store took of a writer's log.
#[derive(Clone, Copy, Debug, PartialEq, Eq)]
pub struct Front {
    /// The number of the group that comes next.
    pub next: u32,
    /// The stamp of the last group that was taken.
    pub stamp: Stamp,
}
