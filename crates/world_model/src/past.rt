//! What is kept of a run.

use tm_base::Vector;

/// A point that a replica has published.
#[derive(Drop)]
pub struct PointMark {
    /// The replica's number.
    pub replica: u8,
    /// Which of its lives it was, from 1.
    pub life: u32,
    /// The point's number in that life, from 1.
    pub number: u32,
    /// The stamp of the last applied group of each writer.
    pub vector: Vector,
}
