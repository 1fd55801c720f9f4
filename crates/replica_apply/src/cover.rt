//! What a frontier doesn't cover.
ghost use Rattle.std.specs.Prelude.{◌≡◌};
ghost use Rattle.tm_data.specs.Vectors.{IsVector, joined};
ghost use Rattle.replica_model.specs.Order.{uncovered};
ghost use Rattle.replica_apply.specs.Inside.{lesser_of, writer_in};

use tm_base::{Stamp, Vector, VectorEntry, Writer};

/// The first entry of the join of two vectors that the frontier doesn't cover. It takes no memory.
pub(crate) fn first_uncovered(
    frontier: &Vector,
    left: &Vector,
    right: &Vector,
) -> Option<VectorEntry>
    ensures { result ≡ uncovered frontier.now (joined left.now right.now) }
{
    let one = writer_of(uncovered_in(frontier, left));
    let other = writer_of(uncovered_in(frontier, right));
    let writer = lesser(one, other)?;
    let stamp = Stamp(left.get(writer).0.max(right.get(writer).0));
    Some(VectorEntry { writer, stamp })
}

/// The first entry of a vector that the frontier doesn't cover.
pub(crate) fn uncovered_in(frontier: &Vector, vector: &Vector) -> Option<VectorEntry>
    ensures first { result ≡ uncovered frontier.now vector.now }
    ensures vector { IsVector vector.now }
{
    for entry in vector.as_slice() {
        if frontier.get(entry.writer).0 < entry.stamp.0 {
            return Some(*entry);
        }
    }
    None
}

fn writer_of(entry: Option<VectorEntry>) -> Option<Writer>
    ensures { result ≡ writer_in entry }
{
    match entry {
        Some(entry) => Some(entry.writer),
        None => None,
    }
}

// The lesser of two writers, as far as there are two.
fn lesser(one: Option<Writer>, other: Option<Writer>) -> Option<Writer>
    ensures { result ≡ lesser_of one other }
{
    match (one, other) {
        (Some(one), Some(other)) => Some(Writer(one.0.min(other.0))),
        (Some(one), None) => Some(one),
        (None, other) => other,
    }
}
