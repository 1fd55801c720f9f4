//! Vectors of stamps (Fidge 1988, Mattern 1989).
ghost use Rattle.std.specs.Prelude.{◌≡◌, ◌≤◌, ◌↔◌, ℕ, List, [], ◌∷◌, ◌++◌, IfOk, IsTrue, OnOk, OnErr, max};
ghost use Rattle.tm_data.specs.Vectors.{IsVector, Covers, covers, greatest, joined, single, stamp_of};

use crate::{ItemList, Mem, Stamp, TryCopy, Writer};
use std::alloc::Global;
use std::marker::Model;

/// What a vector says of one writer.
#[derive(Clone, Copy, Debug, PartialEq, Eq)]
pub struct VectorEntry {
    pub writer: Writer,
    pub stamp: Stamp,
}

impl TryCopy for VectorEntry {
    fn copy(&self) -> Mem<VectorEntry> {
        Ok(*self)
    }
}

/// Entries in order.
pub type VectorEntryList = ItemList<VectorEntry>;

/// A stamp for each writer, of which those at 0 are left out. Contracts see the list of the others,
/// ascending by writer.
#[derive(Debug, Drop, PartialEq, Eq)]
pub struct Vector {
    entries: VectorEntryList,
}

impl Model for Vector {
    ghost use Rattle.std.specs.Prelude.{List};
    ghost use Rattle.tm_data.specs.declared.vector.VectorEntry.{VectorEntry};
    ghost use Rattle.tm_data.specs.Vectors.{IsVector};

    ghost Value = { List VectorEntry };

    ghost view = { λ v. v.entries };

    ghost inverse = { λ v. record { entries = v } };

    ghost invariant = { λ v. IsVector v.entries };
}

impl Vector {
    /// Every writer at 0.
    pub fn new(alloc: Global) -> Vector
        ensures { result ≡ [] }
    {
        Vector {
            entries: ItemList::new(alloc),
        }
    }

    /// The vector of these entries.
    pub fn from_entries(entries: VectorEntryList) -> Vector
        requires { IsVector entries }
        ensures { result ≡ entries }
    {
        Vector { entries }
    }

    /// The vector that says `stamp` of this one writer, and nothing where the stamp is 0.
    pub fn single(alloc: Global, writer: Writer, stamp: Stamp) -> Mem<Vector>
        requires { 1 ≤ writer.0 }
        ensures { IfOk result (λ vector. vector ≡ single writer.0 stamp.0) }
    {
        let mut entries = ItemList::new(alloc);
        if stamp.0 != 0 {
            entries.push(VectorEntry { writer, stamp })?;
        }
        Ok(Vector { entries })
    }

    /// The entries, ascending by writer.
    pub fn as_slice(&self) -> &[VectorEntry]
        ensures same { result.now ≡ self.now }
        ensures ascending { IsVector result.now }
    {
        self.entries.as_slice()
    }

    /// What the vector says of a writer: the stamp of its entry, 0 where it has none.
    pub fn get(&self, writer: Writer) -> Stamp
        ensures { result.0 ≡ stamp_of self.now writer.0 }
    {
        stamp_in(self.as_slice(), writer)
    }

    /// Whether each writer has at least the stamp here that it has in `other` (0 where it is absent).
    pub fn covers(&self, other: &Vector) -> bool
        ensures test { result ≡ covers self.now other.now }
        ensures meaning { IsTrue result ↔ Covers self.now other.now }
    {
        covers_entries(self, other.as_slice())
    }

    /// The greatest stamp of all entries, 0 where there are none.
    pub fn greatest(&self) -> Stamp
        ensures { result.0 ≡ greatest self.now }
    {
        greatest_of(self.as_slice())
    }

    /// A vector in which each writer has the greater of its stamps in the two.
    pub fn joined(&self, other: &Vector) -> Mem<Vector>
        ensures value { IfOk result (λ vector. vector ≡ joined self.now other.now) }
        ensures greater { IfOk result (λ vector. (writer : ℕ) → stamp_of vector writer ≡ max (stamp_of self.now writer) (stamp_of other.now writer)) }
    {
        let merged = merged(self.entries.allocator(), self.as_slice(), other.as_slice())?;
        Ok(Vector {
            entries: ItemList::from_vec(merged),
        })
    }

    /// Forgets all entries. It takes no memory.
    pub fn clear(&mut self)
        ensures { self.new ≡ [] }
    {
        self.entries.clear();
    }

    /// The allocator that the vector was made with.
    pub fn allocator(&self) -> Global {
        self.entries.allocator()
    }

    /// Raises the stamp of each writer to the one that it has in `other`, where that is greater. With want
    /// of memory nothing changes.
    pub fn join(&mut self, other: &Vector) -> Mem<()>
        ensures value { OnOk result (self.new ≡ joined self.old other.now) }
        ensures greater { OnOk result ((writer : ℕ) → stamp_of self.new writer ≡ max (stamp_of self.old writer) (stamp_of other.now writer)) }
        ensures err { OnErr result (self.new ≡ self.old) }
    {
        let joined = self.joined(other)?;
        *self = joined;
        Ok(())
    }
}

/// Finds a writer's stamp by halving.
fn stamp_in(entries: &[VectorEntry], writer: Writer) -> Stamp
    requires { IsVector entries.now }
    ensures { result.0 ≡ stamp_of entries.now writer.0 }
{
    let mut rest = entries;
    while rest.len() > 1 {
        let (front, back) = rest.split_at(rest.len() / 2);
        if back[0].writer.0 <= writer.0 {
            rest = back;
        } else {
            rest = front;
        }
    }
    if rest.is_empty() || rest[0].writer.0 != writer.0 {
        return Stamp(0);
    }
    rest[0].stamp
}

fn covers_entries(vector: &Vector, entries: &[VectorEntry]) -> bool
    ensures { result ≡ covers vector.now entries.now }
{
    for entry in entries {
        if vector.get(entry.writer).0 < entry.stamp.0 {
            return false;
        }
    }
    true
}

fn greatest_of(entries: &[VectorEntry]) -> Stamp
    ensures { result.0 ≡ greatest entries.now }
{
    let mut most = 0;
    for entry in entries {
        most = entry.stamp.0.max(most);
    }
    Stamp(most)
}

/// Merges two ascending lists; of two entries of one writer the greater stamp stays.
fn merged(alloc: Global, left: &[VectorEntry], right: &[VectorEntry]) -> Mem<Vec<VectorEntry>>
    requires left { IsVector left.now }
    requires right { IsVector right.now }
    ensures join { IfOk result (λ entries. entries.items ≡ joined left.now right.now) }
    ensures vector { IfOk result (λ entries. IsVector entries.items) }
{
    let mut entries = Vec::new(alloc);
    let mut i = 0;
    let mut j = 0;
    while i < left.len() && j < right.len() {
        let x = left[i];
        let y = right[j];
        if x.writer.0 < y.writer.0 {
            entries.push(x)?;
            i += 1;
        } else if y.writer.0 < x.writer.0 {
            entries.push(y)?;
            j += 1;
        } else {
            entries.push(VectorEntry {
                writer: x.writer,
                stamp: Stamp(x.stamp.0.max(y.stamp.0)),
            })?;
            i += 1;
            j += 1;
        }
    }
    entries.extend_from_slice(&left[i..])?;
    entries.extend_from_slice(&right[j..])?;
    Ok(entries)
}

impl TryCopy for Vector {
    fn copy(&self) -> Mem<Vector> {
        Ok(Vector {
            entries: self.entries.copy()?,
        })
    }
}
