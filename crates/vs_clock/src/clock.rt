//! A vector-scalar clock.
ghost use Rattle.std.specs.Prelude.{◌≡◌, ◌≢◌, ◌≤◌, ◌+◌, ◌-◌, ◌^◌, ◌↔◌, ℕ, IfOk, IsErr, is_ok, OnOk, OnErr};
ghost use Rattle.tm_data.specs.Vectors.{IsVector, greatest, stamp_of};
ghost use Rattle.vs_clock.specs.State.{started, heard_scalar, heard_vector, news, others, sending, can_tick, ticked, told};

use std::alloc::Global;
use std::marker::Model;
use tm_base::{ItemList, MAX_STAMP, Mem, Stamp, TryCopy, Vector, VectorEntry, Writer};

/// The clock stands at the greatest stamp, `2^63 - 1`, and has none left to give.
#[derive(Clone, Copy, Debug, PartialEq, Eq)]
pub struct StampsSpent;

/// The clock of one writer. Contracts see what it knows: its writer, its scalar, the vector of what it
/// heard of other writers, and of that the entries that rose since they were last told.
#[derive(Debug, Drop)]
pub struct Clock {
    writer: Writer,
    scalar: Stamp,
    heard: Vector,
    untold: Vector,
}

impl Model for Clock {
    ghost use Rattle.vs_clock.specs.State.{State, IsSound};

    ghost Value = { State };

    ghost view = { λ c. record { writer = c.writer.0; scalar = c.scalar.0; heard = c.heard; untold = c.untold } };

    ghost invariant = { λ c. IsSound (record { writer = c.writer.0; scalar = c.scalar.0; heard = c.heard; untold = c.untold }) };
}

impl Clock {
    /// A clock of this writer (numbered from 1) that stands at `start` (at most [`MAX_STAMP`]) and has heard
    /// of no other writer.
    pub fn new(alloc: Global, writer: Writer, start: Stamp) -> Clock
        requires writer { 1 ≤ writer.0 }
        requires start { start.0 ≤ 2 ^ 63 - 1 }
        ensures { result ≡ started writer.0 start.0 }
    {
        Clock {
            writer,
            scalar: start,
            heard: Vector::new(alloc),
            untold: Vector::new(alloc),
        }
    }

    /// The greatest stamp that was given or heard.
    pub fn scalar(&self) -> Stamp
        ensures value { result.0 ≡ self.now.scalar }
        ensures fits { result.0 ≤ 2 ^ 63 - 1 }
    {
        self.scalar
    }

    /// Raises the scalar to a stamp that was heard (at most [`MAX_STAMP`]), so that later ticks are above it.
    pub fn hear_scalar(&mut self, stamp: Stamp)
        requires { stamp.0 ≤ 2 ^ 63 - 1 }
        ensures { self.new ≡ heard_scalar self.old stamp.0 }
    {
        self.scalar = Stamp(self.scalar.0.max(stamp.0));
    }

    /// Gives the next stamp, one above the scalar.
    ///
    /// # Errors
    ///
    /// [`StampsSpent`] exactly where the scalar is [`MAX_STAMP`]; nothing changes then.
    pub fn tick(&mut self) -> Result<Stamp, StampsSpent>
        ensures ok { OnOk result (self.new ≡ ticked self.old) }
        ensures stamp { IfOk result (λ stamp. stamp.0 ≡ self.old.scalar + 1) }
        ensures spent { IsErr result ↔ (self.old.scalar ≡ 2 ^ 63 - 1) }
        ensures test { is_ok result ≡ can_tick self.old }
        ensures err { OnErr result (self.new ≡ self.old) }
    {
        if self.scalar.0 >= MAX_STAMP {
            return Err(StampsSpent);
        }
        self.scalar = Stamp(self.scalar.0 + 1);
        Ok(self.scalar)
    }

    /// Hears what another clock sent: the stamp of each other writer is raised to the one in `vector`, and
    /// the scalar to the greatest of its stamps, which is at most [`MAX_STAMP`]. With want of memory nothing
    /// changes.
    pub fn hear_vector(&mut self, vector: &Vector) -> Mem<()>
        requires { greatest vector.now ≤ 2 ^ 63 - 1 }
        ensures ok { OnOk result (self.new ≡ heard_vector self.old vector.now) }
        ensures err { OnErr result (self.new ≡ self.old) }
    {
        let scalar = self.scalar.0.max(vector.greatest().0);
        let rising = rising(self.writer, &self.heard, vector.as_slice())?;
        if !rising.as_slice().is_empty() {
            let untold = self.untold.joined(&rising)?;
            self.heard.join(&rising)?;
            self.untold = untold;
            self.scalar = Stamp(scalar);
            return Ok(());
        }
        self.scalar = Stamp(scalar);
        Ok(())
    }

    /// The vector to send: what was heard of the other writers, and for the clock's own writer the stamp
    /// `durable`, up to which its caller knows its work to be durable (no entry where that is 0).
    pub fn vector_for_sending(&self, durable: Stamp) -> Mem<Vector>
        requires { durable.0 ≤ 2 ^ 63 - 1 }
        ensures value { IfOk result (λ vector. vector ≡ sending self.now durable.0) }
        ensures own { IfOk result (λ vector. stamp_of vector self.now.writer ≡ durable.0) }
        ensures heard { IfOk result (λ vector. (writer : ℕ)
            → writer ≢ self.now.writer
            → stamp_of vector writer ≡ stamp_of self.now.heard writer) }
        ensures fits { IfOk result (λ vector. greatest vector ≤ 2 ^ 63 - 1) }
    {
        let own = Vector::single(self.heard.allocator(), self.writer, durable)?;
        let vector = self.heard.joined(&own)?;
        Ok(vector)
    }

    /// The entries of other writers that rose since [`Clock::told`] was last called.
    pub fn learnt(&self) -> Mem<Vector>
        ensures { IfOk result (λ vector. vector ≡ self.now.untold) }
    {
        self.untold.copy()
    }

    /// Takes note that what was learnt is told. It takes no memory.
    pub fn told(&mut self)
        ensures { self.new ≡ told self.old }
    {
        self.untold.clear();
    }
}

impl TryCopy for Clock {
    fn copy(&self) -> Mem<Clock> {
        Ok(Clock {
            writer: self.writer,
            scalar: self.scalar,
            heard: self.heard.copy()?,
            untold: self.untold.copy()?,
        })
    }
}

/// The entries of other writers than `own` that are above what was heard of them.
fn rising(own: Writer, heard: &Vector, entries: &[VectorEntry]) -> Mem<Vector>
    requires { IsVector entries.now }
    ensures { IfOk result (λ rising. rising ≡ news heard.now (others own.0 entries.now)) }
{
    let mut rising = ItemList::new(heard.allocator());
    for entry in entries {
        if entry.writer.0 != own.0 && heard.get(entry.writer).0 < entry.stamp.0 {
            rising.push(*entry)?;
        }
    }
    Ok(Vector::from_entries(rising))
}
