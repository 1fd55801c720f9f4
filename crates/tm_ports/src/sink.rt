//! Where bytes go.
ghost use Rattle.std.specs.Prelude.{◌≡◌, ◌↔◌, ◌≤◌, ◌++◌, List, ℕ, [], Some, Err, length, OnOk, OnErr, IfOk, IfErr, Contains};
ghost use Rattle.std.specs.Io.KnownBytes.{WriteAppends};
ghost use Rattle.std.specs.declared.option.Option.{Option};
ghost use Rattle.tm_ports.specs.Calls.{next_call, passed, failed};
ghost use Rattle.tm_ports.specs.Faults.{HasSinkCause};
ghost use Rattle.tm_ports.specs.Memory.{MemoryOutput};
ghost use Rattle.tm_ports.specs.Writes.{WritesSome};
ghost use Rattle.tm_ports.specs.declared.sink.SinkError.TheVariants.{Failed, NoMemory};

use crate::FailList;
use crate::calls::CallPlan;
use std::alloc::Global;
use std::marker::Model;
use tm_base::ByteList;

/// Why a sink took nothing.
#[derive(Clone, Copy, Debug, PartialEq, Eq)]
pub enum SinkError {
    /// The outside failed. The sink's count of faults rose in that call.
    Failed,
    /// The memory that the sink needed was not there. That is no fault.
    NoMemory,
}

impl From<tm_base::NoMemory> for SinkError {
    ghost from_gives = { λ _ e. e ≡ NoMemory };

    fn from(_: tm_base::NoMemory) -> Self {
        SinkError::NoMemory
    }
}

/// What takes bytes.
pub trait Sink {
    /// The bytes that it took, where it tells.
    ghost taken: { Self → Option (List ℕ) };

    /// How often it failed.
    ghost count: { Self → ℕ };

    /// How often it failed. The count stays at `u64::MAX`.
    fn faults(&self) -> u64
        ensures { result ≡ count self.now };

    /// Takes some of the front of the piece, at least one byte where it has one.
    ///
    /// An error takes nothing. `Failed` comes only where the count of faults rose; `NoMemory` leaves it.
    fn write(&mut self, piece: &[u8]) -> Result<usize, SinkError>
        ensures some { WritesSome result piece.now }
        ensures bytes { WriteAppends (taken self.old) (taken self.new) result piece.now }
        ensures cause { HasSinkCause (count self.old) (count self.new) result }
        ensures memory { result ≡ Err NoMemory → count self.new ≡ count self.old };
}

/// A sink over memory that never fails. Contracts see the bytes that it took.
#[derive(Debug, Drop)]
pub struct SureSink {
    bytes: ByteList,
}

impl Model for SureSink {
    ghost Value = { List ℕ };

    ghost view = { λ s. s.bytes };
}

impl SureSink {
    /// A sink that took nothing yet.
    pub fn new(alloc: Global) -> SureSink
        ensures { result ≡ [] }
    {
        SureSink {
            bytes: ByteList::new(alloc),
        }
    }

    /// The bytes that it took.
    pub fn bytes(&self) -> &[u8]
        ensures { result.now ≡ self.now }
    {
        self.bytes.as_slice()
    }
}

impl Sink for SureSink {
    ghost taken = { λ s. Some s };

    ghost count = { λ _. 0 };

    fn faults(&self) -> u64 {
        0
    }

    fn write(&mut self, piece: &[u8]) -> Result<usize, SinkError>
        ensures some { WritesSome result piece.now }
        ensures bytes { WriteAppends (Some self.old) (Some self.new) result piece.now }
        ensures cause { HasSinkCause 0 0 result }
        ensures sure { IfErr result (λ e. e ≡ NoMemory) }

        // It takes the whole piece.
        ensures whole { IfOk result (λ n. n ≡ length piece.now) }
        ensures err { OnErr result (self.new ≡ self.old) }
    {
        self.bytes.extend(piece)?;
        Ok(piece.len())
    }
}

/// A sink over memory, of which named calls fail. Contracts see the bytes that it took, and the calls.
#[derive(Debug, Drop)]
pub struct MemorySink {
    sink: SureSink,
    plan: CallPlan,
}

impl Model for MemorySink {
    ghost Value = { MemoryOutput };

    ghost view = { λ s. record { taken = s.sink; calls = s.plan } };
}

impl MemorySink {
    /// A sink that took nothing yet, of which the calls fail that the list names, counted from 1.
    pub fn new(alloc: Global, fails: FailList) -> MemorySink
        ensures { result ≡ record { taken = []; calls = record { made = 0; failed = 0; fails = fails } } }
    {
        MemorySink {
            sink: SureSink::new(alloc),
            plan: CallPlan::new(fails),
        }
    }

    /// The bytes that it took.
    pub fn bytes(&self) -> &[u8]
        ensures { result.now ≡ self.now.taken }
    {
        self.sink.bytes()
    }
}

impl Sink for MemorySink {
    ghost taken = { λ s. Some s.taken };

    ghost count = { λ s. s.calls.failed };

    fn faults(&self) -> u64 {
        self.plan.failed()
    }

    // A call that wants memory isn't counted.
    fn write(&mut self, piece: &[u8]) -> Result<usize, SinkError>
        ensures some { WritesSome result piece.now }
        ensures bytes { WriteAppends (Some self.old.taken) (Some self.new.taken) result piece.now }
        ensures cause { HasSinkCause self.old.calls.failed self.new.calls.failed result }
        ensures exactly { (result ≡ Err Failed) ↔ Contains self.old.calls.fails (next_call self.old.calls) }
        ensures whole { IfOk result (λ n. n ≡ length piece.now) }
        ensures ok { OnOk result (self.new.calls ≡ passed self.old.calls) }
        ensures fault { result ≡ Err Failed → self.new ≡ record self.old { calls = failed self.old.calls } }
        ensures memory { result ≡ Err NoMemory → self.new ≡ self.old }
    {
        if self.plan.fails_next() {
            self.plan.fail();
            return Err(SinkError::Failed);
        }
        let count = self.sink.write(piece)?;
        self.plan.pass();
        Ok(count)
    }
}
