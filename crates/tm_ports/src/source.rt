//! Where bytes come from.
ghost use Rattle.std.specs.Prelude.{◌≡◌, ◌↔◌, ◌≤◌, List, ℕ, [], min, length, take, drop, Some, IsOk, IsErr, OnOk, OnErr, IfOk, Contains};
ghost use Rattle.std.specs.Io.{ReadsAtMost};
ghost use Rattle.std.specs.Io.KnownBytes.{ReadConsumes};
ghost use Rattle.std.specs.declared.option.Option.{Option};
ghost use Rattle.tm_ports.specs.Calls.{next_call, passed, failed};
ghost use Rattle.tm_ports.specs.Faults.{HasCause};
ghost use Rattle.tm_ports.specs.Memory.{MemoryInput};

use crate::FailList;
use crate::calls::CallPlan;
use std::marker::Model;
use tm_base::ByteList;

/// The outside failed. The count of faults of the object that was asked rose in that call.
#[derive(Clone, Copy, Debug, PartialEq, Eq)]
pub struct Failed;

/// What gives bytes.
pub trait Source {
    /// The bytes that are left, where the source tells.
    ghost left: { Self → Option (List ℕ) };

    /// How often it failed.
    ghost count: { Self → ℕ };

    /// How often it failed. The count stays at `u64::MAX`.
    fn faults(&self) -> u64
        ensures { result ≡ count self.now };

    /// Gives the next bytes: at least one where there is room for one, or 0 exactly at the end.
    ///
    /// `Failed` gives no byte, and comes only where the count of faults rose.
    fn read(&mut self, into: &mut [u8]) -> Result<usize, Failed>
        ensures within { ReadsAtMost result into.new }
        ensures bytes { ReadConsumes (left self.old) (left self.new) result into.new }
        ensures cause { HasCause (count self.old) (count self.new) result };
}

// Copies as much of the front as there is room for.
fn fill(into: &mut [u8], from: &[u8]) -> usize
    ensures count { result ≡ min (length into.new) (length from.now) }
    ensures front { take result into.new ≡ take result from.now }
{
    let count = into.len().min(from.len());
    into[..count].copy_from_slice(&from[..count]);
    count
}

/// A source over memory that never fails. Contracts see the bytes that are left.
#[derive(Debug, Drop)]
pub struct SureSource {
    bytes: ByteList,
    at: usize,
}

impl Model for SureSource {
    ghost Value = { List ℕ };

    ghost view = { λ s. drop s.at s.bytes };

    ghost invariant = { λ s. s.at ≤ length s.bytes };
}

impl SureSource {
    /// A source of these bytes.
    pub fn new(bytes: ByteList) -> SureSource
        ensures { result ≡ bytes }
    {
        SureSource { bytes, at: 0 }
    }
}

impl Source for SureSource {
    ghost left = { λ s. Some s };

    ghost count = { λ _. 0 };

    fn faults(&self) -> u64 {
        0
    }

    fn read(&mut self, into: &mut [u8]) -> Result<usize, Failed>
        ensures within { ReadsAtMost result into.new }
        ensures bytes { ReadConsumes (Some self.old) (Some self.new) result into.new }
        ensures cause { HasCause 0 0 result }
        ensures sure { IsOk result }

        // It gives as much as there is room for.
        ensures full { IfOk result (λ n. n ≡ min (length into.new) (length self.old)) }
    {
        let (_, rest) = self.bytes.as_slice().split_at(self.at);
        let count = fill(into, rest);
        self.at += count;
        Ok(count)
    }
}

/// A source over memory, of which named calls fail. Contracts see the bytes that are left, and the calls.
#[derive(Debug, Drop)]
pub struct MemorySource {
    source: SureSource,
    plan: CallPlan,
}

impl Model for MemorySource {
    ghost Value = { MemoryInput };

    ghost view = { λ s. record { left = s.source; calls = s.plan } };
}

impl MemorySource {
    /// A source of these bytes, of which the calls fail that the list names, counted from 1.
    pub fn new(bytes: ByteList, fails: FailList) -> MemorySource
        ensures { result ≡ record { left = bytes; calls = record { made = 0; failed = 0; fails = fails } } }
    {
        MemorySource {
            source: SureSource::new(bytes),
            plan: CallPlan::new(fails),
        }
    }
}

impl Source for MemorySource {
    ghost left = { λ s. Some s.left };

    ghost count = { λ s. s.calls.failed };

    fn faults(&self) -> u64 {
        self.plan.failed()
    }

    fn read(&mut self, into: &mut [u8]) -> Result<usize, Failed>
        ensures within { ReadsAtMost result into.new }
        ensures bytes { ReadConsumes (Some self.old.left) (Some self.new.left) result into.new }
        ensures cause { HasCause self.old.calls.failed self.new.calls.failed result }
        ensures exactly { IsErr result ↔ Contains self.old.calls.fails (next_call self.old.calls) }
        ensures full { IfOk result (λ n. n ≡ min (length into.new) (length self.old.left)) }
        ensures ok { OnOk result (self.new.calls ≡ passed self.old.calls) }
        ensures err { OnErr result (self.new ≡ record self.old { calls = failed self.old.calls }) }
        ensures untouched { OnErr result (into.new ≡ into.old) }
    {
        if self.plan.fails_next() {
            self.plan.fail();
            return Err(Failed);
        }
        self.plan.pass();
        self.source.read(into)
    }
}
