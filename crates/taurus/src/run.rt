//! The top call: the words of the command line, and what they ask for.
ghost use Rattle.std.specs.Prelude.{◌≡◌, ◌↔◌, ℕ};
ghost use Rattle.std.specs.Bool.{OnTrue, OnFalse};
ghost use Rattle.tm_ports.specs.Faults.{Rose};
ghost use Rattle.tm_ports.specs.declared.status.Status.{Status};
ghost use Rattle.taurus.specs.Statuses.{IsReplay, Finishes, StopsAt, StopsReading, BreaksOff, RunsOut, IsStatusOfReplay};

use crate::replay::replay;
use std::alloc::Global;
use tm_ports::{Sink, Source, Status, Word};

// Whether the words are the one word `replay`.
fn is_replay(words: &[Word]) -> bool
    ensures yes { OnTrue result (IsReplay words.now) }
    ensures no { OnFalse result (IsReplay words.now → ⊥) }
{
    if words.len() != 1 {
        return false;
    }
    words[0].as_slice() == b"replay".as_slice()
}

/// Does what the words ask for. The one word `replay` reads a schedule from the source and writes its
/// transcript to the sink, one master and one log store with every reply; all other words are refused
/// as [`Status::Words`], before anything is read.
///
/// The first event that ends a run gives its status, and each status says what was read and what was
/// written. Want of memory may come at any point.
pub fn run<R: Source, K: Sink>(
    alloc: Global,
    words: &[Word],
    source: &mut R,
    sink: &mut K,
) -> Status
    ensures words { (result ≡ Status.Words) ↔ (IsReplay words.now → ⊥) }
    ensures nothing { result ≡ Status.Words → (source.new ≡ source.old) × (sink.new ≡ sink.old) }
    ensures done { result ≡ Status.Done → Finishes (R.left source.old) (R.left source.new) (K.taken sink.old) (K.taken sink.new) }
    ensures bad { (n : ℕ) → result ≡ Status.BadSchedule n → StopsAt (R.left source.old) (R.left source.new) (K.taken sink.old) (K.taken sink.new) n }
    ensures read { result ≡ Status.ReadFault → StopsReading (R.left source.old) (R.left source.new) (K.taken sink.old) (K.taken sink.new) × Rose (R.count source.old) (R.count source.new) }
    ensures write { result ≡ Status.WriteFault → BreaksOff (R.left source.old) (R.left source.new) (K.taken sink.old) (K.taken sink.new) × Rose (K.count sink.old) (K.count sink.new) }
    ensures memory { result ≡ Status.NoMemory → BreaksOff (R.left source.old) (R.left source.new) (K.taken sink.old) (K.taken sink.new) }
    ensures full { result ≡ Status.Full → RunsOut (R.left source.old) (R.left source.new) (K.taken sink.old) (K.taken sink.new) }
    ensures only { IsStatusOfReplay result }
{
    if !is_replay(words) {
        return Status::Words;
    }
    replay(alloc, source, sink)
}
