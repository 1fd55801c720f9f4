//! What holds of every run of clocks. The functions do nothing: a caller who calls one has its law.
ghost use Rattle.std.specs.Prelude.{ℕ, List};
ghost use Rattle.vs_clock.specs.Run.{Event, begun};
ghost use Rattle.vs_clock.specs.Learnt.{Call, HearsVectors, LearntIsHeard};
ghost use Rattle.vs_clock.specs.Laws.{StampsRise, EntriesAreDurable, NameWriters, IsPrompt, CoversItsCauses};

/// Over every list of ticks, sends by scalar or by vector, and receipts at clocks of different writers,
/// wherever each clock was started: a tick that happened before another has the smaller stamp (Lamport
/// 1978); each entry of each vector was named as durable by its writer; and where every send is by vector
/// and names the last tick as durable, a tick's vector covers another tick's stamp exactly where that is
/// the same tick or happened before it (Fidge 1988, Mattern 1989).
pub fn clocks_order_causes()
    ensures stamps { (start : ℕ → ℕ) (events : List Event) → StampsRise start events }
    ensures durable { (start : ℕ → ℕ) (events : List Event) → NameWriters events → EntriesAreDurable start events }
    ensures causes { (start : ℕ → ℕ) (events : List Event)
        → NameWriters events
        → IsPrompt (begun start) events
        → CoversItsCauses start events }
{}

/// Over every list of calls of one clock: the vectors that were learnt, one at each telling and the one at
/// the end, joined, are the vector that was heard.
pub fn learnt_is_heard()
    ensures { (writer start : ℕ) (calls : List Call) → HearsVectors calls → LearntIsHeard writer start calls }
{}
