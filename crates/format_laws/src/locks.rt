//! What the lock manager keeps and sends can be spelled.
ghost use Rattle.std.specs.Prelude.{List};
ghost use Rattle.tm_base.specs.declared.message.Message.{Message};
ghost use Rattle.lock_model.specs.Facts.{Facts};
ghost use Rattle.lock_model.specs.Runs.{after};
ghost use Rattle.lock_model.specs.State.{State, start};
ghost use Rattle.lock_model.specs.Step.{step};
ghost use Rattle.format_laws.specs.Kept.{LocksAreSpelled};
ghost use Rattle.format_laws.specs.Spelled.{AllSpelled, IsSpelled};

use lock_model::laws;

/// What the lock manager keeps can be spelled, at the start and after each step, if the step's message can: its scalar, the
/// stamp and the vector of each page, and the vector of each recovered writer. It follows from what a step makes of pages
/// and writers; refused is whatever that law refuses.
pub fn what_it_keeps_can_be_spelled()
    ensures start { LocksAreSpelled start }
    ensures step { (s : State) (m : Message) → Facts s → LocksAreSpelled s → IsSpelled m → LocksAreSpelled (step s m).0 }
    ensures run { (s : State) (inputs : List Message) → Facts s → LocksAreSpelled s → AllSpelled inputs → LocksAreSpelled (after s inputs) }
{
    laws::a_step_does_what_is_told();
    laws::a_step_keeps_the_facts();
}

/// So can what it sends: its scalar, a page's stamp and vector in a grant, the vectors of recovered writers, and the
/// numbers of writers. It follows from what these messages say of the state after the step.
pub fn what_it_sends_can_be_spelled()
    ensures { (s : State) (m : Message) → Facts s → LocksAreSpelled s → IsSpelled m → AllSpelled (step s m).2 }
{
    what_it_keeps_can_be_spelled();
    laws::a_step_keeps_the_facts();
    laws::sent_messages_say_what_is();
}
