//! What a master keeps and sends can be spelled.
ghost use Rattle.std.specs.Prelude.{◌≤◌, ℕ, List};
ghost use Rattle.std.specs.List.{AllByRecursion};
ghost use Rattle.tm_data.specs.declared.log.Group.{Group};
ghost use Rattle.tm_data.specs.Vectors.{IsVector, greatest};
ghost use Rattle.tm_base.specs.declared.command.Command.{Command};
ghost use Rattle.tm_base.specs.declared.message.Message.{Message};
ghost use Rattle.master_model.specs.Facts.{Brings, Facts, GroupBrought, WorkFacts};
ghost use Rattle.master_model.specs.Stages.{StagesAreSaid};
ghost use Rattle.master_model.specs.State.{State, Work, vector_of};
ghost use Rattle.master_model.specs.Step.{on_command, start, step};
ghost use Rattle.master_model.specs.Told.{Sent};
ghost use Rattle.format_laws.specs.Kept.{LifeIsSpelled};
ghost use Rattle.format_laws.specs.Spelled.{AllSpelled};

use master_model::laws;

/// Each group that a writer ever logged can be spelled: what it tells is a vector, below its own stamp, which is at most the scalar.
/// It speaks of the facts of every master alone.
pub fn a_log_can_be_spelled()
    ensures { (begun : ℕ) (groups : List Group) (w : Work) → WorkFacts begun groups w → AllByRecursion GroupBrought groups }
{}

/// What a writer tells of others, and of itself, is within its scalar: the vector for sending ascends by writers from 1 on,
/// has no stamp of 0, and none above the scalar. It speaks of the facts of every master alone.
pub fn what_is_told_is_within_the_scalar()
    ensures { (begun : ℕ) (groups : List Group) (w : Work) → WorkFacts begun groups w → IsVector (vector_of w) × (greatest (vector_of w) ≤ w.clock.scalar) }
{}

/// What a master keeps can be spelled, at the start, after each message that can be spelled, and after each command: the stamp
/// of each page's last change, what was told of each page that is being given back, and the groups that a recovery has
/// read. Refused is a page that is given back with what wasn't told yet put behind the vector for sending.
pub fn what_it_keeps_can_be_spelled()
    ensures start { (number boot stores : ℕ) → LifeIsSpelled (start number boot stores).0.life }
    ensures message { (begun : ℕ) (groups : List Group) (s : State) (m : Message) → Facts begun groups s → Brings m → LifeIsSpelled s.life → LifeIsSpelled (step s m).0.life }
    ensures command { (begun : ℕ) (groups : List Group) (s : State) (session : ℕ) (asked : Command) → Facts begun groups s → LifeIsSpelled s.life → LifeIsSpelled (on_command s session asked).0.life }
{
    laws::recoveries_move_by_what_comes();
}

/// So can what it sends, where the messages say what the state after the step has: its scalar, or the stamp of the page
/// that is read; the vector for sending, which ascends, has no stamp of 0 and none above the scalar; what is told of a
/// page that is given back; and the listed stamps of a takeover. Refused is a takeover that lists the stamp after that of a
/// page's last change.
pub fn what_it_sends_can_be_spelled()
    ensures { (begun : ℕ) (groups : List Group) (s : State) (messages : List Message) → Facts begun groups s → LifeIsSpelled s.life → Sent s messages → StagesAreSaid s.life messages → AllSpelled messages }
{}
