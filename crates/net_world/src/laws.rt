//! What holds of every run.
ghost use Rattle.std.specs.Prelude.{List, ℕ};
ghost use Rattle.tm_data.specs.declared.transaction.Txn.{Txn};
ghost use Rattle.net_world.specs.declared.step.PlainStep.{PlainStep};
ghost use Rattle.net_world.specs.Claims.{RepliesAreTheMachines, RepliesHaveTheirCauses, CommittedStands, OwnValueIsSeen, PutStands};

use key_model::laws::steps_are_after;

/// Each reply is the plain machine's: whatever commands and deliveries come, the machine's steps are
/// allowed from its empty state on, and lead to the world's machine.
pub fn replies_are_the_machines()
    ensures { (steps : List PlainStep) → RepliesAreTheMachines steps }
{
    steps_are_after();
}

/// A command is answered by a reply exactly where that reply's cause holds in the state that the run
/// has reached.
pub fn replies_have_their_causes()
    ensures { (steps : List PlainStep) → RepliesHaveTheirCauses steps }
{
    steps_are_after();
}

/// A transaction that was answered `Committed` stands at every later step: the store has its end and
/// each row that was logged for it, and the machine has it settled as committed.
pub fn committed_stands()
    ensures { (before after : List PlainStep) (txn : Txn) → CommittedStands before after txn }
{
    steps_are_after();
}

/// What a transaction has put, with its value, is in the store from the step on that answers its
/// commit by `Committed`.
pub fn put_stands()
    ensures { (before between after : List PlainStep) (table : ℕ) (key value : List ℕ) (txn : Txn)
        → PutStands before between after table key value txn }
{
    steps_are_after();
}

/// A transaction gets what it has put, before it is committed.
pub fn own_value_is_seen()
    ensures { (before : List PlainStep) (table : ℕ) (key value : List ℕ) → OwnValueIsSeen before table key value }
{}
