//! What holds of every replica: laws over its definitions alone.
//!
//! A law is the contract of a function that does nothing: a caller that calls it has the law among its facts.
ghost use Rattle.std.specs.List.{AllByRecursion};
ghost use Rattle.tm_base.specs.declared.message.Message.{Message};
ghost use Rattle.replica_model.specs.State.{State};
ghost use Rattle.replica_model.specs.Step.{step, ticked};
ghost use Rattle.replica_model.specs.Told.{IsSentBy};

/// A replica sends questions alone, in its own name: for groups, and for the roster; after a message and on a tick.
/// Refused is a replica that acknowledges what it received.
pub fn questions_are_sent()
    ensures step { (s : State) (m : Message) → AllByRecursion (IsSentBy s) (step s m).1 }
    ensures tick { (s : State) → AllByRecursion (IsSentBy s) (ticked s).1 }
{}
