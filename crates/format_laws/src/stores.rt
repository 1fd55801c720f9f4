//! What log stores, page stores and replicas send can be spelled.
//!
//! They send back the greatest scalar that they heard. Of the groups that a log store serves it is said where they are
//! said to be of the writers' logs.
ghost use Rattle.std.specs.Prelude.{ℕ, List};
ghost use Rattle.tm_base.specs.declared.message.Message.{Message};
ghost use Rattle.replica_model.specs.State as replica;
ghost use Rattle.replica_model.specs.Step as replica_step;
ghost use Rattle.store_model.specs.LogStarts.{reopened};
ghost use Rattle.store_model.specs.LogState.{LogStoreState};
ghost use Rattle.store_model.specs.LogStep as log_step;
ghost use Rattle.store_model.specs.PageReads.{wants};
ghost use Rattle.store_model.specs.PageState.{PageStoreState};
ghost use Rattle.store_model.specs.PageStep as page_step;
ghost use Rattle.store_model.specs.declared.refusal.ReadRefusal.{ReadRefusal};
ghost use Rattle.format_laws.specs.Kept.{KeepsSpelled};
ghost use Rattle.format_laws.specs.Spelled.{AllSpelled, IsSpelled, IsStamp};

/// A log store's scalar stays a stamp, and what it sends can be spelled; also when it starts again from what it kept, whose
/// stamps it doesn't hear. It speaks of every message, also of one that is ignored.
pub fn a_log_store_sends_what_can_be_spelled()
    ensures step { (s : LogStoreState) (m : Message) → IsStamp s.scalar → IsSpelled m → KeepsSpelled (log_step.stepped s m).0.scalar (log_step.stepped s m).1 }
    ensures tick { (s : LogStoreState) → IsStamp s.scalar → KeepsSpelled (log_step.ticked s).0.scalar (log_step.ticked s).1 }
    ensures start { (s : LogStoreState) (kept : List Message) → IsStamp s.scalar → IsStamp (reopened s kept).scalar }
{}

/// So with a page store; and what it asks for after a page was refused at a stamp has that stamp. Refused is one that asks
/// for the stamp after it, and one whose scalar rises with each tick.
pub fn a_page_store_sends_what_can_be_spelled()
    ensures step { (s : PageStoreState) (m : Message) → IsStamp s.scalar → IsSpelled m → KeepsSpelled (page_step.stepped s m).0.scalar (page_step.stepped s m).1 }
    ensures tick { (s : PageStoreState) → IsStamp s.scalar → KeepsSpelled (page_step.ticked s).0.scalar (page_step.ticked s).1 }
    ensures refused { (s : PageStoreState) (why : ReadRefusal) (stamp : ℕ) → IsStamp stamp → AllSpelled (wants s why stamp) }
{}

/// And with a replica. Refused is one that hears the stamps of the groups that it applies.
pub fn a_replica_sends_what_can_be_spelled()
    ensures step { (s : replica.State) (m : Message) → IsStamp s.scalar → IsSpelled m → KeepsSpelled (replica_step.step s m).0.scalar (replica_step.step s m).1 }
    ensures tick { (s : replica.State) → IsStamp s.scalar → KeepsSpelled (replica_step.ticked s).0.scalar (replica_step.ticked s).1 }
{}
