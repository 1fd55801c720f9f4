//! What a delivery to the lock manager does to the world, and what else may become of it.
ghost use Rattle.world_laws.specs.Invariant.{LockDeliveryHolds, LockStepHolds};
ghost use Rattle.world_laws.specs.Lives.{LockDeliveryRuns};

use lock_model::laws;
use store_model::log_laws;

/// A lock manager that runs is what its disk gives, also after a message that its step says to have changed nothing, and
/// so isn't kept. Refused is a step that changes the state and says that it didn't.
pub fn a_delivery_keeps_the_lock_managers_disk()
    ensures { LockDeliveryRuns }
{
    laws::tells_change();
}

/// A message to it keeps all of the invariant, also where its disk fails and the message was kept or wasn't: a close that
/// is accepted gives a log an end that is at least what the writer's master knew to be durable, and at which the log store
/// is sealed, and that is the writer's number from then on; each new writer is of a boot that its master has had. Refused
/// is a lock manager that takes the end of a log from a log store that isn't sealed there, and one that numbers a boot
/// which its master hasn't had.
pub fn a_delivery_to_the_lock_manager_keeps_it()
    ensures { LockDeliveryHolds }
{
    laws::facts_hold_at_the_start();
    laws::a_run_keeps_the_facts();
    laws::a_step_does_what_is_told();
    laws::a_step_goes();
    laws::going_stands_still();
    laws::sent_messages_are_true();
    laws::facts_of_messages_stay();
    laws::tells_change();
    log_laws::facts_of_messages_stay();
    log_laws::going_stands_still();
    log_laws::longer_logs_have_it();
}

/// A tick, a stop, a start from what its disk gives, and the word that its disk is to fail keep all of it. Refused is a
/// start that forgets the end of a log.
pub fn the_lock_manager_keeps_it_over_stops()
    ensures { LockStepHolds }
{
    laws::facts_hold_at_the_start();
    laws::a_run_keeps_the_facts();
    laws::a_step_does_what_is_told();
    laws::a_step_goes();
    laws::going_stands_still();
    laws::sent_messages_are_true();
    laws::facts_of_messages_stay();
    laws::tells_change();
    log_laws::facts_of_messages_stay();
    log_laws::going_stands_still();
    log_laws::longer_logs_have_it();
}
