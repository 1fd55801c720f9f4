//! What a delivery to a log store does to the world.
ghost use Rattle.world_laws.specs.Invariant.{StoreDeliveryHolds, StoreStepHolds};
ghost use Rattle.world_laws.specs.LogStores.{StoreDeliveryKeeps};
ghost use Rattle.world_laws.specs.Messages.{StoreDeliveryGoes, StoreDeliverySays};

use lock_model::laws as lock_laws;
use store_model::log_laws;

/// A message that is delivered to a log store keeps what holds of every log store, running or stopped: its lists are fronts
/// of the writers' logs, what was acknowledged is held, a log that ends here is sealed at its end, and what its disk gives
/// has the lists of the store that runs from it. So it is also where the disk fails, and the message was kept or wasn't.
/// Refused is a store that acknowledges a group before it is kept.
pub fn a_delivery_keeps_the_log_stores()
    ensures { StoreDeliveryKeeps }
{
    log_laws::a_step_keeps_the_facts();
    log_laws::a_start_keeps_the_facts();
    log_laws::a_step_is_of_the_logs();
    log_laws::kept_messages_are_of_the_logs();
    log_laws::a_step_is_kept();
    log_laws::a_step_goes();
    log_laws::a_start_goes();
    log_laws::going_stands_still();
    log_laws::going_is_transitive();
}

/// It moves the world as old messages want it: no list of any log store loses a group, also where the disk fails, and
/// nothing else changes of which messages speak. And all that was ever sent says what is so after it, with what the delivery
/// sends. Refused is a store that is acknowledged to have what it loses when its disk fails.
pub fn a_delivery_to_a_log_store_keeps_what_was_said()
    ensures goes { StoreDeliveryGoes }
    ensures says { StoreDeliverySays }
    ensures holds { StoreDeliveryHolds }
{
    log_laws::a_step_keeps_the_facts();
    log_laws::a_start_keeps_the_facts();
    log_laws::a_step_is_of_the_logs();
    log_laws::kept_messages_are_of_the_logs();
    log_laws::a_step_is_kept();
    log_laws::a_step_goes();
    log_laws::a_start_goes();
    log_laws::going_stands_still();
    log_laws::going_is_transitive();
    log_laws::facts_of_messages_stay();
    log_laws::sent_messages_say_what_is();
    log_laws::sent_messages_are_true();
    lock_laws::going_stands_still();
    lock_laws::facts_of_messages_stay();
}

/// A tick, a stop, a start from what its disk gives, and the word that its disk is to fail keep all of it. Refused is a
/// start that forgets a group which was acknowledged, or a seal.
pub fn a_log_store_keeps_it_over_stops()
    ensures { StoreStepHolds }
{
    log_laws::a_step_keeps_the_facts();
    log_laws::a_start_keeps_the_facts();
    log_laws::a_step_is_of_the_logs();
    log_laws::kept_messages_are_of_the_logs();
    log_laws::a_step_is_kept();
    log_laws::a_step_goes();
    log_laws::a_start_goes();
    log_laws::going_stands_still();
    log_laws::going_is_transitive();
    log_laws::facts_of_messages_stay();
    log_laws::sent_messages_say_what_is();
    log_laws::sent_messages_are_true();
    log_laws::messages_of_ticks_are_true();
    lock_laws::going_stands_still();
    lock_laws::facts_of_messages_stay();
}
