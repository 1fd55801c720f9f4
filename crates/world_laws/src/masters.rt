//! What masters do to the world.
ghost use Rattle.world_laws.specs.Invariant.{CommandHolds, MasterDeliveryHolds, MasterTickHolds};

use lock_model::laws as lock_laws;
use master_model::laws;
use store_model::log_laws;

/// A message to a master keeps all of the invariant, with the life that is kept beside the world: a life begins as the
/// writer that was numbered for this master and boot; its log grows by what it logs; what it takes for acknowledged a log
/// store holds; its durable number is within any end of its log; its leases are ones that the lock manager gave; and a
/// recovery asks for an end at which the log store is sealed. Refused are a master that takes a Registered of another
/// boot, and one that counts another writer's Ack for its own.
pub fn a_delivery_to_a_master_keeps_it()
    ensures { MasterDeliveryHolds }
{
    laws::a_message_keeps_the_facts();
    laws::a_message_goes();
    laws::a_message_sends_what_is();
    laws::a_command_keeps_the_facts();
    laws::a_command_goes();
    laws::a_command_sends_what_is();
    laws::a_tick_sends_what_is();
    laws::marks_come_from_acknowledgements();
    laws::a_life_begins_as_it_was_registered();
    laws::epochs_come_with_pages();
    laws::recoveries_move_by_what_comes();
    laws::a_recovery_says_where_it_is();
    laws::the_roster_is_one_that_came();
    log_laws::facts_of_messages_stay();
    log_laws::going_stands_still();
    log_laws::longer_logs_have_it();
    lock_laws::facts_of_messages_stay();
    lock_laws::going_stands_still();
}

/// So does a command: what it sends is of the life's own log. Refused is a master that sends a group before it logs it.
pub fn a_command_keeps_it()
    ensures { CommandHolds }
{
    laws::a_message_keeps_the_facts();
    laws::a_message_goes();
    laws::a_message_sends_what_is();
    laws::a_command_keeps_the_facts();
    laws::a_command_goes();
    laws::a_command_sends_what_is();
    laws::a_tick_sends_what_is();
    laws::marks_come_from_acknowledgements();
    laws::a_life_begins_as_it_was_registered();
    laws::epochs_come_with_pages();
    laws::recoveries_move_by_what_comes();
    laws::a_recovery_says_where_it_is();
    laws::the_roster_is_one_that_came();
    log_laws::facts_of_messages_stay();
    log_laws::going_stands_still();
    log_laws::longer_logs_have_it();
    lock_laws::facts_of_messages_stay();
    lock_laws::going_stands_still();
}

/// And a tick. Refused is a master that tells the log stores that more is durable than it knows.
pub fn a_tick_of_a_master_keeps_it()
    ensures { MasterTickHolds }
{
    laws::a_message_keeps_the_facts();
    laws::a_message_goes();
    laws::a_message_sends_what_is();
    laws::a_command_keeps_the_facts();
    laws::a_command_goes();
    laws::a_command_sends_what_is();
    laws::a_tick_sends_what_is();
    laws::marks_come_from_acknowledgements();
    laws::a_life_begins_as_it_was_registered();
    laws::epochs_come_with_pages();
    laws::recoveries_move_by_what_comes();
    laws::a_recovery_says_where_it_is();
    laws::the_roster_is_one_that_came();
    log_laws::facts_of_messages_stay();
    log_laws::going_stands_still();
    log_laws::longer_logs_have_it();
    lock_laws::facts_of_messages_stay();
    lock_laws::going_stands_still();
}
