//! All that was ever sent can be spelled by the format of messages, as far as nodes take stamps and vectors from it.
ghost use Rattle.world_laws.specs.Spelled.{BeginSpells, SentCanBeSpelled, SpelledBrings, StepSpells};

use format_laws::{locks, masters, stores};
use lock_model::laws as lock_laws;
use master_model::laws;

/// Each step that a schedule can write keeps it: what is sent can be spelled, and what each node keeps, if what it takes in
/// could be. Refused is a store that also asks a master to come to the stamp of a version that isn't there.
pub fn each_step_keeps_it_spelled()
    ensures { StepSpells }
{
    locks::what_it_keeps_can_be_spelled();
    locks::what_it_sends_can_be_spelled();
    masters::what_it_keeps_can_be_spelled();
    masters::what_it_sends_can_be_spelled();
    masters::a_log_can_be_spelled();
    stores::a_log_store_sends_what_can_be_spelled();
    stores::a_page_store_sends_what_can_be_spelled();
    stores::a_replica_sends_what_can_be_spelled();
    lock_laws::facts_hold_at_the_start();
    lock_laws::a_run_keeps_the_facts();
    laws::a_message_keeps_the_facts();
    laws::a_command_keeps_the_facts();
    laws::a_message_sends_what_is();
    laws::a_command_sends_what_is();
    laws::a_tick_sends_what_is();
    laws::a_recovery_says_where_it_is();
}

/// It holds at the beginning.
pub fn it_begins_spelled()
    ensures { BeginSpells }
{
    stores::a_log_store_sends_what_can_be_spelled();
}

/// So each message that was ever sent can be spelled, with its groups. That follows from what is said of messages and logs:
/// the groups that are appended and served are the writers' own.
pub fn what_is_sent_can_be_spelled()
    ensures { SentCanBeSpelled }
{
    masters::a_log_can_be_spelled();
}

/// And such a message brings a master what it counts on.
pub fn what_can_be_spelled_brings_it()
    ensures { SpelledBrings }
{}
