//! What holds of every run of the world, whatever its steps are.
//!
//! The steps are a list of any length: deliveries of any message that was ever sent, any number of times and in any order,
//! commands, ticks, stops, starts and failing disks. The steps are ones that a schedule can write: a page is asked for at a
//! stamp up to 2^63 - 1 (`IsStep`).
ghost use Rattle.world_laws.specs.Runs.{AllTell, Always, DurableIsHeld, EndsKeepDurable, Holds, ListsAreFronts, ListsStay, NeverFalls, RunKeeps, SentAreSpelled, StepHolds, WritersDiffer};

use crate::{apart, begin, locks, masters, spelled, stores};
use lock_model::laws;
use store_model::log_laws;

/// Every step keeps the whole invariant, with what is kept beside the world after it.
pub fn a_step_keeps_it()
    ensures { StepHolds }
{
    apart::a_delivery_to_a_page_store_or_replica_keeps_it();
    apart::a_step_apart_keeps_it();
    locks::a_delivery_to_the_lock_manager_keeps_it();
    locks::the_lock_manager_keeps_it_over_stops();
    stores::a_delivery_to_a_log_store_keeps_what_was_said();
    stores::a_log_store_keeps_it_over_stops();
    masters::a_delivery_to_a_master_keeps_it();
    masters::a_command_keeps_it();
    masters::a_tick_of_a_master_keeps_it();
    spelled::each_step_keeps_it_spelled();
    spelled::what_is_sent_can_be_spelled();
    spelled::what_can_be_spelled_brings_it();
    log_laws::facts_of_messages_stay();
    log_laws::going_stands_still();
    log_laws::longer_logs_have_it();
    laws::facts_of_messages_stay();
    laws::going_stands_still();
}

/// So does every list of steps, from any world in which it holds; and the world goes on as old messages want it.
pub fn a_run_keeps_it()
    ensures { RunKeeps }
{
    a_step_keeps_it();
    log_laws::facts_of_messages_stay();
    log_laws::going_stands_still();
    log_laws::going_is_transitive();
    log_laws::longer_logs_have_it();
    laws::facts_of_messages_stay();
    laws::going_stands_still();
    laws::going_is_transitive();
}

/// So it holds after every list of steps from the beginning.
pub fn it_always_holds()
    ensures { Always Holds }
{
    a_run_keeps_it();
    begin::it_holds_at_the_beginning();
    spelled::it_begins_spelled();
}

/// Each message that was ever sent can be spelled by the format of messages, as far as nodes take stamps and vectors from it:
/// its stamp is at most 2^63 - 1, its vectors ascend by writers from 1 on, without a stamp of 0 or above 2^63 - 1, and so do
/// those of its groups, whose stamps are up to there too. Refused is whatever the laws of a step refuse.
pub fn what_was_sent_can_be_spelled()
    ensures { Always SentAreSpelled }
{
    it_always_holds();
    spelled::what_is_sent_can_be_spelled();
}

/// A sealed list of a log store never grows nor changes, and no list loses a group, over stops, starts and failing disks.
/// Refused is a log store that forgets a seal when it starts again.
pub fn lists_stay()
    ensures { ListsStay }
{
    a_run_keeps_it();
}

/// How many of a writer's groups stand for ever never falls: the durable ones, and once the log has an end those up to it.
/// Refused is a close at less than what the writer's master knew to be durable.
pub fn what_stands_never_falls()
    ensures { NeverFalls }
{
    a_run_keeps_it();
}

/// No close loses what was durable: a log that has an end has all that its master knew to be durable, and the log store
/// that the close names is sealed there. Refused is a master that asks for a close before the log is sealed, and a log store
/// that takes groups once it has named its length.
pub fn a_close_keeps_what_is_durable()
    ensures { Always EndsKeepDurable }
{
    it_always_holds();
}

/// A log store's list of a writer is always a front of that writer's log. Refused is a log store that keeps another group
/// than the one that was logged.
pub fn lists_are_fronts_of_the_logs()
    ensures { Always ListsAreFronts }
{
    it_always_holds();
}

/// What a master takes for durable is held by all three log stores, over stops and failing disks. Refused is a log store
/// that acknowledges a group before it is kept.
pub fn what_is_durable_is_held()
    ensures { Always DurableIsHeld }
{
    it_always_holds();
}

/// Each message that was ever sent is still true: a group that was acknowledged is held; a length that was named of a
/// sealed log is that store's; groups that were served are the writer's own, in their places, and stand for ever; an
/// append names its writer's group; a close is of a log store that is sealed there; and all that is told of a closed writer
/// is the lock manager's one close. Refused is a lock manager that lets a second close replace the first.
pub fn what_was_said_is_so()
    ensures { Always AllTell }
{
    it_always_holds();
}

/// Writers are numbered once for each master and boot. Refused is a repeated register that gets a new number.
pub fn writers_are_numbered_once()
    ensures { Always WritersDiffer }
{
    laws::writers_differ();
}
