//! Where the world begins.
ghost use Rattle.world_laws.specs.Invariant.{BeginHolds, StoppedHolds};

use lock_model::laws as lock_laws;
use replica_model::laws as replica_laws;
use store_model::{log_laws, page_laws};

/// Before any node has started, all of it holds.
pub fn it_holds_of_a_stopped_world()
    ensures { StoppedHolds }
{
    log_laws::facts_hold_at_the_start();
    log_laws::a_start_is_of_the_logs();
}

/// And when all nodes have started. Refused is a master whose first boot number is 0.
pub fn it_holds_at_the_beginning()
    ensures { BeginHolds }
{
    log_laws::facts_hold_at_the_start();
    log_laws::a_start_is_of_the_logs();
    log_laws::a_step_keeps_the_facts();
    log_laws::a_start_keeps_the_facts();
    log_laws::a_step_is_of_the_logs();
    log_laws::kept_messages_are_of_the_logs();
    log_laws::a_step_is_kept();
    log_laws::a_step_goes();
    log_laws::a_start_goes();
    log_laws::going_stands_still();
    log_laws::going_is_transitive();
    log_laws::facts_of_messages_stay();
    log_laws::sent_messages_say_what_is();
    log_laws::sent_messages_are_true();
    log_laws::longer_logs_have_it();
    lock_laws::facts_hold_at_the_start();
    lock_laws::a_run_keeps_the_facts();
    lock_laws::a_step_does_what_is_told();
    lock_laws::a_step_goes();
    lock_laws::going_stands_still();
    lock_laws::sent_messages_are_true();
    lock_laws::facts_of_messages_stay();
    lock_laws::tells_change();
    page_laws::four_kinds_are_sent();
    replica_laws::questions_are_sent();
}
