//! What page stores and replicas do to the world, and masters that start or stop.
ghost use Rattle.world_laws.specs.Invariant.{ApartDeliveryHolds, ApartStepHolds};

use lock_model::laws as lock_laws;
use replica_model::laws as replica_laws;
use store_model::{log_laws, page_laws};

/// A message to a page store or a replica keeps all of the invariant, also where a shelf fails: nothing of it speaks of
/// these nodes, and what they send are pages and questions. Refused is a replica that tells a log store that a group
/// stands.
pub fn a_delivery_to_a_page_store_or_replica_keeps_it()
    ensures { ApartDeliveryHolds }
{
    log_laws::facts_of_messages_stay();
    log_laws::going_stands_still();
    log_laws::longer_logs_have_it();
    lock_laws::facts_of_messages_stay();
    lock_laws::going_stands_still();
    page_laws::four_kinds_are_sent();
    replica_laws::questions_are_sent();
}

/// So do the steps of a schedule that touch neither log nor lease: their ticks, starts, stops and failing disks, what they
/// are asked, a message that is lost; and a master that stops, or starts and registers its next boot number, for which no
/// writer was numbered yet. Refused is a master that registers a boot number which it had before.
pub fn a_step_apart_keeps_it()
    ensures { ApartStepHolds }
{
    log_laws::facts_of_messages_stay();
    log_laws::going_stands_still();
    log_laws::longer_logs_have_it();
    lock_laws::facts_of_messages_stay();
    lock_laws::going_stands_still();
    page_laws::four_kinds_are_sent();
    replica_laws::questions_are_sent();
}
