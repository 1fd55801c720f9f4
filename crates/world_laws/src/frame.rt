//! What a step of the world leaves as it was.
ghost use Rattle.world_laws.specs.Frame.{DeliveryHasFrame};

/// A message that is delivered changes the node that it goes to, that node's disk, what was sent and what is kept of the
/// run, and no other node: whether the node runs or not, and also where its disk fails. Refused is a world whose stopped
/// node takes its number's place among another kind's.
pub fn a_delivery_changes_its_node()
    ensures { DeliveryHasFrame }
{}
