//! The laws of the order of groups, of points, and of what is applied as a cut of a history.
ghost use Rattle.replica_laws.specs.ClosedCuts.{FrontiersAreCuts, PointsAreCuts};
ghost use Rattle.replica_laws.specs.Lives.{OrdersGoOn, OrdersRun, OthersChangeNothing, PointsStay, RepeatsChangeNothing, WaitsAreOfTheLeast};
ghost use Rattle.replica_laws.specs.Runs.{EveryRunHolds};

use history_laws::laws::vector_cuts_are_closed;

/// After every list of groups that were offered and groups that were applied: each applied group came after every group that
/// its vector names; the frontier is the vector of what was applied; and of each writer what was applied is a front of its
/// groups, numbered from 1 on, while the rest waits in order. Refused are an order that applies groups as they arrive, and a
/// frontier that takes what a group had learnt in place of its own stamp.
pub fn every_run_holds()
    ensures { EveryRunHolds }
{}

/// A group that isn't its writer's next changes nothing, and so none that was received before does. Refused is an order that
/// lets a group wait twice.
pub fn others_change_nothing()
    ensures others { OthersChangeNothing }
    ensures repeats { RepeatsChangeNothing }
{}

/// What is told as waited for is the first entry that isn't covered, of the least writer whose next group is here and may not
/// be applied; nothing is told exactly where there is no such writer. Refused is an order that tells of the last one.
pub fn waits_are_of_the_least()
    ensures { WaitsAreOfTheLeast }
{}

/// After every list of messages, ticks and publications the order of a replica is that of some list of offers and
/// applications, of which all holds that holds of every one. Refused is a step that applies a group which isn't next.
pub fn orders_run()
    ensures { OrdersRun }
{}

/// From each moment to the next what was received and what was applied is only added to at its end, the frontier never falls,
/// and the points stay; and it is one list of deeds that so goes on from the beginning. Refused is a step that forgets on a
/// roster what was applied.
pub fn orders_go_on()
    ensures { OrdersGoOn }
{}

/// A point keeps its vector, whatever comes later. Refused is a publication that replaces the last point.
pub fn points_stay()
    ensures { PointsStay }
{}

/// Where the groups that come are of one history, in which each writer's groups are one list and bounds are in causal order,
/// the frontier is its own cover, and so a closed cut of the events where bounds order touches; and the groups of the history
/// in it are exactly those that were applied. Refused is an order that applies a group before what its writer had learnt of
/// others.
pub fn frontiers_are_closed_cuts()
    ensures { FrontiersAreCuts }
{
    vector_cuts_are_closed();
}

/// So is the vector of every point that was ever published in this life. Refused is a point that is published between two
/// records of one group, or with a vector that names a group which isn't applied.
pub fn points_are_closed_cuts()
    ensures { PointsAreCuts }
{
    vector_cuts_are_closed();
}
