//! What holds of the machine's steps by their definitions.
ghost use Rattle.std.specs.Prelude.{◌≡◌, ◌↔◌, List, Some};
ghost use Rattle.key_model.specs.State.{State};
ghost use Rattle.key_model.specs.Steps.{Steps, Run};
ghost use Rattle.key_model.specs.After.{after, after_all};
ghost use Rattle.key_model.specs.Clean.{MapIsFold};
ghost use Rattle.key_model.specs.declared.step.MachineStep.{MachineStep};

/// A step leads from one state to another exactly where it makes that state of it. So each step
/// leads to one state at most.
pub fn steps_are_after()
    ensures { (old : State) (step : MachineStep) (new : State) → Steps old step new ↔ (after old step ≡ Some new) }
{}

/// The same of steps one after another.
pub fn runs_are_after_all()
    ensures { (old : State) (steps : List MachineStep) (new : State) → Run old steps new ↔ (after_all (Some old) steps ≡ Some new) }
{}

/// For every clean list of events: at a closed cut the map is the fold of the committed transactions whose
/// end is in the cut, in the order of their ends. A map that answered the value of a row whose
/// transaction's end isn't in the cut would not be.
pub fn the_map_at_a_closed_cut_is_the_fold()
    ensures { MapIsFold }
{}
