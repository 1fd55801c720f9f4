//! The state of a master that has joined.
ghost use Rattle.std.specs.Prelude.{◌≡◌};
ghost use Rattle.master_model.specs.Step.{new_life};
ghost use Rattle.master_life.specs.SeenLife.{seen_life};

use key_index::WriterSet;
use master_recovery::Recovery;
use master_work::WorkState;
use std::marker::Model;
use tm_base::RosterEntryList;

/// What a master is once it has joined.
#[derive(Drop)]
pub struct LifeState {
    pub work: WorkState,
    /// What the last roster said that was delivered.
    pub roster: RosterEntryList,
    /// The writers of which it was told here that they are recovered.
    pub recovered: WriterSet,
    /// The recovery that is under way.
    pub recovery: Option<Recovery>,
    /// The number of the last own group that undid a row in this recovery, 0 where there is none.
    pub undo_seq: u32,
    /// Its own writer is closed, and it does nothing more.
    pub fenced: bool,
}

impl Model for LifeState {
    ghost use Rattle.master_life.specs.SeenLife.{SeenLife, coded_life};

    ghost Value = { SeenLife };

    ghost coded = { coded_life };

    ghost view = { λ l. record {
      work = l.work;
      roster = l.roster;
      recovered = l.recovered;
      recovery = l.recovery;
      undo_seq = l.undo_seq;
      fenced = l.fenced;
    } };
}

impl LifeState {
    /// A master that has just joined: it knows no roster, and recovers nobody.
    pub fn new(work: WorkState) -> LifeState
        ensures { result ≡ seen_life (new_life work) }
    {
        let alloc = work.alloc;
        LifeState {
            work,
            roster: RosterEntryList::new(alloc),
            recovered: WriterSet::new(alloc),
            recovery: None,
            undo_seq: 0,
            fenced: false,
        }
    }
}
