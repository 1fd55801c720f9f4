//! The table of writers.
ghost use Rattle.std.specs.Prelude.{◌≡◌, ◌≤◌, length, IfOk, None};
ghost use Rattle.lock_model.specs.Step.{latest, or_earlier, roster, roster_entry};
ghost use Rattle.lock_model.specs.State.{at};

use crate::table::Table;
use lock_model::{Life, WriterEntry, WriterStatus};
use std::alloc::Global;
use tm_base::{ItemList, Mem, RosterEntry, RosterEntryList, Writer, WriterState};

impl Table<WriterEntry> {
    /// The latest life of a master: that of the greatest writer number.
    #[tactic(auto, using(crate::proofs::TableLemmas::latest_down, crate::proofs::TableLemmas::latest_found))]
    pub(crate) fn latest(&self, master: u8) -> Option<Life>
        requires { length self.now ≤ 1024 }
        ensures { result ≡ latest self.now master (length self.now) }
    {
        let mut number = self.len() as u32;
        while number > 0 {
            if let Some(life) = self.life(number, master) {
                return Some(life);
            }
            number -= 1;
        }
        None
    }

    /// The life of this number, if it is the master's.
    fn life(&self, number: u32, master: u8) -> Option<Life>
        ensures { result ≡ or_earlier number master (at self.now number) None }
    {
        let entry = self.get(number)?;
        if entry.master != master {
            return None;
        }
        Some(Life {
            writer: Writer(number),
            boot: entry.boot,
        })
    }

    /// What is told of each writer, in the order of their numbers.
    pub(crate) fn roster(&self, alloc: Global) -> Mem<RosterEntryList>
        ensures { IfOk result (λ entries. entries ≡ roster self.now) }
    {
        let mut entries = ItemList::new(alloc);
        for (number, entry) in self.map.iter() {
            entries.push(roster_entry(*number, entry))?;
        }
        Ok(entries)
    }
}

/// What is told of a writer.
fn roster_entry(number: u32, entry: &WriterEntry) -> RosterEntry
    ensures { result ≡ roster_entry (number, entry.now) }
{
    let (state, length) = match &entry.status {
        WriterStatus::Live => (WriterState::Live, 0),
        WriterStatus::Closed { length, .. } => (WriterState::Closed, *length),
        WriterStatus::Recovered { length, .. } => (WriterState::Recovered, *length),
    };
    RosterEntry {
        writer: Writer(number),
        master: entry.master,
        state,
        length,
        start: entry.start,
    }
}
