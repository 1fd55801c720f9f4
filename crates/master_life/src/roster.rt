//! What a master is told of writers: rosters, that one is recovered, and that its own log is sealed.
ghost use Rattle.std.specs.Prelude.{◌≡◌, [], nat_eq, not, OnOk, OnErr};
ghost use Rattle.master_model.specs.State.{Life, writer_of};
ghost use Rattle.master_model.specs.Recovery.{entry_of, is_recovered, on_recovered};
ghost use Rattle.master_model.specs.Step.{is_live, on_roster, on_sealed_own};
ghost use Rattle.master_life.specs.Moves as move;
ghost use Rattle.master_life.specs.Moves.{ends_by, fenced_in, is_of};
ghost use Rattle.master_life.specs.SeenLife.{seen_effect, seen_life};

use crate::LifeState;
use master_recovery::Recovery;
use tm_base::{Mem, RosterEntry, RosterEntryList, TryCopy, Writer, WriterState};

/// What a roster says of a writer, if it names it.
pub(crate) fn entry_of(entries: &[RosterEntry], writer: Writer) -> Option<RosterEntry>
    ensures { result ≡ entry_of entries.now writer.0 }
{
    for entry in entries {
        if entry.writer == writer {
            return Some(*entry);
        }
    }
    None
}

/// Whether a writer's open transactions are undone.
pub(crate) fn is_recovered(state: WriterState) -> bool
    ensures { result ≡ is_recovered state }
{
    match state {
        WriterState::Live => false,
        WriterState::Closed => false,
        WriterState::Recovered => true,
    }
}

/// Whether a writer may log.
fn is_live(state: WriterState) -> bool
    ensures { result ≡ is_live state }
{
    match state {
        WriterState::Live => true,
        WriterState::Closed => false,
        WriterState::Recovered => false,
    }
}

/// Whether a recovery is of this writer.
fn is_of(recovery: &Option<Recovery>, writer: Writer) -> bool
    ensures { result ≡ is_of recovery.now writer.0 }
{
    match recovery {
        Some(recovery) => recovery.writer().0 == writer.0,
        None => false,
    }
}

/// Whether a roster says that the writer under recovery is recovered.
fn ends_by(recovery: &Option<Recovery>, entries: &[RosterEntry]) -> bool
    ensures { result ≡ ends_by recovery.now entries.now }
{
    let Some(recovery) = recovery else {
        return false;
    };
    let Some(entry) = entry_of(entries, recovery.writer()) else {
        return false;
    };
    is_recovered(entry.state)
}

/// Whether the own writer may log no more, as a roster says it, or as it was where that doesn't name the writer.
fn fenced_in(fenced: bool, entry: Option<RosterEntry>) -> bool
    ensures { result ≡ fenced_in fenced entry }
{
    match entry {
        None => fenced,
        Some(entry) => !is_live(entry.state),
    }
}

/// A writer is recovered, seen alone.
fn seen_recovered(life: &mut LifeState, writer: Writer) -> Mem<()>
    ensures ok { OnOk result ((life.new, []) ≡ move.on_recovered life.old writer) }
    ensures err { OnErr result (life.new ≡ life.old) }
{
    life.recovered.insert(writer)?;
    if is_of(&life.recovery, writer) {
        life.recovery = None;
    }
    Ok(())
}

/// A roster comes, seen alone.
fn seen_roster(life: &mut LifeState, entries: &RosterEntryList) -> Mem<()>
    ensures ok { OnOk result ((life.new, []) ≡ move.on_roster life.old entries.now) }
    ensures err { OnErr result (life.new ≡ life.old) }
{
    let kept = entries.copy()?;
    life.fenced = fenced_in(
        life.fenced,
        entry_of(entries.as_slice(), life.work.writer()),
    );
    if ends_by(&life.recovery, entries.as_slice()) {
        life.recovery = None;
    }
    life.roster = kept;
    Ok(())
}

/// The lock manager says that a writer is recovered. That is kept, and the writer's recovery ends here, whatever its stage.
/// With want of memory nothing has changed.
pub fn on_recovered(life: &mut LifeState, writer: Writer) -> Mem<()>
    ensures ok { (l : Life) → life.old ≡ seen_life l → OnOk result ((life.new, []) ≡ seen_effect (on_recovered l writer)) }
    ensures err { OnErr result (life.new ≡ life.old) }
{
    seen_recovered(life, writer)?;
    Ok(())
}

/// A roster comes, and is kept. Where the own writer isn't live in it, the master does nothing more; where the writer under
/// recovery is recovered in it, the recovery ends. With want of memory nothing has changed.
pub fn on_roster(life: &mut LifeState, entries: &RosterEntryList) -> Mem<()>
    ensures ok { (l : Life) → life.old ≡ seen_life l → OnOk result ((life.new, []) ≡ seen_effect (on_roster l entries.now)) }
    ensures err { OnErr result (life.new ≡ life.old) }
{
    seen_roster(life, entries)?;
    Ok(())
}

/// The log of a writer is sealed, seen alone.
fn seen_own_sealed(life: &mut LifeState, writer: Writer)
    ensures { (life.new, []) ≡ move.on_sealed life.old writer }
{
    if writer.0 == life.work.writer().0 {
        life.fenced = true;
    }
}

/// A log store says that the log of a writer is sealed. Where that is the own one, the writer is lost: the master does
/// nothing more.
pub fn on_sealed(life: &mut LifeState, writer: Writer)
    ensures { (l : Life) → life.old ≡ seen_life l → (life.new, []) ≡ seen_effect (on_sealed_own l (nat_eq writer.0 (writer_of l.work))) }
{
    seen_own_sealed(life, writer);
}
