//! What holds of a recovery's definitions: laws over them alone.
//!
//! A law is the contract of a function that does nothing: a caller that calls it has the law among its facts.
ghost use Rattle.std.specs.Prelude.{◌≡◌, ◌<◌, ◌-◌, ℕ, List, true, false, not, ◌&&◌, nat_eq, Some};
ghost use Rattle.std.specs.FinMap as fin;
ghost use Rattle.std.specs.Ordering.{nat_cmp};
ghost use Rattle.std.specs.List.Sorted.{IsStrictlySortedBy};
ghost use Rattle.tm_data.specs.declared.log.Group.{Group};
ghost use Rattle.master_model.specs.State.{Life, Recovery};
ghost use Rattle.master_model.specs.declared.recovery.Stage.TheVariants.{Undo, Told};
ghost use Rattle.master_model.specs.Recovery.{WrittenRow, have_end, on_closed_in, on_groups_in, on_recovered, on_sealed_in, on_taken_in, pages_of, rows_left, to_undo, with_groups, writer_named, written_cmp};
ghost use Rattle.master_recovery.specs.ReadRows.{is_among, last_stamp, writes};
ghost use Rattle.master_recovery.specs.Seen.{IsSound, Shows, closed, listed, over, scanned, sealed, seen, taken, told, undone};

/// The pages that are taken over are exactly those that the groups change, each with the stamp of the last group that
/// changes it, and they are listed ascending. Refused is a walk that keeps a page's first stamp.
pub fn pages_have_their_last_stamps()
    ensures ascending { (groups : List Group) → IsStrictlySortedBy nat_cmp (fin.keys (with_groups fin.empty groups)) }
    ensures stamps { (groups : List Group) (page : ℕ) → fin.get (with_groups fin.empty groups) page ≡ last_stamp groups page }
{}

/// The rows to undo are exactly those that a group writes in the name of a transaction of the writer whose end is in none of
/// the groups.
pub fn rows_to_undo_are_those_without_an_end()
    ensures { (writer : ℕ) (groups : List Group) (w : WrittenRow) → is_among (to_undo writer groups) w ≡ (nat_eq w.txn.writer.0 writer && writes groups w && not (have_end groups w.txn)) }
{}

/// No row of a transaction is undone whose end is among the groups.
pub fn no_ended_transaction_is_undone()
    ensures { (writer : ℕ) (groups : List Group) (w : WrittenRow) → have_end groups w.txn ≡ true → is_among (to_undo writer groups) w ≡ false }
{}

/// Each row is undone that a group writes in the name of a transaction of the writer, where that has no end in them.
pub fn every_open_row_is_undone()
    ensures { (writer : ℕ) (groups : List Group) (w : WrittenRow) → nat_eq w.txn.writer.0 writer ≡ true → writes groups w ≡ true → have_end groups w.txn ≡ false → is_among (to_undo writer groups) w ≡ true }
{}

/// The rows to undo ascend by table, then by key, then by transaction.
pub fn rows_to_undo_ascend()
    ensures { (writer : ℕ) (groups : List Group) → IsStrictlySortedBy written_cmp (to_undo writer groups) }
{}

/// A log store that has sealed the log moves what is seen of a recovery as the definitions move the recovery.
pub fn a_sealed_log_shows()
    ensures { (l : Life) (r : Recovery) (store most : ℕ) → l.recovery ≡ Some r → Shows (sealed (seen r) store most) (on_sealed_in l r store most r.stage).0.recovery }
{}

/// So does the close of the log.
pub fn a_closed_log_shows()
    ensures { (l : Life) (r : Recovery) (store most : ℕ) → l.recovery ≡ Some r → Shows (closed (seen r) store most) (on_closed_in l r store most r.stage).0.recovery }
{}

/// So do groups of the closed log.
pub fn read_groups_show()
    ensures { (l : Life) (r : Recovery) (groups : List Group) → l.recovery ≡ Some r → Shows (scanned (seen r) groups) (on_groups_in l r groups r.stage).0.recovery }
{}

/// So does a part that is taken over.
pub fn a_taken_part_shows()
    ensures { (l : Life) (r : Recovery) (part : ℕ) → l.recovery ≡ Some r → Shows (taken (seen r) part) (on_taken_in l r part r.stage).0.recovery }
{}

/// What is seen lists the pages as the definitions do, so each part of them is the definitions' part.
pub fn the_pages_show()
    ensures { (r : Recovery) → listed (seen r).pages ≡ pages_of r.scanned }
{}

/// So does a row that is undone, which leaves one row less: those that are left are the definitions'.
pub fn an_undone_row_shows()
    ensures rows { (r : Recovery) (left : ℕ) → r.stage ≡ Undo left → (seen r).undo ≡ rows_left r left }
    ensures left { (r : Recovery) (left : ℕ) → r.stage ≡ Undo left → 0 < left → IsSound (seen r) → undone (seen r) left ≡ seen (record r { stage = Undo (left - 1) }) }
{}

/// So does the word to the lock manager that every row is undone.
pub fn what_is_told_shows()
    ensures { (r : Recovery) → r.stage ≡ Undo 0 → told (seen r) ≡ seen (record r { stage = Told }) }
{}

/// So does the lock manager's word that the writer is recovered, after which no recovery is under way.
pub fn a_recovered_writer_shows()
    ensures { (l : Life) (r : Recovery) → l.recovery ≡ Some r → Shows (over (seen r)) (on_recovered l (writer_named r.writer)).0.recovery }
{}
