//! A row that is written at its leaf, where it fits.
ghost use Rattle.std.specs.Prelude.{◌≡◌, ◌≤◌, ◌∷◌, [], length, Some, IsSome, IfOk, OnErr, true, not};
ghost use Rattle.std.specs.FinMap as fin;
ghost use Rattle.page_model.specs.Effects.{page_of};
ghost use Rattle.master_model.specs.declared.session.Own.{Own};
ghost use Rattle.master_model.specs.Paths.{uses};
ghost use Rattle.master_model.specs.Logging.{has_numbers, has_stamps, logs};
ghost use Rattle.master_ends.specs.Ended.{with_logged};
ghost use Rattle.master_work.specs.Answers.{answered};
ghost use Rattle.master_work.specs.Changes.{IsMadeOn};
ghost use Rattle.master_work.specs.Parts.{Begun};
ghost use Rattle.master_writes.specs.Written.{noted, writes};

use master_aborts::log_one;
use master_rows::use_path;
use master_work::{Answer, Sessions, WorkState};
use row_tree::Path;
use tm_base::{
    ByteList, GroupList, Key, Mem, MessageList, NoMemory, Page, Record, Reply, RowKey, TryCopy,
};

/// Takes back that a row was noted as written, where it hadn't been before. It takes no memory.
fn unnote(sessions: &mut Sessions, session: u16, row: &RowKey, added: bool)
    requires { IsSome (fin.get sessions.old.owns session) }
    ensures { (was : Begun) (own : Own) → fin.get was.owns session ≡ Some own → added ≡ not (fin.contains_key own.written row.now)
        → sessions.old ≡ record was { owns = fin.insert was.owns session (record own { written = fin.insert own.written row.now tt }) } → sessions.new ≡ was }
{
    if added {
        sessions.take_written_back(session, row);
    }
}

/// Logs a record of a row that a session's transaction writes, and notes that it has written the row. There are a number
/// and a stamp for it. With want of memory nothing changes.
fn log_written(
    work: &mut WorkState,
    session: u16,
    page: Page,
    change: &Record,
    row: &RowKey,
) -> Mem<GroupList>
    requires number { has_numbers work.old 1 ≡ true }
    requires stamp { has_stamps work.old 1 ≡ true }
    requires names { page_of change.now ≡ Some page.0 }
    requires made { IsMadeOn work.old.pool page.0 change.now }
    requires there { IsSome (fin.get work.old.sessions session) }
    requires least { 1 ≤ length row.now.key }
    requires most { length row.now.key ≤ 64 }
    ensures ok { (own : Own) → fin.get work.old.sessions session ≡ Some own
        → IfOk result (λ groups. with_logged work.new groups ≡ noted session own row.now (logs work.old ((change.now ∷ []) ∷ []))) }
    ensures err { OnErr result (work.new ≡ work.old) }
{
    let added = work.sessions.add_written(session, row.copy()?)?;
    match log_one(work, page, change) {
        Ok(groups) => Ok(groups),
        Err(NoMemory) => {
            unnote(&mut work.sessions, session, row, added);
            Err(NoMemory)
        }
    }
}

/// What is written of a row, and where.
#[derive(Drop)]
pub struct Writing {
    pub session: u16,
    /// The path of the row's key, root first, and the leaf.
    pub path: Path,
    pub page: Page,
    pub row: RowKey,
    /// The record that puts the row there.
    pub change: Record,
}

/// Writes a row that fits its leaf, with the record that was made on the leaf's image: `Done`; or `FullGroups` or
/// `StampsSpent` where there is no number or no stamp for its group. With want of memory nothing changes.
#[tactic(auto, using(crate::proofs::WriteLemmas::writes_are))]
pub fn write(work: &mut WorkState, writing: &Writing) -> Mem<Answer>
    requires names { page_of writing.now.change ≡ Some writing.now.page.0 }
    requires made { IsMadeOn work.old.pool writing.now.page.0 writing.now.change }
    requires there { IsSome (fin.get work.old.sessions writing.now.session) }
    requires least { 1 ≤ length writing.now.row.key }
    requires most { length writing.now.row.key ≤ 64 }
    ensures ok { (own : Own) → fin.get work.old.sessions writing.now.session ≡ Some own
        → IfOk result (λ a. answered work.new a ≡ writes writing.now.session own writing.now.row writing.now.change (uses work.old writing.now.path)) }
    ensures err { OnErr result (work.new ≡ work.old) }
{
    if !work.has_numbers(1) {
        use_path(work, &writing.path);
        return Ok(work.says(Reply::FullGroups));
    }
    if !work.has_stamps(1) {
        use_path(work, &writing.path);
        return Ok(work.says(Reply::StampsSpent));
    }
    let groups = log_written(
        work,
        writing.session,
        writing.page,
        &writing.change,
        &writing.row,
    )?;
    use_path(work, &writing.path);
    Ok(Answer {
        reply: Reply::Done,
        groups,
        messages: MessageList::new(work.alloc),
    })
}

/// The row of a key in a table.
pub fn row_key(work: &WorkState, table: u16, key: &Key) -> Mem<RowKey>
    ensures same { IfOk result (λ row. row ≡ record { table = table; key = key.now }) }
    ensures least { IfOk result (λ row. 1 ≤ length row.key) }
    ensures most { IfOk result (λ row. length row.key ≤ 64) }
{
    Ok(RowKey {
        table,
        key: ByteList::from_slice(work.alloc, key.as_slice())?,
    })
}
