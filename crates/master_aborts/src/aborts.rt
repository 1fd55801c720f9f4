//! The command abort.
ghost use Rattle.std.specs.Prelude.{◌≡◌, ◌+◌, ◌∷◌, [], List, length, None, Some, true, false, IsSome, IfOk, OnErr};
ghost use Rattle.tm_data.specs.declared.row_map.RowKey.{RowKey};
ghost use Rattle.std.specs.FinMap as fin;
ghost use Rattle.page_model.specs.Effects.{page_of};
ghost use Rattle.master_model.specs.declared.session.Own.{Own};
ghost use Rattle.master_model.specs.Paths.{uses};
ghost use Rattle.master_model.specs.Logging.{has_numbers, has_stamps, logs};
ghost use Rattle.master_model.specs.Reads.{txn_numbered};
ghost use Rattle.master_model.specs.Ends.{abort, aborts_rows, aborts_with, end_of};
ghost use Rattle.master_ends.specs.Ended.{waits_in, with_logged};
ghost use Rattle.master_work.specs.Answers.{answered};
ghost use Rattle.master_work.specs.Changes.{IsMadeOn};
ghost use Rattle.master_aborts.specs.Undone.{IsMadeAt, count_of};
ghost use Rattle.master_aborts.specs.Aborted.{and_end, ends_rows, leaves_rows};

use crate::undo::{count_of, log_undone, undoing};
use master_ends::{answers_end, answers_logged, end, log_end};
use master_model::Progress;
use master_rows::{use_path, walk, wants};
use master_work::{Answer, WorkState, WrittenRow};
use row_tree::Path;
use tm_base::{GroupList, Mem, MessageList, Page, Record, Reply, TryCopy, Txn};

/// The leaf of a row that is undone.
#[derive(Drop)]
struct Place {
    /// Its path, root first.
    path: Path,
    page: Page,
    /// The record that undoes the row, if it wants one.
    change: Option<Record>,
}

/// Undoes a row of a session's transaction that isn't the last one. With want of memory nothing changes.
#[tactic(auto, using(crate::proofs::UsedLemmas::logs_used))]
fn abort_one(work: &mut WorkState, session: u16, place: &Place, first: &WrittenRow) -> Mem<Answer>
    requires made { IsMadeAt work.old.pool place.now.page.0 place.now.change }
    requires there { IsSome (fin.get work.old.sessions session) }
    ensures ok { (own : Own) → fin.get work.old.sessions session ≡ Some own
        → IfOk result (λ a. answered work.new a ≡ leaves_rows session own first.now.row first.now.left place.now.change (uses work.old place.now.path)) }
    ensures err { OnErr result (work.new ≡ work.old) }
{
    let count = count_of(&place.change);
    if !work.has_numbers(count) {
        use_path(work, &place.path);
        return Ok(work.says(Reply::FullGroups));
    }
    if !work.has_stamps(count) {
        use_path(work, &place.path);
        return Ok(work.says(Reply::StampsSpent));
    }
    let groups = log_undone(work, place.page, &place.change)?;
    use_path(work, &place.path);
    work.sessions.undone(session, &first.row);
    Ok(Answer {
        reply: Reply::AgainRows { left: first.left },
        groups,
        messages: MessageList::new(work.alloc),
    })
}

/// Logs a record that was made on the image of its page as the pool has it, and a record behind it that changes no page,
/// and gives their groups. There are numbers and stamps for both. With want of memory nothing changes.
#[tactic(auto, using(crate::proofs::AbortLemmas::logs_both))]
fn log_pair(work: &mut WorkState, page: Page, change: &Record, end: Record) -> Mem<GroupList>
    requires number { has_numbers work.old 2 ≡ true }
    requires stamp { has_stamps work.old 2 ≡ true }
    requires names { page_of change.now ≡ Some page.0 }
    requires made { IsMadeOn work.old.pool page.0 change.now }
    requires plain { page_of end ≡ None }
    ensures ok { IfOk result (λ groups. with_logged work.new groups ≡ logs work.old ((change.now ∷ []) ∷ (end ∷ []) ∷ [])) }
    ensures err { OnErr result (work.new ≡ work.old) }
{
    let mut groups = GroupList::new(work.alloc);
    let group = work.next_group(change.copy()?)?;
    let after = work.group_after(end)?;
    groups.push(group.copy()?)?;
    groups.push(after.copy()?)?;
    work.log_change_and(page, change, group, after)?;
    Ok(groups)
}

/// Logs the record that undoes the last row of a session's transaction, and the transaction's end behind it. There are
/// numbers and stamps for both. With want of memory nothing changes.
fn log_both(work: &mut WorkState, session: u16, page: Page, change: &Record) -> Mem<GroupList>
    requires number { has_numbers work.old 2 ≡ true }
    requires stamp { has_stamps work.old 2 ≡ true }
    requires names { page_of change.now ≡ Some page.0 }
    requires made { IsMadeOn work.old.pool page.0 change.now }
    requires there { IsSome (fin.get work.old.sessions session) }
    ensures ok { (own : Own) → fin.get work.old.sessions session ≡ Some own
        → IfOk result (λ groups. with_logged work.new groups ≡ waits_in session own false (logs work.old ((change.now ∷ []) ∷ end_of (txn_numbered work.old own.number) false ∷ []))) }
    ensures err { OnErr result (work.new ≡ work.old) }
{
    let Some(own) = work.sessions.get(session) else {
        return Ok(GroupList::new(work.alloc));
    };
    let txn = work.txn_numbered(own.number);
    let committed = false;
    let groups = log_pair(work, page, change, Record::End { txn, committed })?;
    let seq = work.timed.last_seq();
    work.sessions
        .set_progress(session, Progress::Ended { committed, seq });
    Ok(groups)
}

/// Logs the undoing of the last row, if that wants a record, and the end. There are numbers and stamps for them. With
/// want of memory nothing changes.
fn log_last(
    work: &mut WorkState,
    session: u16,
    page: Page,
    change: &Option<Record>,
) -> Mem<GroupList>
    requires number { has_numbers work.old (count_of change.now + 1) ≡ true }
    requires stamp { has_stamps work.old (count_of change.now + 1) ≡ true }
    requires made { IsMadeAt work.old.pool page.0 change.now }
    requires there { IsSome (fin.get work.old.sessions session) }
    ensures ok { (own : Own) → fin.get work.old.sessions session ≡ Some own
        → IfOk result (λ groups. with_logged work.new groups ≡ waits_in session own false (logs work.old (and_end change.now (txn_numbered work.old own.number)))) }
    ensures err { OnErr result (work.new ≡ work.old) }
{
    match change {
        None => log_end(work, session, false),
        Some(change) => log_both(work, session, page, change),
    }
}

/// Undoes the last row of a session's transaction, and logs its end. With want of memory nothing changes.
#[tactic(auto, using(crate::proofs::UsedLemmas::logs_used))]
fn abort_last(work: &mut WorkState, session: u16, place: &Place) -> Mem<Answer>
    requires made { IsMadeAt work.old.pool place.now.page.0 place.now.change }
    requires there { IsSome (fin.get work.old.sessions session) }
    ensures ok { (own : Own) → fin.get work.old.sessions session ≡ Some own
        → IfOk result (λ a. answered work.new a ≡ ends_rows session own (txn_numbered work.old own.number) place.now.change (uses work.old place.now.path)) }
    ensures err { OnErr result (work.new ≡ work.old) }
{
    let count = count_of(&place.change) + 1;
    if !work.has_numbers(count) {
        use_path(work, &place.path);
        return Ok(work.says(Reply::FullGroups));
    }
    if !work.has_stamps(count) {
        use_path(work, &place.path);
        return Ok(work.says(Reply::StampsSpent));
    }
    let groups = log_last(work, session, place.page, &place.change)?;
    use_path(work, &place.path);
    Ok(answers_logged(work, groups))
}

/// Ends a session's transaction that has no row to undo. With want of memory nothing changes.
fn abort_none(work: &mut WorkState, session: u16) -> Mem<Answer>
    requires { IsSome (fin.get work.old.sessions session) }
    ensures ok { (own : Own) → fin.get work.old.sessions session ≡ Some own
        → IfOk result (λ a. answered work.new a ≡ aborts_with work.old session own (txn_numbered work.old own.number) own.written [] []) }
    ensures err { OnErr result (work.new ≡ work.old) }
{
    if !work.has_numbers(1) {
        return Ok(work.says(Reply::FullGroups));
    }
    if !work.has_stamps(1) {
        return Ok(work.says(Reply::StampsSpent));
    }
    let answer = end(work, session, false)?;
    Ok(answer)
}

/// Undoes the first row that a session's transaction has written and not undone. With want of memory nothing changes.
fn abort_first(work: &mut WorkState, session: u16, txn: Txn, first: &WrittenRow) -> Mem<Answer>
    requires there { IsSome (fin.get work.old.sessions session) }
    ensures ok { (own : Own) (rest : List RowKey) → fin.get work.old.sessions session ≡ Some own → txn ≡ txn_numbered work.old own.number → first.now.key ≡ first.now.row.key → first.now.left ≡ length rest
        → IfOk result (λ a. answered work.new a ≡ aborts_rows work.old session own txn (first.now.row ∷ rest)) }
    ensures err { OnErr result (work.new ≡ work.old) }
{
    let table = first.row.table;
    let way = match walk(work, table, &first.key)? {
        Ok(way) => way,
        Err(page) => {
            let answer = wants(work, page)?;
            return Ok(answer);
        }
    };
    let page = way.leaf.page;
    let change = undoing(way.leaf, table, &first.key, txn)?;
    let path = way.path;
    let place = Place { path, page, change };
    if first.left == 0 {
        let answer = abort_last(work, session, &place)?;
        return Ok(answer);
    }
    let answer = abort_one(work, session, &place, first)?;
    Ok(answer)
}

/// Undoes a row of a session's transaction, or ends it where it has none. With want of memory nothing changes.
fn abort_rows(work: &mut WorkState, session: u16, txn: Txn) -> Mem<Answer>
    requires { IsSome (fin.get work.old.sessions session) }
    ensures ok { (own : Own) → fin.get work.old.sessions session ≡ Some own → txn ≡ txn_numbered work.old own.number
        → IfOk result (λ a. answered work.new a ≡ aborts_rows work.old session own txn (fin.keys own.written)) }
    ensures err { OnErr result (work.new ≡ work.old) }
{
    match work.sessions.first_written(session)? {
        None => {
            let answer = abort_none(work, session)?;
            Ok(answer)
        }
        Some(first) => {
            let answer = abort_first(work, session, txn, &first)?;
            Ok(answer)
        }
    }
}

/// Aborts the transaction of a session: one row that it has written is undone, the first one by table and key, and with
/// the last row its end is logged; once that is durable the transaction is undone and the session free.
///
/// While rows are left the answer is `AgainRows` with their number; once the end is logged, `AgainStore` with the log
/// store that is awaited; and `Aborted` once that is durable. Else it is the first of these that holds: `NoTransaction`;
/// `Ending` where it was committed; `AgainPage` with the first page of the key's path that isn't here; `FullGroups` and
/// `StampsSpent`, where what the row wants to log and, with the last row, the end count together. With want of memory
/// nothing changes.
pub fn abort(work: &mut WorkState, session: u16) -> Mem<Answer>
    ensures ok { IfOk result (λ a. answered work.new a ≡ abort work.old session) }
    ensures err { OnErr result (work.new ≡ work.old) }
{
    let Some(own) = work.sessions.get(session) else {
        return Ok(work.says(Reply::NoTransaction));
    };
    let txn = work.txn_numbered(own.number);
    match &own.progress {
        Progress::Active => {
            let answer = abort_rows(work, session, txn)?;
            Ok(answer)
        }
        Progress::Undoing => {
            let answer = abort_rows(work, session, txn)?;
            Ok(answer)
        }
        Progress::Ended {
            committed: true,
            ..
        } => Ok(work.says(Reply::Ending { txn })),
        Progress::Ended { seq, .. } => {
            let seq = *seq;
            Ok(answers_end(work, session, Reply::Aborted { txn }, seq))
        }
    }
}
