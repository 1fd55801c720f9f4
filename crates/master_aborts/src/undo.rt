//! One row is undone.
ghost use Rattle.std.specs.Prelude.{◌≡◌, ◌∷◌, [], Some, true, IfOk, OnErr};
ghost use Rattle.master_model.specs.Paths.{uses};
ghost use Rattle.master_model.specs.Ends.{undo_next};
ghost use Rattle.master_model.specs.Logging.{has_numbers, has_stamps, logs};
ghost use Rattle.master_ends.specs.Ended.{with_logged};
ghost use Rattle.page_model.specs.Effects.{page_of};
ghost use Rattle.master_work.specs.Answers.{answered};
ghost use Rattle.master_work.specs.Changes.{IsMadeOn};
ghost use Rattle.master_aborts.specs.Undone.{IsMadeAt, as_groups, count_of, undoes_one, undoing};

use master_rows::{row_at, use_path, walk, wants};
use master_work::{Answer, WorkState};
use row_tree::Path;
use tm_base::{
    Before, GroupList, Image, Key, Mem, MessageList, Page, Record, Reply, Row, TryCopy, Txn,
};

/// The record that undoes the row of a key: where the row is the transaction's, and isn't undone already, its value is
/// again what it was before the transaction's first write. The transaction stays in the row.
pub(crate) fn undoing(leaf: &Image, table: u16, key: &Key, txn: Txn) -> Mem<Option<Record>>
    ensures { IfOk result (λ change. change ≡ undoing leaf.now table key.now txn) }
{
    let Some(row) = row_at(leaf, key) else {
        return Ok(None);
    };
    if row.txn != txn {
        return Ok(None);
    }
    let Before::Was(value) = &row.before else {
        return Ok(None);
    };
    let row = Row {
        key: row.key.copy()?,
        txn: row.txn,
        now: value.copy()?,
        before: Before::Same,
    };
    Ok(Some(Record::RowSet {
        page: leaf.page,
        prev: leaf.stamp,
        table,
        row,
    }))
}

/// How many groups it wants.
pub(crate) fn count_of(change: &Option<Record>) -> u32
    ensures { result ≡ count_of change.now }
{
    match change {
        None => 0,
        Some(_) => 1,
    }
}

/// Logs a record that was made on the image of its page as the pool has it, and gives its group. There are a number and
/// a stamp for it. With want of memory nothing changes.
pub fn log_one(work: &mut WorkState, page: Page, change: &Record) -> Mem<GroupList>
    requires number { has_numbers work.old 1 ≡ true }
    requires stamp { has_stamps work.old 1 ≡ true }
    requires names { page_of change.now ≡ Some page.0 }
    requires made { IsMadeOn work.old.pool page.0 change.now }
    ensures ok { IfOk result (λ groups. with_logged work.new groups ≡ logs work.old ((change.now ∷ []) ∷ [])) }
    ensures err { OnErr result (work.new ≡ work.old) }
{
    let mut groups = GroupList::new(work.alloc);
    let group = work.next_group(change.copy()?)?;
    groups.push(group.copy()?)?;
    work.log_change(page, change, group)?;
    Ok(groups)
}

/// Logs a record, if there is one. There are a number and a stamp for it. With want of memory nothing changes.
pub(crate) fn log_undone(
    work: &mut WorkState,
    page: Page,
    change: &Option<Record>,
) -> Mem<GroupList>
    requires number { has_numbers work.old (count_of change.now) ≡ true }
    requires stamp { has_stamps work.old (count_of change.now) ≡ true }
    requires made { IsMadeAt work.old.pool page.0 change.now }
    ensures ok { IfOk result (λ groups. with_logged work.new groups ≡ logs work.old (as_groups change.now)) }
    ensures err { OnErr result (work.new ≡ work.old) }
{
    match change {
        None => Ok(GroupList::new(work.alloc)),
        Some(change) => log_one(work, page, change),
    }
}

/// Undoes a row at the leaf of its path. With want of memory nothing changes.
#[tactic(auto, using(crate::proofs::UsedLemmas::logs_used))]
fn undo_along(work: &mut WorkState, path: &Path, page: Page, change: &Option<Record>) -> Mem<Answer>
    requires made { IsMadeAt work.old.pool page.0 change.now }
    ensures ok { IfOk result (λ a. answered work.new a ≡ undoes_one change.now (uses work.old path.now)) }
    ensures err { OnErr result (work.new ≡ work.old) }
{
    let count = count_of(change);
    if !work.has_numbers(count) {
        use_path(work, path);
        return Ok(work.says(Reply::FullGroups));
    }
    if !work.has_stamps(count) {
        use_path(work, path);
        return Ok(work.says(Reply::StampsSpent));
    }
    let groups = log_undone(work, page, change)?;
    use_path(work, path);
    Ok(Answer {
        reply: Reply::Done,
        groups,
        messages: MessageList::new(work.alloc),
    })
}

/// Undoes one row of a transaction whose writer is closed: `Done`, also where the row isn't the transaction's or is
/// undone already; or the first of these that holds: `AgainPage` with the first page of the key's path that isn't here,
/// `FullGroups`, and `StampsSpent`. With want of memory nothing changes.
pub fn undo_next(work: &mut WorkState, table: u16, key: &Key, txn: Txn) -> Mem<Answer>
    ensures ok { IfOk result (λ a. answered work.new a ≡ undo_next work.old table key.now txn) }
    ensures err { OnErr result (work.new ≡ work.old) }
{
    let way = match walk(work, table, key)? {
        Ok(way) => way,
        Err(page) => {
            let answer = wants(work, page)?;
            return Ok(answer);
        }
    };
    let page = way.leaf.page;
    let change = undoing(way.leaf, table, key, txn)?;
    let path = way.path;
    let answer = undo_along(work, &path, page, &change)?;
    Ok(answer)
}
