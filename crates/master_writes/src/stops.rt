//! What stands in the way of a put: rows and tags of other transactions.
ghost use Rattle.std.specs.Prelude.{◌≡◌, Some, None, List, filter, drop, IfOk, OnErr, IfSome, IfNone};
ghost use Rattle.tm_base.specs.declared.message.Tag.{Tag};
ghost use Rattle.tm_base.specs.declared.reply.Reply.TheVariants as reply;
ghost use Rattle.lock_table.specs.Tags.{others_on};
ghost use Rattle.master_model.specs.Fates.{blocked_by_tags};
ghost use Rattle.master_model.specs.Paths.{uses};
ghost use Rattle.master_model.specs.Writes.{blocked_by_readers};
ghost use Rattle.master_work.specs.Answers.{answered};
ghost use Rattle.master_writes.specs.Stops.{blocked_by_txn, is_reader};

use master_rows::blocked;
use master_work::{Answer, WorkState};
use row_tree::Path;
use tm_base::{Key, Mem, Page, Reply, Tag, TryCopy, Txn};

/// The answer to a put of a key in whose way the row's transaction stands. The path is used then. Where nothing stands
/// in the way, and with want of memory, nothing changes.
pub fn stopped_by_row(
    work: &mut WorkState,
    path: &Path,
    key: &Key,
    own: Txn,
    wrote: Option<Txn>,
) -> Mem<Option<Answer>>
    ensures some { IfOk result (λ by. IfSome by (λ a. blocked_by_txn (uses work.old path.now) key.now own wrote ≡ Some (answered work.new a))) }
    ensures none { IfOk result (λ by. IfNone by (blocked_by_txn (uses work.old path.now) key.now own wrote ≡ None)) }
    ensures same { IfOk result (λ by. IfNone by (work.new ≡ work.old)) }
    ensures err { OnErr result (work.new ≡ work.old) }
{
    let Some(txn) = wrote else {
        return Ok(None);
    };
    if txn == own {
        return Ok(None);
    }
    let locked = Reply::LockedRow {
        txn,
        key: key.copy()?,
    };
    blocked(work, path, txn, locked)
}

/// Whether a tag of a leaf is another transaction's on the key.
fn is_reader(key: &Key, own: Txn, tag: &Tag) -> bool
    ensures { result ≡ is_reader key.now own tag.now }
{
    tag.key == *key && tag.txn != own
}

/// The answer to a put of a key in whose way one of these tags stands, the first that does. The path is used then. Where
/// nothing stands in the way, and with want of memory, nothing changes.
#[tactic(auto, using(crate::proofs::StopLemmas::skips, crate::proofs::StopLemmas::stops_at, crate::proofs::StopLemmas::passes))]
fn stopped_by_tags(
    work: &mut WorkState,
    path: &Path,
    key: &Key,
    own: Txn,
    tags: &[Tag],
) -> Mem<Option<Answer>>
    ensures some { IfOk result (λ by. IfSome by (λ a. blocked_by_tags (uses work.old path.now) (λ t. reply.LockedRow t.txn key.now) (filter (is_reader key.now own) tags.now) ≡ Some (answered work.new a))) }
    ensures none { IfOk result (λ by. IfNone by (blocked_by_tags (uses work.old path.now) (λ t. reply.LockedRow t.txn key.now) (filter (is_reader key.now own) tags.now) ≡ None)) }
    ensures same { IfOk result (λ by. IfNone by (work.new ≡ work.old)) }
    ensures err { OnErr result (work.new ≡ work.old) }
{
    let Some((first, rest)) = tags.split_first() else {
        return Ok(None);
    };
    if !is_reader(key, own, first) {
        return stopped_by_tags(work, path, key, own, rest);
    }
    let txn = first.txn;
    let locked = Reply::LockedRow {
        txn,
        key: key.copy()?,
    };
    match blocked(work, path, txn, locked)? {
        Some(answer) => Ok(Some(answer)),
        None => stopped_by_tags(work, path, key, own, rest),
    }
}

/// The answer to a put of a key that another transaction has read: all tags of the leaf are gone through.
fn stopped_by_any(
    work: &mut WorkState,
    path: &Path,
    page: Page,
    key: &Key,
    own: Txn,
) -> Mem<Option<Answer>>
    ensures some { IfOk result (λ by. IfSome by (λ a. blocked_by_readers (uses work.old path.now) page.0 key.now own ≡ Some (answered work.new a))) }
    ensures none { IfOk result (λ by. IfNone by (blocked_by_readers (uses work.old path.now) page.0 key.now own ≡ None)) }
    ensures same { IfOk result (λ by. IfNone by (work.new ≡ work.old)) }
    ensures err { OnErr result (work.new ≡ work.old) }
{
    let tags = work.tags.copy_page(page)?;
    stopped_by_tags(work, path, key, own, tags.as_slice())
}

/// The answer to a put of a key that another transaction has read, unless that is known to have ended. The path is used
/// then. Where nothing stands in the way, and with want of memory, nothing changes. All tags of the leaf are gone
/// through only where the first one on the key is of a transaction that has ended.
#[tactic(auto, using(crate::proofs::StopLemmas::none_stops, crate::proofs::StopLemmas::first_stops))]
pub fn stopped_by_readers(
    work: &mut WorkState,
    path: &Path,
    page: Page,
    key: &Key,
    own: Txn,
) -> Mem<Option<Answer>>
    ensures some { IfOk result (λ by. IfSome by (λ a. blocked_by_readers (uses work.old path.now) page.0 key.now own ≡ Some (answered work.new a))) }
    ensures none { IfOk result (λ by. IfNone by (blocked_by_readers (uses work.old path.now) page.0 key.now own ≡ None)) }
    ensures same { IfOk result (λ by. IfNone by (work.new ≡ work.old)) }
    ensures err { OnErr result (work.new ≡ work.old) }
{
    let Some(txn) = work.tags.conflict(page, key, own) else {
        return Ok(None);
    };
    let locked = Reply::LockedRow {
        txn,
        key: key.copy()?,
    };
    if let Some(answer) = blocked(work, path, txn, locked)? {
        return Ok(Some(answer));
    }
    stopped_by_any(work, path, page, key, own)
}
