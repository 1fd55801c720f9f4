//! The commands that begin a transaction and read a row.
ghost use Rattle.std.specs.Prelude.{◌≡◌, ◌≤◌, length, IfOk, OnErr};
ghost use Rattle.tm_base.specs.declared.reply.Reply.TheVariants as reply;
ghost use Rattle.master_model.specs.Fates.{blocked, unless};
ghost use Rattle.master_model.specs.Paths.{on_path, uses};
ghost use Rattle.master_model.specs.Reads.{begin, get, get_at, reads};
ghost use Rattle.master_work.specs.Answers.{answered};

use crate::gates::{active, named};
use crate::paths::{row_at, use_path, walk, wants};
use crate::standings::{Standing, ask_fate, locked_by, stands};
use lock_table::TagError;
use master_work::{Answer, WorkState};
use row_tree::Path;
use tm_base::{Key, Mem, NoMemory, Page, Reply, TryCopy, Txn, Value};

/// Begins a transaction in a session: `Begun`, `AlreadyOpen` where the session has one, or `FullTransactions` where
/// their numbers are spent. With want of memory nothing changes.
pub fn begin(work: &mut WorkState, session: u16) -> Mem<Answer>
    ensures ok { IfOk result (λ a. answered work.new a ≡ begin work.old session) }
    ensures err { OnErr result (work.new ≡ work.old) }
{
    if let Some(own) = work.sessions.get(session) {
        let txn = work.txn_numbered(own.number);
        return Ok(work.says(Reply::AlreadyOpen { txn }));
    }
    if work.sessions.begun() >= u32::MAX - 1 {
        return Ok(work.says(Reply::FullTransactions));
    }
    let number = work.sessions.begin(session)?;
    let txn = work.txn_numbered(number);
    Ok(work.says(Reply::Begun { txn }))
}

/// A key that is read at its leaf.
#[derive(Drop)]
struct Reading {
    /// The transaction that reads it.
    own: Txn,
    key: Key,
    /// Its path, root first.
    path: Path,
    /// The leaf.
    page: Page,
}

/// A value is read under a shared lock, of which the leaf has at most 4,096. With want of memory nothing changes.
fn read(work: &mut WorkState, reading: &Reading, value: Option<Value>) -> Mem<Answer>
    ensures ok { IfOk result (λ a. answered work.new a ≡ reads (uses work.old reading.now.path) reading.now.page.0 reading.now.key reading.now.own value) }
    ensures err { OnErr result (work.new ≡ work.old) }
{
    match work.tags.add(reading.page, &reading.key, reading.own) {
        Ok(()) => {
            use_path(work, &reading.path);
            Ok(work.says(Reply::Value { value }))
        }
        Err(TagError::Full) => {
            use_path(work, &reading.path);
            Ok(work.says(Reply::FullTags))
        }
        Err(TagError::NoMemory) => Err(NoMemory),
    }
}

/// The value of a row of another transaction is read once that has ended. With want of memory nothing changes.
fn read_other(work: &mut WorkState, reading: Reading, txn: Txn, value: Option<Value>) -> Mem<Answer>
    ensures ok { IfOk result (λ a. answered work.new a ≡ unless (blocked (uses work.old reading.path) txn (reply.LockedRow txn reading.key)) (reads (uses work.old reading.path) reading.page.0 reading.key reading.own value)) }
    ensures err { OnErr result (work.new ≡ work.old) }
{
    match stands(work, txn) {
        Standing::Free => {
            let answer = read(work, &reading, value)?;
            Ok(answer)
        }
        Standing::Locks => {
            let Reading { key, path, .. } = reading;
            Ok(locked_by(work, &path, txn, Reply::LockedRow { txn, key }))
        }
        Standing::Unknown => {
            let answer = ask_fate(work, &reading.path, txn)?;
            Ok(answer)
        }
    }
}

/// Reads a key of a table for a transaction. With want of memory nothing changes.
fn get_for(work: &mut WorkState, own: Txn, table: u16, key: Key) -> Mem<Answer>
    ensures ok { IfOk result (λ a. answered work.new a ≡ on_path work.old table key (get_at key own)) }
    ensures err { OnErr result (work.new ≡ work.old) }
{
    let way = match walk(work, table, &key)? {
        Ok(way) => way,
        Err(page) => {
            let answer = wants(work, page)?;
            return Ok(answer);
        }
    };
    let page = way.leaf.page;
    let Some(row) = row_at(way.leaf, &key) else {
        let path = way.path;
        let answer = read(
            work,
            &Reading {
                own,
                key,
                path,
                page,
            },
            None,
        )?;
        return Ok(answer);
    };
    let txn = row.txn;
    let value = row.now.copy()?;
    let path = way.path;
    if txn == own {
        use_path(work, &path);
        return Ok(work.says(Reply::Value { value }));
    }
    let answer = read_other(
        work,
        Reading {
            own,
            key,
            path,
            page,
        },
        txn,
        value,
    )?;
    Ok(answer)
}

/// Reads a key of a table in a session's transaction. The key has at least one byte.
///
/// Where it is read the answer is `Value`, and the key has a shared lock of the transaction, unless that wrote the row.
/// Else it is the first of these that holds: `NoTransaction`, `Ending`, `NoTable` and `TooLongKey`; `AgainPage` with the
/// first page of the key's path that isn't here; `LockedRow` where another transaction that wrote the row is known to
/// be open, `AgainFate` where it isn't known whether it has ended; and `FullTags` where the leaf has no room for one
/// more shared lock. With want of memory nothing changes.
pub fn get(work: &mut WorkState, session: u16, table: u16, key: &[u8]) -> Mem<Answer>
    requires { 1 ≤ length key.now }
    ensures ok { IfOk result (λ a. answered work.new a ≡ get work.old session table key.now) }
    ensures err { OnErr result (work.new ≡ work.old) }
{
    let number = match active(work, session) {
        Ok(own) => own.number,
        Err(reply) => return Ok(work.says(reply)),
    };
    let own = work.txn_numbered(number);
    let key = match named(work.alloc, table, key)? {
        Ok(key) => key,
        Err(reply) => return Ok(work.says(reply)),
    };
    let answer = get_for(work, own, table, key)?;
    Ok(answer)
}
