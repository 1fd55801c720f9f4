//! Whether a row or a tag of another transaction stands in a command's way.
ghost use Rattle.std.specs.Prelude.{◌≡◌, ◌∷◌, [], Some, None, IfOk, OnOk, OnErr, IfSome, IfNone};
ghost use Rattle.tm_base.specs.declared.message.Note.TheVariants as note;
ghost use Rattle.tm_base.specs.declared.reply.Reply.TheVariants as reply;
ghost use Rattle.master_model.specs.State.{answers, says, to_locks};
ghost use Rattle.master_model.specs.Fates.{blocked, named, standing};
ghost use Rattle.master_model.specs.Paths.{uses};
ghost use Rattle.master_work.specs.Answers.{answered};
ghost use Rattle.master_rows.specs.Stands.{standing_of};

use crate::use_path;
use master_work::{Answer, WorkState};
use row_tree::Path;
use tm_base::{Mem, Note, Reply, Txn};

/// What a row or a tag of a transaction is to another one.
#[derive(Clone, Copy, Debug, PartialEq, Eq)]
pub enum Standing {
    /// It binds nobody: the transaction is known to have ended.
    Free,
    /// It locks: the transaction is known to be open.
    Locks,
    /// Its fate is to be asked for.
    Unknown,
}

/// What a row or a tag of a transaction is to another one. Of another writer's transaction it is known to be open from
/// when that was told to when an answer names it.
pub fn stands(work: &WorkState, txn: Txn) -> Standing
    ensures { standing_of result ≡ standing work.now txn }
{
    if work.is_ended(txn) {
        return Standing::Free;
    }
    if work.is_own(txn) || work.told_open.contains(txn) {
        return Standing::Locks;
    }
    Standing::Unknown
}

/// The answer to a command on a path, in these words, that an open transaction locks: the path is used, and it is to be
/// told again that the transaction is open. It takes no memory.
pub fn locked_by(work: &mut WorkState, path: &Path, txn: Txn, locked: Reply) -> Answer
    ensures { answered work.new result ≡ says (named (uses work.old path.now) txn) locked }
{
    use_path(work, path);
    work.told_open.remove(txn);
    work.says(locked)
}

/// The answer to a command on a path where the fate of a transaction is to be asked for: the path is used. With want of
/// memory nothing changes.
pub fn ask_fate(work: &mut WorkState, path: &Path, txn: Txn) -> Mem<Answer>
    ensures ok { IfOk result (λ a. answered work.new a ≡ answers (uses work.old path.now) (reply.AgainFate txn) (to_locks work.old (note.Ask txn work.old.number) ∷ [])) }
    ensures err { OnErr result (work.new ≡ work.old) }
{
    let master = work.number;
    let message = work.to_locks(Note::Ask { txn, master });
    let answer = work.answers(Reply::AgainFate { txn }, message)?;
    use_path(work, path);
    Ok(answer)
}

/// The answer to a command on a path that a transaction stands in the way of: that it locks, in these words, or that
/// its fate is asked for. The path is used then. Where nothing stands in the way, and with want of memory, nothing
/// changes.
pub fn blocked(work: &mut WorkState, path: &Path, txn: Txn, locked: Reply) -> Mem<Option<Answer>>
    ensures some { IfOk result (λ by. IfSome by (λ a. blocked (uses work.old path.now) txn locked ≡ Some (answered work.new a))) }
    ensures none { IfOk result (λ by. IfNone by (blocked (uses work.old path.now) txn locked ≡ None)) }
    ensures same { IfOk result (λ by. IfNone by (work.new ≡ work.old)) }
    ensures err { OnErr result (work.new ≡ work.old) }
{
    match stands(work, txn) {
        Standing::Free => Ok(None),
        Standing::Locks => {
            let answer = locked_by(work, path, txn, locked);
            Ok(Some(answer))
        }
        Standing::Unknown => {
            let answer = ask_fate(work, path, txn)?;
            Ok(Some(answer))
        }
    }
}
