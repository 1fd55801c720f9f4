//! The command commit.
ghost use Rattle.std.specs.Prelude.{◌≡◌, Some, IsSome, IfOk, OnErr};
ghost use Rattle.std.specs.FinMap as fin;
ghost use Rattle.master_model.specs.declared.session.Own.{Own};
ghost use Rattle.master_model.specs.declared.session.Progress.TheVariants.{Active};
ghost use Rattle.master_model.specs.Ends.{commit, commits};
ghost use Rattle.master_model.specs.Reads.{txn_numbered};
ghost use Rattle.master_work.specs.Answers.{answered};

use crate::ends::{answers_end, end};
use master_model::Progress;
use master_work::{Answer, WorkState};
use tm_base::{Mem, Reply};

/// Commits the transaction of a session that reads and writes. With want of memory nothing changes.
fn commit_active(work: &mut WorkState, session: u16) -> Mem<Answer>
    requires { IsSome (fin.get work.old.sessions session) }
    ensures ok { (own : Own) → fin.get work.old.sessions session ≡ Some own
        → IfOk result (λ a. answered work.new a ≡ commits work.old session own (txn_numbered work.old own.number) Active) }
    ensures err { OnErr result (work.new ≡ work.old) }
{
    if !work.has_numbers(1) {
        return Ok(work.says(Reply::FullGroups));
    }
    if !work.has_stamps(1) {
        return Ok(work.says(Reply::StampsSpent));
    }
    let answer = end(work, session, true)?;
    Ok(answer)
}

/// Commits the transaction of a session: its end is logged, and once that is durable the transaction is committed and
/// the session free. Until then it is answered which log store is awaited. With want of memory nothing changes.
pub fn commit(work: &mut WorkState, session: u16) -> Mem<Answer>
    ensures ok { IfOk result (λ a. answered work.new a ≡ commit work.old session) }
    ensures err { OnErr result (work.new ≡ work.old) }
{
    let Some(own) = work.sessions.get(session) else {
        return Ok(work.says(Reply::NoTransaction));
    };
    let txn = work.txn_numbered(own.number);
    match &own.progress {
        Progress::Active => {
            let answer = commit_active(work, session)?;
            Ok(answer)
        }
        Progress::Undoing => Ok(work.says(Reply::Ending { txn })),
        Progress::Ended {
            committed: false,
            ..
        } => Ok(work.says(Reply::Ending { txn })),
        Progress::Ended { seq, .. } => {
            let seq = *seq;
            Ok(answers_end(work, session, Reply::Committed { txn }, seq))
        }
    }
}
