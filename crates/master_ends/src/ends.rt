//! Ends of transactions.
ghost use Rattle.std.specs.Prelude.{◌≡◌, Some, true, IsSome, IfOk, OnErr};
ghost use Rattle.std.specs.FinMap as fin;
ghost use Rattle.master_model.specs.declared.session.Own.{Own};
ghost use Rattle.master_model.specs.Ends.{answers_end, awaited, ends, waits};
ghost use Rattle.master_model.specs.Logging.{has_numbers, has_stamps};
ghost use Rattle.master_work.specs.Answers.{answered};
ghost use Rattle.master_ends.specs.Ended.{logs_end, waiting, waits_in, with_logged};

use master_model::Progress;
use master_work::{Answer, WorkState};
use tm_base::{GroupList, Mem, MessageList, Record, Reply, TryCopy};

/// Logs the end of a session's transaction, committed or undone, and gives its group: the session waits for that. There
/// are a number and a stamp for it. With want of memory nothing changes.
pub fn log_end(work: &mut WorkState, session: u16, committed: bool) -> Mem<GroupList>
    requires number { has_numbers work.old 1 ≡ true }
    requires stamp { has_stamps work.old 1 ≡ true }
    requires there { IsSome (fin.get work.old.sessions session) }
    ensures ok { (own : Own) → fin.get work.old.sessions session ≡ Some own
        → IfOk result (λ groups. with_logged work.new groups ≡ waits_in session own committed (logs_end work.old own committed)) }
    ensures err { OnErr result (work.new ≡ work.old) }
{
    let mut groups = GroupList::new(work.alloc);
    let Some(own) = work.sessions.get(session) else {
        return Ok(groups);
    };
    let txn = work.txn_numbered(own.number);
    let group = work.next_group(Record::End { txn, committed })?;
    groups.push(group.copy()?)?;
    work.log_plain(group)?;
    let seq = work.timed.last_seq();
    work.sessions
        .set_progress(session, Progress::Ended { committed, seq });
    Ok(groups)
}

/// What is replied, where a group may be awaited: that its log store is, or that the command is over.
fn waits(over: Reply, awaited: Option<(u8, u32)>) -> Reply
    ensures { result ≡ waits over awaited }
{
    match awaited {
        Some((store, seq)) => Reply::AgainStore { store, seq },
        None => over,
    }
}

/// The answer to a command that has logged these groups, the last one with the end of its transaction: which log store
/// is awaited.
pub fn answers_logged(work: &WorkState, groups: GroupList) -> Answer
    ensures { answered work.now result ≡ waiting (with_logged work.now groups) }
{
    let seq = work.timed.last_seq();
    let awaited = work.waits_for(seq);
    Answer {
        reply: waits(Reply::Done, awaited),
        groups,
        messages: MessageList::new(work.alloc),
    }
}

/// Logs the end of a session's transaction, and answers which log store is awaited. There are a number and a stamp for
/// it. With want of memory nothing changes.
pub fn end(work: &mut WorkState, session: u16, committed: bool) -> Mem<Answer>
    requires number { has_numbers work.old 1 ≡ true }
    requires stamp { has_stamps work.old 1 ≡ true }
    requires there { IsSome (fin.get work.old.sessions session) }
    ensures ok { (own : Own) → fin.get work.old.sessions session ≡ Some own
        → IfOk result (λ a. answered work.new a ≡ ends session own committed (logs_end work.old own committed)) }
    ensures err { OnErr result (work.new ≡ work.old) }
{
    let groups = log_end(work, session, committed)?;
    Ok(answers_logged(work, groups))
}

/// The answer to a session whose transaction's end is the group of that number: once that is durable, the session is
/// free, and this is replied; before, which log store is awaited. It takes no memory.
pub fn answers_end(work: &mut WorkState, session: u16, over: Reply, seq: u32) -> Answer
    ensures { answered work.new result ≡ answers_end work.old session over (awaited work.old seq) }
{
    if let Some((store, seq)) = work.waits_for(seq) {
        return work.says(Reply::AgainStore { store, seq });
    }
    work.sessions.free(session);
    work.says(over)
}
