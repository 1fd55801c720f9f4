//! What lets a command through, or answers it.
ghost use Rattle.std.specs.Prelude.{◌≡◌, ◌≤◌, length, Ok, Err, IfOk, IfErr};
ghost use Rattle.master_model.specs.Reads.{is_table};
ghost use Rattle.master_rows.specs.Gates.{active_by, active_in, named_key, open_in};

use master_model::{Own, Progress};
use master_work::WorkState;
use std::alloc::Global;
use tm_base::{Key, MAX_KEY, Mem, NoMemory, Reply};

/// The transaction of a session, or the reply to a command that wants one: `NoTransaction`.
pub fn in_session(work: &WorkState, session: u16) -> Result<&Own, Reply>
    ensures ok { IfOk result (λ own. open_in work.now session ≡ Ok own.now) }
    ensures err { IfErr result (λ reply. open_in work.now session ≡ Err reply) }
{
    let Some(own) = work.sessions.get(session) else {
        return Err(Reply::NoTransaction);
    };
    Ok(own)
}

/// The transaction of a session that reads and writes, or the reply to a command that wants one: `NoTransaction`, or
/// `Ending` where it has begun to end.
pub fn active(work: &WorkState, session: u16) -> Result<&Own, Reply>
    ensures ok { IfOk result (λ own. active_in work.now session ≡ Ok own.now) }
    ensures err { IfErr result (λ reply. active_in work.now session ≡ Err reply) }
{
    let own = in_session(work, session)?;
    if !matches!(own.progress, Progress::Active) {
        let txn = work.txn_numbered(own.number);
        return Err(Reply::Ending { txn });
    }
    Ok(own)
}

/// Whether there is such a table: they are numbered 1 to 1,024.
fn is_table(table: u16) -> bool
    ensures { result ≡ is_table table }
{
    1 <= table && table <= 1024
}

/// The key of these bytes in a table, or the reply to a command that names them: `NoTable`, or `TooLongKey` where there
/// are more than 64. There is at least one byte.
pub fn named(alloc: Global, table: u16, key: &[u8]) -> Mem<Result<Key, Reply>>
    requires { 1 ≤ length key.now }
    ensures { IfOk result (λ named. named ≡ named_key table key.now) }
{
    if !is_table(table) {
        return Ok(Err(Reply::NoTable { table }));
    }
    let length = key.len();
    if length > MAX_KEY {
        return Ok(Err(Reply::TooLongKey { length }));
    }
    let Ok(key) = Key::new(alloc, key) else {
        return Err(NoMemory);
    };
    Ok(Ok(key))
}
