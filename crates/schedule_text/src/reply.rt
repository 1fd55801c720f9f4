//! The text of replies.
ghost use Rattle.std.specs.Prelude.{◌≡◌, ◌++◌, codes, IfOk, string_bytes};
ghost use Rattle.text_fields.specs.Fields.{hex_text};
ghost use Rattle.schedule_text.specs.Outcomes.{txn_text, value_text, wait_text, reply_text};

use std::alloc::{AllocError, Global};
use text_fields::print_hex;
use tm_base::{Key, RecoveryWait, Reply, Txn, Value};

/// The text of a reply.
pub(crate) fn print_reply(alloc: Global, reply: &Reply) -> Result<String, AllocError>
    ensures { IfOk result (λ text. string_bytes text ≡ reply_text reply.now) }
{
    match reply {
        Reply::Fenced => format!(in alloc; "Fenced"),
        Reply::NotJoined => format!(in alloc; "NotJoined"),
        Reply::NoTransaction => format!(in alloc; "NoTransaction"),
        Reply::AlreadyOpen { txn } => print_txn(alloc, "AlreadyOpen ", txn),
        Reply::Ending { txn } => print_txn(alloc, "Ending ", txn),
        Reply::NoTable { table } => format!(in alloc; "NoTable {table}"),
        Reply::TooLongKey { length } => format!(in alloc; "TooLong key {length}"),
        Reply::TooLongValue { length } => format!(in alloc; "TooLong value {length}"),
        Reply::AgainPage { page } => format!(in alloc; "Again page {}", page.0),
        Reply::AgainFate { txn } => print_txn(alloc, "Again fate ", txn),
        Reply::LockedRow { txn, key } => print_lock(alloc, txn, key, " row"),
        Reply::LockedSplit { txn, key } => print_lock(alloc, txn, key, " split"),
        Reply::AgainFresh { wanting } => format!(in alloc; "Again fresh {wanting}"),
        Reply::PagesSpent => format!(in alloc; "PagesSpent"),
        Reply::AgainRows { left } => format!(in alloc; "Again rows {left}"),
        Reply::AgainStore { store, seq } => format!(in alloc; "Again store {store} {seq}"),
        Reply::NoWriter { writer } => format!(in alloc; "NoWriter {}", writer.0),
        Reply::OtherRecovery { writer } => format!(in alloc; "OtherRecovery {}", writer.0),
        Reply::FullTags => format!(in alloc; "Full tags 4096"),
        Reply::FullHeight => format!(in alloc; "Full height 6"),
        Reply::FullGroups => format!(in alloc; "Full groups"),
        Reply::FullTransactions => format!(in alloc; "Full transactions"),
        Reply::StampsSpent => format!(in alloc; "StampsSpent"),
        Reply::Begun { txn } => print_txn(alloc, "Begun ", txn),
        Reply::Value { value } => print_value(alloc, value),
        Reply::Done => format!(in alloc; "Done"),
        Reply::Committed { txn } => print_txn(alloc, "Committed ", txn),
        Reply::Aborted { txn } => print_txn(alloc, "Aborted ", txn),
        Reply::Recovered { writer } => format!(in alloc; "Recovered {}", writer.0),
        Reply::Recovering { wait } => print_wait(alloc, *wait),
    }
}

fn print_txn(alloc: Global, front: &str, txn: &Txn) -> Result<String, AllocError>
    ensures { IfOk result (λ text. string_bytes text ≡ front.now ++ txn_text txn.now) }
{
    format!(in alloc; "{front}{}.{}", txn.writer.0, txn.number)
}

fn print_lock(alloc: Global, txn: &Txn, key: &Key, end: &str) -> Result<String, AllocError>
    ensures { IfOk result (λ text. string_bytes text ≡ codes "Locked " ++ (txn_text txn.now ++ (codes " " ++ (hex_text key.now ++ end.now)))) }
{
    let key = print_hex(alloc, key.as_slice())?;
    format!(in alloc; "Locked {}.{} {key}{end}", txn.writer.0, txn.number)
}

/// `Value` and the value, or that there is none.
pub(crate) fn print_value(alloc: Global, value: &Option<Value>) -> Result<String, AllocError>
    ensures { IfOk result (λ text. string_bytes text ≡ codes "Value " ++ value_text value.now) }
{
    match value {
        Some(value) => {
            let value = print_hex(alloc, value.as_slice())?;
            format!(in alloc; "Value {value}")
        }
        None => format!(in alloc; "Value none"),
    }
}

fn print_wait(alloc: Global, wait: RecoveryWait) -> Result<String, AllocError>
    ensures { IfOk result (λ text. string_bytes text ≡ codes "Recovering " ++ wait_text wait) }
{
    match wait {
        RecoveryWait::Seal => format!(in alloc; "Recovering seal"),
        RecoveryWait::Close => format!(in alloc; "Recovering close"),
        RecoveryWait::Scan => format!(in alloc; "Recovering scan"),
        RecoveryWait::Take => format!(in alloc; "Recovering take"),
        RecoveryWait::Told => format!(in alloc; "Recovering told"),
    }
}
