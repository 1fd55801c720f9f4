//! The text of replies, of messages and of what a step writes.
ghost use Rattle.std.specs.Prelude.{◌≡◌, ◌+◌, ◌≤◌, ◌++◌, ◌∷◌, length, drop, codes, IfOk, OnOk, string_bytes};
ghost use Rattle.text_fields.specs.Fields.{hex_text};
ghost use Rattle.taurus.specs.Text.{txn_text, value_text, wait_text, reply_text, outcome_text, group_text, message_text, messages_text};

use net_world::{PlainGroup, PlainMessage, PlainOutcome};
use std::alloc::{AllocError, Global};
use text_fields::print_hex;
use tm_base::{Key, RecoveryWait, Reply, Txn, Value};

/// The text of a reply.
pub fn print_reply(alloc: Global, reply: &Reply) -> Result<String, AllocError>
    ensures { IfOk result (λ text. string_bytes text ≡ reply_text reply.now) }
{
    match reply {
        Reply::Fenced => format!(in alloc; "Fenced"),
        Reply::NotJoined => format!(in alloc; "NotJoined"),
        Reply::NoTransaction => format!(in alloc; "NoTransaction"),
        Reply::AlreadyOpen { txn } => print_txn(alloc, "AlreadyOpen ", txn),
        Reply::Ending { txn } => print_txn(alloc, "Ending ", txn),
        Reply::NoTable { table } => format!(in alloc; "NoTable {table}"),
        Reply::TooLongKey { length } => format!(in alloc; "TooLong key {length}"),
        Reply::TooLongValue { length } => format!(in alloc; "TooLong value {length}"),
        Reply::AgainPage { page } => format!(in alloc; "Again page {}", page.0),
        Reply::AgainFate { txn } => print_txn(alloc, "Again fate ", txn),
        Reply::LockedRow { txn, key } => print_lock(alloc, txn, key, " row"),
        Reply::LockedSplit { txn, key } => print_lock(alloc, txn, key, " split"),
        Reply::AgainFresh { wanting } => format!(in alloc; "Again fresh {wanting}"),
        Reply::PagesSpent => format!(in alloc; "PagesSpent"),
        Reply::AgainRows { left } => format!(in alloc; "Again rows {left}"),
        Reply::AgainStore { store, seq } => format!(in alloc; "Again store {store} {seq}"),
        Reply::NoWriter { writer } => format!(in alloc; "NoWriter {}", writer.0),
        Reply::OtherRecovery { writer } => format!(in alloc; "OtherRecovery {}", writer.0),
        Reply::FullTags => format!(in alloc; "Full tags 4096"),
        Reply::FullHeight => format!(in alloc; "Full height 6"),
        Reply::FullGroups => format!(in alloc; "Full groups"),
        Reply::FullTransactions => format!(in alloc; "Full transactions"),
        Reply::StampsSpent => format!(in alloc; "StampsSpent"),
        Reply::Begun { txn } => print_txn(alloc, "Begun ", txn),
        Reply::Value { value } => print_value(alloc, value),
        Reply::Done => format!(in alloc; "Done"),
        Reply::Committed { txn } => print_txn(alloc, "Committed ", txn),
        Reply::Aborted { txn } => print_txn(alloc, "Aborted ", txn),
        Reply::Recovered { writer } => format!(in alloc; "Recovered {}", writer.0),
        Reply::Recovering { wait } => print_wait(alloc, *wait),
    }
}

fn print_txn(alloc: Global, front: &str, txn: &Txn) -> Result<String, AllocError>
    ensures { IfOk result (λ text. string_bytes text ≡ front.now ++ txn_text txn.now) }
{
    format!(in alloc; "{front}{}.{}", txn.writer.0, txn.number)
}

fn print_lock(alloc: Global, txn: &Txn, key: &Key, end: &str) -> Result<String, AllocError>
    ensures { IfOk result (λ text. string_bytes text ≡ codes "Locked " ++ (txn_text txn.now ++ (codes " " ++ (hex_text key.now ++ end.now)))) }
{
    let key = print_hex(alloc, key.as_slice())?;
    format!(in alloc; "Locked {}.{} {key}{end}", txn.writer.0, txn.number)
}

fn print_value(alloc: Global, value: &Option<Value>) -> Result<String, AllocError>
    ensures { IfOk result (λ text. string_bytes text ≡ codes "Value " ++ value_text value.now) }
{
    match value {
        Some(value) => {
            let value = print_hex(alloc, value.as_slice())?;
            format!(in alloc; "Value {value}")
        }
        None => format!(in alloc; "Value none"),
    }
}

fn print_wait(alloc: Global, wait: RecoveryWait) -> Result<String, AllocError>
    ensures { IfOk result (λ text. string_bytes text ≡ codes "Recovering " ++ wait_text wait) }
{
    match wait {
        RecoveryWait::Seal => format!(in alloc; "Recovering seal"),
        RecoveryWait::Close => format!(in alloc; "Recovering close"),
        RecoveryWait::Scan => format!(in alloc; "Recovering scan"),
        RecoveryWait::Take => format!(in alloc; "Recovering take"),
        RecoveryWait::Told => format!(in alloc; "Recovering told"),
    }
}

fn print_outcome(alloc: Global, outcome: &PlainOutcome) -> Result<String, AllocError>
    ensures { IfOk result (λ text. string_bytes text ≡ outcome_text outcome.now) }
{
    match outcome {
        PlainOutcome::Fine => format!(in alloc; "ok"),
        PlainOutcome::Answer(reply) => {
            let reply = print_reply(alloc, reply)?;
            format!(in alloc; "m1 1 {reply}")
        }
    }
}

fn print_group(alloc: Global, group: &PlainGroup) -> Result<String, AllocError>
    ensures { IfOk result (λ text. string_bytes text ≡ group_text group.now) }
{
    match group {
        PlainGroup::Row {
            seq,
            table,
            key,
            value,
            txn,
        } => {
            let key = print_hex(alloc, key.as_slice())?;
            let value = print_hex(alloc, value.as_slice())?;
            format!(in alloc;
                "{seq} row {table} {key} {value} {}.{}",
                txn.writer.0, txn.number
            )
        }
        PlainGroup::End { seq, txn } => {
            format!(in alloc; "{seq} end {}.{}", txn.writer.0, txn.number)
        }
    }
}

fn print_message(alloc: Global, number: usize, message: &PlainMessage) -> Result<String, AllocError>
    ensures { IfOk result (λ text. string_bytes text ≡ message_text number message.now) }
{
    match message {
        PlainMessage::Append(group) => {
            let group = print_group(alloc, group)?;
            format!(in alloc; "#{number} m1>l1 Append {group}")
        }
        PlainMessage::Ack { seq } => format!(in alloc; "#{number} l1>m1 Ack {seq}"),
    }
}

// Adds the messages from index `from` on, each on a line. The first message has number 1.
fn push_messages(
    alloc: Global,
    text: &mut String,
    messages: &[PlainMessage],
    from: usize,
) -> Result<(), AllocError>
    requires { from ≤ length messages.now }
    ensures { OnOk result (string_bytes text.new ≡ string_bytes text.old ++ messages_text (from + 1) (drop from messages.now)) }
{
    for i in from..messages.len() {
        let message = print_message(alloc, i + 1, &messages[i])?;
        text.push_str(message.as_str())?;
        text.push('\n')?;
    }
    Ok(())
}

/// What a step writes: its outcome, and the messages from index `from` on, which it sent.
pub fn print_step(
    alloc: Global,
    outcome: &PlainOutcome,
    messages: &[PlainMessage],
    from: usize,
) -> Result<String, AllocError>
    requires { from ≤ length messages.now }
    ensures { IfOk result (λ text. string_bytes text ≡ outcome_text outcome.now ++ (10 ∷ messages_text (from + 1) (drop from messages.now))) }
{
    let mut text = print_outcome(alloc, outcome)?;
    text.push('\n')?;
    push_messages(alloc, &mut text, messages, from)?;
    Ok(text)
}
