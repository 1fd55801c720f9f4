//! Commands of replicas, and their lines.
ghost use Rattle.std.specs.Prelude.{◌≡◌, ◌≤◌, [], IfOk, IfSome, IfNone};
ghost use Rattle.tm_base.specs.declared.message.Node.TheVariants as node;
ghost use Rattle.schedule_lines.specs.declared.verb.Verb.TheVariants as known;
ghost use Rattle.schedule_lines.specs.Inside.{IsLineOf, IsCommandOf, IsNoBound, IsNoGet, IsNoScan, IsNoReplicaCommand, NoneBehind};

use crate::bound::bound_in;
use crate::verb::Verb;
use crate::words::Words;
use std::alloc::Global;
use tm_base::{Line, Mem, Step};

/// The most rows that a scan can ask for.
const MOST_ROWS: u8 = 100;

/// A line of this verb, `publish`, `lag`, `get` or `scan`, whose other words these are.
pub(crate) fn replica_line(alloc: Global, verb: Verb, mut words: Words) -> Mem<Option<Line>>
    ensures some { IfOk result (λ found. IfSome found (IsLineOf verb words.entry)) }
    ensures none { IfOk result (λ found. IfNone found (NoneBehind node.Replica (IsNoReplicaCommand verb) words.entry)) }
{
    let Some(replica) = words.numbered(b'r') else {
        return Ok(None);
    };
    let Some(step) = replica_command(alloc, replica, verb, words)? else {
        return Ok(None);
    };
    Ok(Some(Line::Step(step)))
}

/// The command of a replica: a verb, and the words behind the replica.
pub(crate) fn replica_command(
    alloc: Global,
    replica: u8,
    verb: Verb,
    words: Words,
) -> Mem<Option<Step>>
    requires { 1 ≤ replica }
    ensures some { IfOk result (λ found. IfSome found (IsCommandOf (node.Replica replica) verb words.entry)) }
    ensures none { IfOk result (λ found. IfNone found (IsNoReplicaCommand verb words.entry)) }
{
    match verb {
        Verb::Publish => publish_in(alloc, replica, words),
        Verb::Lag => Ok(lag_in(replica, words)),
        Verb::Get => get_in(alloc, replica, words),
        Verb::Scan => scan_in(alloc, replica, words),
        _ => Ok(None),
    }
}

fn publish_in(alloc: Global, replica: u8, words: Words) -> Mem<Option<Step>>
    requires { 1 ≤ replica }
    ensures some { IfOk result (λ found. IfSome found (IsCommandOf (node.Replica replica) known.Publish words.entry)) }
    ensures none { IfOk result (λ found. IfNone found (IsNoBound words.entry)) }
{
    let Some(bound) = bound_in(alloc, words)? else {
        return Ok(None);
    };
    Ok(Some(Step::Publish { replica, bound }))
}

fn lag_in(replica: u8, words: Words) -> Option<Step>
    requires { 1 ≤ replica }
    ensures some { IfSome result (IsCommandOf (node.Replica replica) known.Lag words.entry) }
    ensures none { IfNone result (words.entry ≡ [] → ⊥) }
{
    words.end()?;
    Some(Step::Lag { replica })
}

fn get_in(alloc: Global, replica: u8, mut words: Words) -> Mem<Option<Step>>
    requires { 1 ≤ replica }
    ensures some { IfOk result (λ found. IfSome found (IsCommandOf (node.Replica replica) known.Get words.entry)) }
    ensures none { IfOk result (λ found. IfNone found (IsNoGet words.entry)) }
{
    let Some(point) = words.u32(0, u32::MAX) else {
        return Ok(None);
    };
    let Some(table) = words.u16(0, u16::MAX) else {
        return Ok(None);
    };
    let Some(key) = words.key(alloc)? else {
        return Ok(None);
    };
    let Some(()) = words.end() else {
        return Ok(None);
    };
    Ok(Some(Step::Get {
        replica,
        point,
        table,
        key,
    }))
}

fn scan_in(alloc: Global, replica: u8, mut words: Words) -> Mem<Option<Step>>
    requires { 1 ≤ replica }
    ensures some { IfOk result (λ found. IfSome found (IsCommandOf (node.Replica replica) known.Scan words.entry)) }
    ensures none { IfOk result (λ found. IfNone found (IsNoScan words.entry)) }
{
    let Some(point) = words.u32(0, u32::MAX) else {
        return Ok(None);
    };
    let Some(table) = words.u16(0, u16::MAX) else {
        return Ok(None);
    };
    let Some(from) = words.from(alloc)? else {
        return Ok(None);
    };
    let Some(count) = words.u8(1, MOST_ROWS) else {
        return Ok(None);
    };
    let Some(()) = words.end() else {
        return Ok(None);
    };
    Ok(Some(Step::Scan {
        replica,
        point,
        table,
        from,
        count,
    }))
}
