//! Commands that a node is sent.
ghost use Rattle.std.specs.Prelude.{◌≡◌, ◌+◌, ◌≤◌, decimal, length, IfOk, IfSome, IfNone, IsErrOf};
ghost use Rattle.std.specs.Bool.{OnTrue, OnFalse};
ghost use Rattle.tm_base.specs.declared.step.Step.{Step as AnyStep};
ghost use Rattle.tm_base.specs.declared.message.Node.TheVariants as node;
ghost use Rattle.schedule_lines.specs.declared.line.LineError.TheVariants as error;
ghost use Rattle.schedule_lines.specs.Lines.{IsNode, IsSent, node_text, sent_text};
ghost use Rattle.schedule_lines.specs.Inside.{IsCommandOf, IsNoCommandOf, IsRead, IsUnread, NotMaster, front_of};

use crate::command::session_in;
use crate::line::{LineError, MAX_LINE};
use crate::page::store_command;
use crate::replica::replica_command;
use crate::verb::{Verb, verb_of};
use crate::words::Words;
use itoa::Buffer;
use std::alloc::Global;
use tm_base::{Mem, Node, Step};

/// The step that a command with this text is at the node. `Bad` exactly where the text is none for it.
///
/// A master is sent a session and a command. Page stores and replicas are sent the words of their lines
/// without the node, and the other nodes nothing.
pub fn read_command(alloc: Global, node: Node, text: &[u8]) -> Result<Step, LineError>
    ensures ok { IfOk result (λ s. (text.now ≡ sent_text s) × IsSent node s) }
    ensures bad { IsErrOf result error.Bad → (s : AnyStep) → IsSent node s → text.now ≡ sent_text s → ⊥ }
{
    let Some(step) = step_in(alloc, node, text)? else {
        return Err(LineError::Bad);
    };
    Ok(step)
}

// The step that the text is at the node.
fn step_in(alloc: Global, node: Node, text: &[u8]) -> Mem<Option<Step>>
    ensures some { IfOk result (λ found. IfSome found (IsRead node text.now)) }
    ensures none { IfOk result (λ found. IfNone found (IsUnread node text.now)) }
{
    if !line_fits(node, text) {
        return Ok(None);
    }
    match node {
        Node::Master { number } => master_step(alloc, number, text),
        Node::LogStore { .. } => Ok(None),
        Node::PageStore { .. } => other_step(alloc, node, text),
        Node::LockManager => Ok(None),
        Node::Replica { .. } => other_step(alloc, node, text),
    }
}

// The step at a master.
fn master_step(alloc: Global, number: u8, text: &[u8]) -> Mem<Option<Step>>
    requires least { 1 ≤ number }
    requires size { 4 + length (node_text (node.Master number)) + length text.now ≤ 8192 }
    ensures some { IfOk result (λ found. IfSome found (IsRead (node.Master number) text.now)) }
    ensures none { IfOk result (λ found. IfNone found (IsUnread (node.Master number) text.now)) }
{
    let Some((session, command)) = session_in(alloc, Words::new(text))? else {
        return Ok(None);
    };
    Ok(Some(Step::Do {
        master: number,
        session,
        command,
    }))
}

// The step at a node whose commands begin with a verb.
fn other_step(alloc: Global, node: Node, text: &[u8]) -> Mem<Option<Step>>
    requires kind { NotMaster node }
    requires number { IsNode node }
    requires size { 1 + length (node_text node) + length text.now ≤ 8192 }
    ensures some { IfOk result (λ found. IfSome found (IsRead node text.now)) }
    ensures none { IfOk result (λ found. IfNone found (IsUnread node text.now)) }
{
    let mut words = Words::new(text);
    let Some(word) = words.word() else {
        return Ok(None);
    };
    let Some(verb) = verb_of(word) else {
        return Ok(None);
    };
    let step = command_at(alloc, node, verb, words)?;
    Ok(step)
}

// The command of this verb at the node, whose other words these are.
fn command_at(alloc: Global, node: Node, verb: Verb, words: Words) -> Mem<Option<Step>>
    requires { IsNode node }
    ensures some { IfOk result (λ found. IfSome found (IsCommandOf node verb words.entry)) }
    ensures none { IfOk result (λ found. IfNone found (IsNoCommandOf node verb words.entry)) }
{
    match node {
        Node::Master { .. } => Ok(None),
        Node::LogStore { .. } => Ok(None),
        Node::PageStore { number } => Ok(store_command(number, verb, words)),
        Node::LockManager => Ok(None),
        Node::Replica { number } => replica_command(alloc, number, verb, words),
    }
}

// Whether the node has a word, and the line of the command, with this word in it, isn't too long.
fn line_fits(node: Node, text: &[u8]) -> bool
    ensures yes { OnTrue result (IsNode node × (front_of node + length (node_text node) + length text.now ≤ 8192)) }
    ensures no { OnFalse result (IsNode node → front_of node + length (node_text node) + length text.now ≤ 8192 → ⊥) }
{
    if !is_node(node) {
        return false;
    }
    let front = front_of(node) + node_len(node);
    front <= MAX_LINE && text.len() <= MAX_LINE - front
}

// Whether the node's number is from 1 on.
fn is_node(node: Node) -> bool
    ensures yes { OnTrue result (IsNode node) }
    ensures no { OnFalse result (IsNode node → ⊥) }
{
    match node {
        Node::Master { number } => number >= 1,
        Node::LogStore { number } => number >= 1,
        Node::PageStore { number } => number >= 1,
        Node::LockManager => true,
        Node::Replica { number } => number >= 1,
    }
}

// How many bytes a line has besides the node's word and the command: a blank, and of a master `do` and
// its blank.
fn front_of(node: Node) -> usize
    ensures value { result ≡ front_of node }
    ensures most { result ≤ 4 }
{
    match node {
        Node::Master { .. } => 4,
        _ => 1,
    }
}

// How many bytes the node's word has.
fn node_len(node: Node) -> usize
    ensures value { result ≡ length (node_text node) }
    ensures most { result ≤ 41 }
{
    match node {
        Node::Master { number } => numbered_len(number),
        Node::LogStore { number } => numbered_len(number),
        Node::PageStore { number } => numbered_len(number),
        Node::LockManager => 1,
        Node::Replica { number } => numbered_len(number),
    }
}

// How many bytes a letter and this number have.
fn numbered_len(number: u8) -> usize
    ensures value { result ≡ 1 + length (decimal number) }
    ensures most { result ≤ 41 }
{
    let mut buffer = Buffer::new();
    1 + buffer.format(number).len()
}
