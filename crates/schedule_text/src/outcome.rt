//! The text of outcomes.
ghost use Rattle.std.specs.Prelude.{◌≡◌, ◌++◌, IfOk, OnOk, string_bytes};
ghost use Rattle.tm_base.specs.declared.step.Outcome.TheVariants as outcome;
ghost use Rattle.page_image.specs.Spelling.{IsImage};
ghost use Rattle.schedule_lines.specs.Lines.{behind, node_text, entry_words};
ghost use Rattle.schedule_text.specs.Outcomes.{outcome_text, pair_words, IsShown};

use crate::reply::{print_reply, print_value};
use page_image::encode;
use std::alloc::{AllocError, Global};
use text_fields::print_hex;
use tm_base::{
    ByteList, Image, Mem, Node, Outcome, Pair, Reply, Stamp, Value, Vector, VectorEntry,
};

/// The line of an outcome, without its line feed.
pub fn print_outcome(alloc: Global, outcome: &Outcome) -> Mem<ByteList>
    requires { IsShown outcome.now }
    ensures { IfOk result (λ text. text ≡ outcome_text outcome.now) }
{
    let text = print(alloc, outcome)?;
    Ok(ByteList::from_vec(text.into_bytes()))
}

fn print(alloc: Global, outcome: &Outcome) -> Result<String, AllocError>
    requires { IsShown outcome.now }
    ensures { IfOk result (λ text. string_bytes text ≡ outcome_text outcome.now) }
{
    match outcome {
        Outcome::Fine => format!(in alloc; "ok"),
        Outcome::Reply {
            master,
            session,
            reply,
        } => print_replied(alloc, *master, *session, reply),
        Outcome::Lost { node } => print_node(alloc, *node, " lost"),
        Outcome::Up { node } => print_node(alloc, *node, " up"),
        Outcome::Down { node } => print_node(alloc, *node, " down"),
        Outcome::Stopped { node } => print_node(alloc, *node, " Stopped"),
        Outcome::Page { store, image } => print_page(alloc, *store, image),
        Outcome::NotHere { store } => format!(in alloc; "p{store} NotHere"),
        Outcome::RosterBehind { store, upto } => format!(in alloc;
            "p{store} RosterBehind {}",
            upto.0
        ),
        Outcome::Behind {
            store,
            writer,
            upto,
        } => format!(in alloc; "p{store} Behind {} {}", writer.0, upto.0),
        Outcome::Missing { store, stamp } => format!(in alloc; "p{store} Missing {}", stamp.0),
        Outcome::Unfit { node, stamp } => print_unfit(alloc, *node, *stamp),
        Outcome::Point {
            replica,
            number,
            vector,
        } => print_point(alloc, *replica, *number, vector),
        Outcome::Waits {
            replica,
            writer,
            stamp,
        } => format!(in alloc; "r{replica} Waits {} {}", writer.0, stamp.0),
        Outcome::FullPoints { replica } => format!(in alloc; "r{replica} Full points"),
        Outcome::Level { replica } => format!(in alloc; "r{replica} Level"),
        Outcome::Value { replica, value } => print_got(alloc, *replica, value),
        Outcome::NoPoint { replica, number } => format!(in alloc; "r{replica} NoPoint {number}"),
        Outcome::NoTable { replica, table } => format!(in alloc; "r{replica} NoTable {table}"),
        Outcome::TooLongKey { replica, length } => {
            format!(in alloc; "r{replica} TooLong key {length}")
        }
        Outcome::Rows { replica, pairs } => print_rows(alloc, *replica, pairs.as_slice()),
    }
}

fn print_replied(
    alloc: Global,
    master: u8,
    session: u16,
    reply: &Reply,
) -> Result<String, AllocError>
    ensures { IfOk result (λ text. string_bytes text ≡ outcome_text (outcome.Reply master session reply.now)) }
{
    let reply = print_reply(alloc, reply)?;
    format!(in alloc; "m{master} {session} {reply}")
}

/// The node and what is behind it.
pub(crate) fn print_node(alloc: Global, node: Node, end: &str) -> Result<String, AllocError>
    ensures { IfOk result (λ text. string_bytes text ≡ node_text node ++ end.now) }
{
    match node {
        Node::Master { number } => format!(in alloc; "m{number}{end}"),
        Node::LogStore { number } => format!(in alloc; "l{number}{end}"),
        Node::PageStore { number } => format!(in alloc; "p{number}{end}"),
        Node::LockManager => format!(in alloc; "g{end}"),
        Node::Replica { number } => format!(in alloc; "r{number}{end}"),
    }
}

fn print_page(alloc: Global, store: u8, image: &Image) -> Result<String, AllocError>
    requires { IsImage image.now }
    ensures { IfOk result (λ text. string_bytes text ≡ outcome_text (outcome.Page store image.now)) }
{
    let Ok(bytes) = encode(alloc, image) else {
        return Err(AllocError);
    };
    let bytes = print_hex(alloc, bytes.as_slice())?;
    format!(in alloc; "p{store} Page {bytes}")
}

fn print_unfit(alloc: Global, node: Node, stamp: Stamp) -> Result<String, AllocError>
    ensures { IfOk result (λ text. string_bytes text ≡ outcome_text (outcome.Unfit node stamp)) }
{
    let end = format!(in alloc; " Unfit {}", stamp.0)?;
    print_node(alloc, node, end.as_str())
}

fn print_point(
    alloc: Global,
    replica: u8,
    number: u32,
    vector: &Vector,
) -> Result<String, AllocError>
    ensures { IfOk result (λ text. string_bytes text ≡ outcome_text (outcome.Point replica number vector.now)) }
{
    let mut text = format!(in alloc; "r{replica} Point {number}")?;
    push_entries(alloc, &mut text, vector.as_slice())?;
    Ok(text)
}

fn push_entries(alloc: Global, text: &mut String, entries: &[VectorEntry]) -> Result<(), AllocError>
    ensures { OnOk result (string_bytes text.new ≡ string_bytes text.old ++ behind (entry_words entries.now)) }
{
    for entry in entries {
        let word = format!(in alloc; " {}:{}", entry.writer.0, entry.stamp.0)?;
        text.push_str(word.as_str())?;
    }
    Ok(())
}

fn print_got(alloc: Global, replica: u8, value: &Option<Value>) -> Result<String, AllocError>
    ensures { IfOk result (λ text. string_bytes text ≡ outcome_text (outcome.Value replica value.now)) }
{
    let value = print_value(alloc, value)?;
    format!(in alloc; "r{replica} {value}")
}

fn print_rows(alloc: Global, replica: u8, pairs: &[Pair]) -> Result<String, AllocError>
    ensures { IfOk result (λ text. string_bytes text ≡ outcome_text (outcome.Rows replica pairs.now)) }
{
    let mut text = format!(in alloc; "r{replica} Rows {}", pairs.len())?;
    push_pairs(alloc, &mut text, pairs)?;
    Ok(text)
}

fn push_pairs(alloc: Global, text: &mut String, pairs: &[Pair]) -> Result<(), AllocError>
    ensures { OnOk result (string_bytes text.new ≡ string_bytes text.old ++ behind (pair_words pairs.now)) }
{
    for pair in pairs {
        let key = print_hex(alloc, pair.key.as_slice())?;
        let value = print_hex(alloc, pair.value.as_slice())?;
        let word = format!(in alloc; " {key}={value}")?;
        text.push_str(word.as_str())?;
    }
    Ok(())
}
