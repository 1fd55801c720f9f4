//! Nodes as bytes.
ghost use Rattle.std.specs.Prelude.{◌≡◌, ◌++◌, OnOk};
ghost use Rattle.wire_fields.specs.Reading.{Gives};
ghost use Rattle.message_parts.specs.Spelling.{node_kind, node_number, node_bytes};
ghost use Rattle.message_parts.specs.Reading.{last_number, node_of, node_at};

use std::alloc::AllocError;
use tm_base::Node;
use wire_fields::{ReadError, put_u8, read_kind, read_u8};

fn last_number(kind: u8) -> u8
    ensures { result ≡ last_number kind }
{
    if kind == 4 { 1 } else { u8::MAX }
}

fn node_of(kind: u8, number: u8) -> Node
    ensures { result ≡ node_of kind number }
{
    match kind {
        1 => Node::Master { number },
        2 => Node::LogStore { number },
        3 => Node::PageStore { number },
        4 => Node::LockManager,
        _ => Node::Replica { number },
    }
}

/// Reads a node, whose kind is known and whose number is from 1, for the lock manager 1.
#[tactic(auto, unfolding(crate::specs::Reading::node_at))]
pub fn read_node(total: usize, bytes: &[u8]) -> Result<(Node, &[u8]), ReadError>
    ensures { Gives (λ x. (x.0, x.1.now)) result (node_at total bytes.now) }
{
    let (kind, rest) = read_kind(total, 1, 5, bytes)?;
    let (number, rest) = read_u8(total, 1, last_number(kind), rest)?;
    Ok((node_of(kind, number), rest))
}

fn kind_of(node: Node) -> u8
    ensures { result ≡ node_kind node }
{
    match node {
        Node::Master { .. } => 1,
        Node::LogStore { .. } => 2,
        Node::PageStore { .. } => 3,
        Node::LockManager => 4,
        Node::Replica { .. } => 5,
    }
}

fn number_of(node: Node) -> u8
    ensures { result ≡ node_number node }
{
    match node {
        Node::Master { number }
        | Node::LogStore { number }
        | Node::PageStore { number }
        | Node::Replica { number } => number,
        Node::LockManager => 1,
    }
}

/// Writes a node.
pub fn put_node(out: &mut Vec<u8>, node: Node) -> Result<(), AllocError>
    ensures { OnOk result (out.new.items ≡ out.old.items ++ node_bytes node) }
{
    put_u8(out, kind_of(node))?;
    put_u8(out, number_of(node))?;
    Ok(())
}
