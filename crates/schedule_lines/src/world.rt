//! Lines of the world, its messages and its nodes.
ghost use Rattle.std.specs.Prelude.{◌≡◌, ◌∷◌, ℕ, List, IfSome, IfNone};
ghost use Rattle.tm_base.specs.declared.message.Node.{Node as AnyNode};
ghost use Rattle.schedule_lines.specs.declared.verb.Verb.TheVariants as verb;
ghost use Rattle.schedule_lines.specs.Lines.{IsNode, HasDisk, node_text};
ghost use Rattle.schedule_lines.specs.Inside.{IsLineOf, IsNoLine};

use crate::node::read_node;
use crate::words::Words;
use text_fields::read_u32;
use tm_base::{Line, Node, Step};

/// The greatest numbers of masters, page stores and replicas that a world has.
const MOST_MASTERS: u8 = 16;

const MOST_PAGE_STORES: u8 = 4;

const MOST_REPLICAS: u8 = 8;

/// The farthest device call that a line can have fail, and the most deliveries that it can ask for.
const MOST_CALLS: u32 = 1_000_000;

/// The greatest mode of a disk that loses what it was not yet asked to keep.
const LAST_MODE: u8 = 2;

/// `world M P R`.
pub(crate) fn world_in(mut words: Words) -> Option<Line>
    ensures some { IfSome result (IsLineOf verb.World words.entry) }
    ensures none { IfNone result (IsNoLine verb.World words.entry) }
{
    let masters = words.u8(1, MOST_MASTERS)?;
    let page_stores = words.u8(1, MOST_PAGE_STORES)?;
    let replicas = words.u8(0, MOST_REPLICAS)?;
    words.end()?;
    Some(Line::World {
        masters,
        page_stores,
        replicas,
    })
}

/// `deliver n`.
pub(crate) fn deliver_in(mut words: Words) -> Option<Line>
    ensures some { IfSome result (IsLineOf verb.Deliver words.entry) }
    ensures none { IfNone result (IsNoLine verb.Deliver words.entry) }
{
    let number = words.u32(1, u32::MAX)?;
    words.end()?;
    Some(Line::Step(Step::Deliver { number }))
}

/// `lose n` or `lose all`.
pub(crate) fn lose_in(mut words: Words) -> Option<Line>
    ensures some { IfSome result (IsLineOf verb.Lose words.entry) }
    ensures none { IfNone result (IsNoLine verb.Lose words.entry) }
{
    let word = words.word()?;
    words.end()?;
    if word == b"all".as_slice() {
        return Some(Line::LoseAll);
    }
    let number = read_u32(word, 1, u32::MAX)?;
    Some(Line::Step(Step::Lose { number }))
}

/// `tick x` or `tick all`.
pub(crate) fn tick_in(mut words: Words) -> Option<Line>
    ensures some { IfSome result (IsLineOf verb.Tick words.entry) }
    ensures none { IfNone result (IsNoLine verb.Tick words.entry) }
{
    let word = words.word()?;
    words.end()?;
    if word == b"all".as_slice() {
        return Some(Line::TickAll);
    }
    let node = read_node(word)?;
    Some(Line::Step(Step::Tick { node }))
}

/// `stop x X`.
pub(crate) fn stop_in(mut words: Words) -> Option<Line>
    ensures some { IfSome result (IsLineOf verb.Stop words.entry) }
    ensures none { IfNone result (IsNoLine verb.Stop words.entry) }
{
    let node = words.node()?;
    let mode = words.u8(0, LAST_MODE)?;
    words.end()?;
    Some(Line::Step(Step::Stop { node, mode }))
}

/// `start x`.
pub(crate) fn start_in(mut words: Words) -> Option<Line>
    ensures some { IfSome result (IsLineOf verb.Start words.entry) }
    ensures none { IfNone result (IsNoLine verb.Start words.entry) }
{
    let node = words.node()?;
    words.end()?;
    Some(Line::Step(Step::Start { node }))
}

/// `fail x K X`.
pub(crate) fn fail_in(mut words: Words) -> Option<Line>
    ensures some { IfSome result (IsLineOf verb.Fail words.entry) }
    ensures none { IfNone result (IsNoLine verb.Fail words.entry) }
{
    let node = disk_in(&mut words)?;
    let call = words.u32(1, MOST_CALLS)?;
    let mode = words.u8(0, LAST_MODE)?;
    words.end()?;
    Some(Line::Step(Step::Fail { node, call, mode }))
}

// A node that has a disk.
fn disk_in(words: &mut Words) -> Option<Node>
    ensures some { IfSome result (λ node. (words.old ≡ node_text node ∷ words.new) × IsNode node × HasDisk node) }
    ensures none { IfNone result ((node : AnyNode) (rest : List (List ℕ)) → IsNode node → HasDisk node → words.old ≡ node_text node ∷ rest → ⊥) }
{
    let node = words.node()?;
    match node {
        Node::Master { .. } => None,
        Node::LogStore { .. } => Some(node),
        Node::PageStore { .. } => Some(node),
        Node::LockManager => Some(node),
        Node::Replica { .. } => None,
    }
}

/// `drain k`.
pub(crate) fn drain_in(mut words: Words) -> Option<Line>
    ensures some { IfSome result (IsLineOf verb.Drain words.entry) }
    ensures none { IfNone result (IsNoLine verb.Drain words.entry) }
{
    let most = words.u32(1, MOST_CALLS)?;
    words.end()?;
    Some(Line::Drain { most })
}
