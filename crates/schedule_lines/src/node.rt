//! The words of nodes.
ghost use Rattle.std.specs.Prelude.{◌≡◌, ◌∷◌, ℕ, decimal, IfSome, IfNone};
ghost use Rattle.tm_base.specs.declared.message.Node.{Node as AnyNode};
ghost use Rattle.schedule_lines.specs.Lines.{IsIn, IsNode, node_text};

use text_fields::read_u8;
use tm_base::Node;

/// The number behind the letter, from 1 to 255.
pub(crate) fn read_numbered(word: &[u8], letter: u8) -> Option<u8>
    ensures some { IfSome result (λ n. (word.now ≡ letter ∷ decimal n) × IsIn 1 255 n) }
    ensures none { IfNone result ((n : ℕ) → IsIn 1 255 n → word.now ≡ letter ∷ decimal n → ⊥) }
{
    let [first, digits @ ..] = word else {
        return None;
    };
    if *first != letter {
        return None;
    }
    let number = read_u8(digits, 1, 255)?;
    Some(number)
}

/// The node that the word names.
pub(crate) fn read_node(word: &[u8]) -> Option<Node>
    ensures some { IfSome result (λ node. (word.now ≡ node_text node) × IsNode node) }
    ensures none { IfNone result ((node : AnyNode) → IsNode node → word.now ≡ node_text node → ⊥) }
{
    if word == b"g".as_slice() {
        return Some(Node::LockManager);
    }
    if let Some(number) = read_numbered(word, b'm') {
        return Some(Node::Master { number });
    }
    if let Some(number) = read_numbered(word, b'l') {
        return Some(Node::LogStore { number });
    }
    if let Some(number) = read_numbered(word, b'p') {
        return Some(Node::PageStore { number });
    }
    if let Some(number) = read_numbered(word, b'r') {
        return Some(Node::Replica { number });
    }
    None
}
