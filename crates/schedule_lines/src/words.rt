//! The words of a line, from left to right.
ghost use Rattle.std.specs.Prelude.{◌≡◌, [], ◌∷◌, ℕ, List, decimal, IfOk, IfSome, IfNone};
ghost use Rattle.std.specs.declared.option.Option.{Option};
ghost use Rattle.tm_base.specs.declared.message.Node.{Node as AnyNode};
ghost use Rattle.text_fields.specs.Fields.{hex_text};
ghost use Rattle.schedule_lines.specs.Lines.{IsIn, IsNode, IsKey, IsValue, IsFrom, node_text, from_text};
ghost use Rattle.schedule_lines.specs.Parts.{parted};

use crate::node::{read_node, read_numbered};
use std::alloc::Global;
use std::marker::Model;
use text_fields::{read_hex, read_u8, read_u16, read_u32, read_u64, split_word};
use tm_base::{ByteList, Mem, Node};

/// The longest key and the longest value that a line can name, in bytes. Whoever gets them refuses most
/// of them by name.
const LONGEST_FIELD: usize = 1024;

/// Words that are still to be read. Each method takes the next one, and gives none where it isn't what
/// the method reads.
#[derive(Drop)]
pub(crate) struct Words<'a> {
    rest: Option<&'a [u8]>,
}

impl<'a> Model for Words<'a> {
    ghost use Rattle.std.specs.Prelude.{ℕ, List};
    ghost use Rattle.schedule_lines.specs.Words.{words_left};

    ghost Value = { List (List ℕ) };

    ghost view = { words_left };
}

impl<'a> Words<'a> {
    /// The words of a text that are parted by one blank.
    pub(crate) fn new(text: &'a [u8]) -> Words<'a>
        ensures { result ≡ parted text.now }
    {
        Words { rest: Some(text) }
    }

    /// Any word.
    pub(crate) fn word(&mut self) -> Option<&'a [u8]>
        ensures some { IfSome result (λ word. self.old ≡ word.now ∷ self.new) }
        ensures none { IfNone result (self.old ≡ []) }
    {
        let text = self.rest?;
        let Some((word, rest)) = split_word(text) else {
            self.rest = None;
            return Some(text);
        };
        self.rest = Some(rest);
        Some(word)
    }

    /// The end, where no word is left.
    pub(crate) fn end(&self) -> Option<()>
        ensures some { IfSome result (λ _. self.now ≡ []) }
        ensures none { IfNone result (self.now ≡ [] → ⊥) }
    {
        match self.rest {
            Some(_) => None,
            None => Some(()),
        }
    }

    /// A number from `least` to `most`.
    pub(crate) fn u8(&mut self, least: u8, most: u8) -> Option<u8>
        ensures some { IfSome result (λ n. (self.old ≡ decimal n ∷ self.new) × IsIn least most n) }
        ensures none { IfNone result ((n : ℕ) (rest : List (List ℕ)) → IsIn least most n → self.old ≡ decimal n ∷ rest → ⊥) }
    {
        let word = self.word()?;
        let number = read_u8(word, least, most)?;
        Some(number)
    }

    /// A number from `least` to `most`.
    pub(crate) fn u16(&mut self, least: u16, most: u16) -> Option<u16>
        ensures some { IfSome result (λ n. (self.old ≡ decimal n ∷ self.new) × IsIn least most n) }
        ensures none { IfNone result ((n : ℕ) (rest : List (List ℕ)) → IsIn least most n → self.old ≡ decimal n ∷ rest → ⊥) }
    {
        let word = self.word()?;
        let number = read_u16(word, least, most)?;
        Some(number)
    }

    /// A number from `least` to `most`.
    pub(crate) fn u32(&mut self, least: u32, most: u32) -> Option<u32>
        ensures some { IfSome result (λ n. (self.old ≡ decimal n ∷ self.new) × IsIn least most n) }
        ensures none { IfNone result ((n : ℕ) (rest : List (List ℕ)) → IsIn least most n → self.old ≡ decimal n ∷ rest → ⊥) }
    {
        let word = self.word()?;
        let number = read_u32(word, least, most)?;
        Some(number)
    }

    /// A number from `least` to `most`.
    pub(crate) fn u64(&mut self, least: u64, most: u64) -> Option<u64>
        ensures some { IfSome result (λ n. (self.old ≡ decimal n ∷ self.new) × IsIn least most n) }
        ensures none { IfNone result ((n : ℕ) (rest : List (List ℕ)) → IsIn least most n → self.old ≡ decimal n ∷ rest → ⊥) }
    {
        let word = self.word()?;
        let number = read_u64(word, least, most)?;
        Some(number)
    }

    /// The number of a node whose kind has this letter.
    pub(crate) fn numbered(&mut self, letter: u8) -> Option<u8>
        ensures some { IfSome result (λ n. (self.old ≡ (letter ∷ decimal n) ∷ self.new) × IsIn 1 255 n) }
        ensures none { IfNone result ((n : ℕ) (rest : List (List ℕ)) → IsIn 1 255 n → self.old ≡ (letter ∷ decimal n) ∷ rest → ⊥) }
    {
        let word = self.word()?;
        let number = read_numbered(word, letter)?;
        Some(number)
    }

    /// A node.
    pub(crate) fn node(&mut self) -> Option<Node>
        ensures some { IfSome result (λ node. (self.old ≡ node_text node ∷ self.new) × IsNode node) }
        ensures none { IfNone result ((node : AnyNode) (rest : List (List ℕ)) → IsNode node → self.old ≡ node_text node ∷ rest → ⊥) }
    {
        let word = self.word()?;
        let node = read_node(word)?;
        Some(node)
    }

    /// A key.
    pub(crate) fn key(&mut self, alloc: Global) -> Mem<Option<ByteList>>
        ensures some { IfOk result (λ found. IfSome found (λ key. (self.old ≡ hex_text key ∷ self.new) × IsKey key)) }
        ensures none { IfOk result (λ found. IfNone found ((key : List ℕ) (rest : List (List ℕ)) → IsKey key → self.old ≡ hex_text key ∷ rest → ⊥)) }
    {
        let Some(word) = self.word() else {
            return Ok(None);
        };
        let key = read_hex(alloc, word, 1, LONGEST_FIELD)?;
        Ok(key)
    }

    /// A value, which may be empty.
    pub(crate) fn value(&mut self, alloc: Global) -> Mem<Option<ByteList>>
        ensures some { IfOk result (λ found. IfSome found (λ value. (self.old ≡ hex_text value ∷ self.new) × IsValue value)) }
        ensures none { IfOk result (λ found. IfNone found ((value : List ℕ) (rest : List (List ℕ)) → IsValue value → self.old ≡ hex_text value ∷ rest → ⊥)) }
    {
        let Some(word) = self.word() else {
            return Ok(None);
        };
        let value = read_hex(alloc, word, 0, LONGEST_FIELD)?;
        Ok(value)
    }

    /// Where a scan begins: a key, or a dash for the first one.
    pub(crate) fn from(&mut self, alloc: Global) -> Mem<Option<Option<ByteList>>>
        ensures some { IfOk result (λ found. IfSome found (λ from. (self.old ≡ from_text from ∷ self.new) × IsFrom from)) }
        ensures none { IfOk result (λ found. IfNone found ((from : Option (List ℕ)) (rest : List (List ℕ)) → IsFrom from → self.old ≡ from_text from ∷ rest → ⊥)) }
    {
        let Some(bytes) = self.value(alloc)? else {
            return Ok(None);
        };
        if bytes.is_empty() {
            return Ok(Some(None));
        }
        Ok(Some(Some(bytes)))
    }
}
