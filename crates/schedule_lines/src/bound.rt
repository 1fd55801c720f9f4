//! Vectors in the words of a line.
ghost use Rattle.std.specs.Prelude.{◌≡◌, ◌≢◌, ◌<◌, ◌≤◌, ◌∷◌, ◌++◌, ℕ, List, length, slice_index, IfOk, IfSome, IfNone};
ghost use Rattle.tm_data.specs.declared.vector.VectorEntry.{VectorEntry as AnyEntry};
ghost use Rattle.tm_data.specs.Vectors.{IsVector};
ghost use Rattle.schedule_lines.specs.Lines.{IsIn, AreEntries, entry_text, entry_words};
ghost use Rattle.schedule_lines.specs.Inside.{HasNoColon, IsNoBound, IsEntry};

use crate::words::Words;
use std::alloc::Global;
use text_fields::{read_u32, read_u64};
use tm_base::{MAX_STAMP, Mem, Stamp, Vector, VectorEntry, VectorEntryList, Writer};

/// The vector whose entries the words are.
pub(crate) fn bound_in(alloc: Global, mut words: Words) -> Mem<Option<Vector>>
    ensures some { IfOk result (λ found. IfSome found (λ bound. (words.entry ≡ entry_words bound) × IsVector bound × AreEntries bound)) }
    ensures none { IfOk result (λ found. IfNone found (IsNoBound words.entry)) }
{
    let mut entries = VectorEntryList::new(alloc);
    let mut above = 0;
    while let Some(word) = words.word() {
        let Some(entry) = entry_in(word, above) else {
            return Ok(None);
        };
        above = entry.writer.0;
        entries.push(entry)?;
    }
    Ok(Some(Vector::from_entries(entries)))
}

// The entry that the word is, of a writer above this one.
fn entry_in(word: &[u8], above: u32) -> Option<VectorEntry>
    ensures some { IfSome result (λ e. (word.now ≡ entry_text e) × IsEntry above e) }
    ensures none { IfNone result ((e : AnyEntry) → IsEntry above e → word.now ≡ entry_text e → ⊥) }
{
    let (writer, stamp) = split_entry(word)?;
    let writer = read_u32(writer, 1, u32::MAX)?;
    let stamp = read_u64(stamp, 1, MAX_STAMP)?;
    if writer <= above {
        return None;
    }
    Some(VectorEntry {
        writer: Writer(writer),
        stamp: Stamp(stamp),
    })
}

// What is in front of the first colon, and behind it.
fn split_entry(word: &[u8]) -> Option<(&[u8], &[u8])>
    ensures found { IfSome result (λ parts. (word.now ≡ parts.0.now ++ 58 ∷ parts.1.now) × HasNoColon parts.0.now) }
    ensures none { IfNone result (HasNoColon word.now) }
{
    let at = colon_at(word);
    if at == word.len() {
        return None;
    }
    let (writer, rest) = word.split_at(at);
    Some((writer, &rest[1..]))
}

// Where the first colon is, or the word's length.
fn colon_at(word: &[u8]) -> usize
    ensures within { result ≤ length word.now }
    ensures before { (k : ℕ) → k < result → slice_index word.now k ≢ 58 }
    ensures found { result < length word.now → slice_index word.now result ≡ 58 }
{
    for (i, byte) in word.iter().enumerate() {
        if *byte == b':' {
            return i;
        }
    }
    word.len()
}
