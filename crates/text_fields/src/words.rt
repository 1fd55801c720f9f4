//! Words parted by one blank.
ghost use Rattle.std.specs.Prelude.{◌≡◌, ◌≢◌, ◌++◌, ◌∷◌, ◌<◌, ◌≤◌, List, ℕ, length, slice_index, IfSome, IfNone};
ghost use Rattle.text_fields.specs.Fields.{HasNoBlank};

// Where the first blank is, or the text's length.
fn word_end(text: &[u8]) -> usize
    ensures within { result ≤ length text.now }
    ensures before { (k : ℕ) → k < result → slice_index text.now k ≢ 32 }
    ensures found { result < length text.now → slice_index text.now result ≡ 32 }
{
    for (i, byte) in text.iter().enumerate() {
        if *byte == b' ' {
            return i;
        }
    }
    text.len()
}

/// The text's first word and what follows the blank behind it. None exactly where the text has no
/// blank, so that it is one word as a whole. A text that begins with a blank has an empty first word.
pub fn split_word(text: &[u8]) -> Option<(&[u8], &[u8])>
    ensures found { IfSome result (λ parts. (text.now ≡ parts.0.now ++ 32 ∷ parts.1.now) × HasNoBlank parts.0.now) }
    ensures none { IfNone result (HasNoBlank text.now) }
{
    let end = word_end(text);
    if end == text.len() {
        return None;
    }
    let (word, rest) = text.split_at(end);
    Some((word, &rest[1..]))
}
