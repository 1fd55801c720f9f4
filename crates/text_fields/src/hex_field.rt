//! Bytes in hexadecimal: two lower-case digits for each, or `-` where there are none.
ghost use Rattle.std.specs.Prelude.{◌≡◌, ◌≤◌, ◌<◌, ◌↔◌, List, ℕ, length, slice_index, IfOk, IfSome, IfNone, IsTrue, string_bytes, Ok};
ghost use Rattle.std.specs.Bool.{OnTrue, OnFalse};
ghost use Rattle.hex.specs.Hex.{IsBytes, decode_of};
ghost use Rattle.text_fields.specs.Fields.{hex_text, HasNoCapital};

use hex::FromHexError;
use std::alloc::{AllocError, Global};
use tm_base::{ByteList, Mem, NoMemory};

// Whether a capital letter from `A` to `Z` is among the bytes.
fn has_capital(word: &[u8]) -> bool
    ensures found { OnTrue result (HasNoCapital word.now → ⊥) }
    ensures none { OnFalse result (HasNoCapital word.now) }
{
    for byte in word {
        if byte.is_ascii_uppercase() {
            return true;
        }
    }
    false
}

// The bytes that these digits spell, capital ones too.
fn decode(alloc: Global, digits: &[u8]) -> Mem<Option<Vec<u8>>>
    ensures some { IfOk result (λ found. IfSome found (λ bytes. decode_of digits.now ≡ Ok bytes.items)) }
    ensures none { IfOk result (λ found. IfNone found ((bytes : List ℕ) → decode_of digits.now ≡ Ok bytes → ⊥)) }
{
    match hex::decode(alloc, digits) {
        Ok(bytes) => Ok(Some(bytes)),
        Err(FromHexError::OutOfMemory) => Err(NoMemory),
        Err(FromHexError::InvalidHexCharacter { .. }) => Ok(None),
        Err(FromHexError::OddLength) => Ok(None),
        Err(FromHexError::InvalidStringLength) => Ok(None),
    }
}

/// The bytes that the word spells in hexadecimal, where there are `least` to `most` of them; `-` spells
/// the empty list. None exactly where the word spells no such list: an odd number of digits, a capital
/// digit and an empty word spell none.
pub fn read_hex(alloc: Global, word: &[u8], least: usize, most: usize) -> Mem<Option<ByteList>>
    ensures some { IfOk result (λ found. IfSome found (λ bytes. (word.now ≡ hex_text bytes) × IsBytes bytes × (least ≤ length bytes) × (length bytes ≤ most))) }
    ensures none { IfOk result (λ found. IfNone found ((bytes : List ℕ) → IsBytes bytes → least ≤ length bytes → length bytes ≤ most → word.now ≡ hex_text bytes → ⊥)) }
{
    if word == b"-".as_slice() {
        if least == 0 {
            return Ok(Some(ByteList::new(alloc)));
        }
        return Ok(None);
    }
    let count = word.len() / 2;
    if count == 0 || count < least || most < count || has_capital(word) {
        return Ok(None);
    }
    let found = decode(alloc, word)?;
    let Some(bytes) = found else {
        return Ok(None);
    };
    Ok(Some(ByteList::from_vec(bytes)))
}

/// The bytes in hexadecimal, `-` where there are none.
pub fn print_hex(alloc: Global, bytes: &[u8]) -> Result<String, AllocError>
    ensures { IfOk result (λ text. string_bytes text ≡ hex_text bytes.now) }
{
    if bytes.is_empty() {
        return format!(in alloc; "-");
    }
    hex::encode(alloc, bytes)
}
