//! Decimal numbers: digits without a sign, and no zero in front of another digit.
ghost use Rattle.std.specs.Prelude.{◌≡◌, ◌≤◌, ◌<◌, ◌^◌, ◌++◌, ℕ, decimal, IfSome, IfNone, OnOk, OnErr, string_bytes};

use itoa::Buffer;
use std::alloc::AllocError;
use std::str;

// The number that the word spells, if it spells one below 2^64.
fn spelled_number(word: &[u8]) -> Option<u64>
    ensures some { IfSome result (λ n. word.now ≡ decimal n) }
    ensures none { IfNone result ((n : ℕ) → n < 2 ^ 64 → word.now ≡ decimal n → ⊥) }
{
    let Ok(text) = str::from_utf8(word) else {
        return None;
    };
    let Ok(number) = text.parse::<u64>() else {
        return None;
    };
    // `parse` also takes a sign and zeros in front.
    let mut buffer = Buffer::new();
    if buffer.format(number) == text {
        Some(number)
    } else {
        None
    }
}

/// The number from `least` to `most` that the word spells in decimal. None exactly where it spells no
/// such number; a sign, a zero in front of another digit and an empty word spell none.
pub fn read_u64(word: &[u8], least: u64, most: u64) -> Option<u64>
    ensures some { IfSome result (λ n. (word.now ≡ decimal n) × (least ≤ n) × (n ≤ most)) }
    ensures none { IfNone result ((n : ℕ) → least ≤ n → n ≤ most → word.now ≡ decimal n → ⊥) }
{
    let Some(number) = spelled_number(word) else {
        return None;
    };
    if number < least || most < number {
        return None;
    }
    Some(number)
}

/// As [`read_u64`], for a `u32`.
pub fn read_u32(word: &[u8], least: u32, most: u32) -> Option<u32>
    ensures some { IfSome result (λ n. (word.now ≡ decimal n) × (least ≤ n) × (n ≤ most)) }
    ensures none { IfNone result ((n : ℕ) → least ≤ n → n ≤ most → word.now ≡ decimal n → ⊥) }
{
    let Some(number) = read_u64(word, least as u64, most as u64) else {
        return None;
    };
    Some(number as u32)
}

/// As [`read_u64`], for a `u16`.
pub fn read_u16(word: &[u8], least: u16, most: u16) -> Option<u16>
    ensures some { IfSome result (λ n. (word.now ≡ decimal n) × (least ≤ n) × (n ≤ most)) }
    ensures none { IfNone result ((n : ℕ) → least ≤ n → n ≤ most → word.now ≡ decimal n → ⊥) }
{
    let Some(number) = read_u64(word, least as u64, most as u64) else {
        return None;
    };
    Some(number as u16)
}

/// As [`read_u64`], for a `u8`.
pub fn read_u8(word: &[u8], least: u8, most: u8) -> Option<u8>
    ensures some { IfSome result (λ n. (word.now ≡ decimal n) × (least ≤ n) × (n ≤ most)) }
    ensures none { IfNone result ((n : ℕ) → least ≤ n → n ≤ most → word.now ≡ decimal n → ⊥) }
{
    let Some(number) = read_u64(word, least as u64, most as u64) else {
        return None;
    };
    Some(number as u8)
}

/// Adds the number in decimal at the end of the text.
pub fn push_decimal(text: &mut String, number: u64) -> Result<(), AllocError>
    ensures ok { OnOk result (string_bytes text.new ≡ string_bytes text.old ++ decimal number) }
    ensures err { OnErr result (string_bytes text.new ≡ string_bytes text.old) }
{
    let mut buffer = Buffer::new();
    text.push_str(buffer.format(number))
}
