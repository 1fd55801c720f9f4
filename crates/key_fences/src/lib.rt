//! Keys in order, and the fences that say which keys a page may have.
//!
//! A fence is a key or open. A page has the keys from its low fence on and below its high one.
#![tactic(auto)]

ghost use Rattle.std.specs.Prelude.{◌≡◌, ◌≤◌, length, IfSome};
ghost use Rattle.std.specs.Option.{option_copied};
ghost use Rattle.key_fences.specs.Fences.{is_from, is_above, is_below, is_within, is_strictly_within, leave_room, same_fence};

use tm_data::Key;
pub use tm_data::is_less;

/// The bytes of a fence, none for an open one.
pub fn fence_bytes(fence: &Option<Key>) -> Option<&[u8]>
    ensures same { option_copied result ≡ fence.now }
    ensures sized { IfSome (option_copied result) (λ key. (1 ≤ length key) × (length key ≤ 64)) }
{
    match fence {
        Some(key) => Some(key.as_slice()),
        None => None,
    }
}

/// Whether two fences are one.
pub fn same_fence(a: Option<&[u8]>, b: Option<&[u8]>) -> bool
    ensures { result ≡ same_fence (option_copied a.entry) (option_copied b.entry) }
{
    match (a, b) {
        (None, None) => true,
        (Some(a), Some(b)) => a == b,
        _ => false,
    }
}

/// Whether a key is not below the low fence.
pub fn is_from(low: Option<&[u8]>, key: &[u8]) -> bool
    ensures { result ≡ is_from (option_copied low.entry) key.now }
{
    match low {
        Some(low) => !is_less(key, low),
        None => true,
    }
}

/// Whether a key is above the low fence.
pub fn is_above(low: Option<&[u8]>, key: &[u8]) -> bool
    ensures { result ≡ is_above (option_copied low.entry) key.now }
{
    match low {
        Some(low) => is_less(low, key),
        None => true,
    }
}

/// Whether a key is below the high fence.
pub fn is_below(high: Option<&[u8]>, key: &[u8]) -> bool
    ensures { result ≡ is_below (option_copied high.entry) key.now }
{
    match high {
        Some(high) => is_less(key, high),
        None => true,
    }
}

/// Whether a key may stand between the fences: from the low one on, and below the high one.
pub fn is_within(low: Option<&[u8]>, high: Option<&[u8]>, key: &[u8]) -> bool
    ensures { result ≡ is_within (option_copied low.entry) (option_copied high.entry) key.now }
{
    is_from(low, key) && is_below(high, key)
}

/// Whether a key parts what is between the fences: some keys may stand on each side of it.
pub fn is_strictly_within(low: Option<&[u8]>, high: Option<&[u8]>, key: &[u8]) -> bool
    ensures { result ≡ is_strictly_within (option_copied low.entry) (option_copied high.entry) key.now }
{
    is_above(low, key) && is_below(high, key)
}

/// Whether some key may stand between the fences: the low one is below the high one, or one is open.
pub fn leave_room(low: Option<&[u8]>, high: Option<&[u8]>) -> bool
    ensures { result ≡ leave_room (option_copied low.entry) (option_copied high.entry) }
{
    match (low, high) {
        (Some(low), Some(high)) => is_less(low, high),
        _ => true,
    }
}
