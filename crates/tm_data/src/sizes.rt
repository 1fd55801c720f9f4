//! How many bytes rows, entries and fences have when they are stored.
ghost use Rattle.std.specs.Prelude.{◌≡◌, ◌≤◌};
ghost use Rattle.tm_data.specs.Sizes.{value_size, before_size, row_size, fence_size, child_size};

use crate::{Before, Child, Key, Row, Value};

/// An image of a page has at most 8,192 bytes.
pub const MAX_IMAGE: usize = 8192;

fn value_size(value: &Option<Value>) -> usize
    ensures value { result ≡ value_size value.now }
    ensures most { result ≤ 514 }
{
    match value {
        Some(value) => 2 + value.as_slice().len(),
        None => 2,
    }
}

fn before_size(before: &Before) -> usize
    ensures value { result ≡ before_size before.now }
    ensures most { result ≤ 514 }
{
    match before {
        Before::Same => 2,
        Before::Was(value) => value_size(value),
    }
}

/// How many bytes a row has when it is stored.
pub fn row_size(row: &Row) -> usize
    ensures value { result ≡ row_size row.entry.now }
    ensures most { result ≤ 1101 }
{
    let key = row.key.as_slice().len();
    let now = value_size(&row.now);
    let before = before_size(&row.before);
    9 + key + now + before
}

/// How many bytes an entry of an inner page has when it is stored.
pub fn child_size(child: &Child) -> usize
    ensures value { result ≡ child_size child.now }
    ensures most { result ≤ 69 }
{
    5 + child.key.as_slice().len()
}

/// How many bytes a fence has when it is stored.
pub fn fence_size(fence: &Option<Key>) -> usize
    ensures value { result ≡ fence_size fence.now }
    ensures most { result ≤ 65 }
{
    match fence {
        Some(key) => 1 + key.as_slice().len(),
        None => 1,
    }
}
