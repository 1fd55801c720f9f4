//! What a page says of itself: its fences, level and table.
ghost use Rattle.std.specs.Prelude.{◌≡◌};
ghost use Rattle.std.specs.Option.{option_copied};
ghost use Rattle.page_model.specs.Tree.{low_of, high_of, table_of, level_of};

use key_fences::fence_bytes;
use tm_base::Body;

/// The low fence of what a page holds.
pub(crate) fn low_of(body: &Body) -> Option<&[u8]>
    ensures { option_copied result ≡ low_of body.now }
{
    match body {
        Body::Blank => None,
        Body::Leaf { low, .. } => fence_bytes(low),
        Body::Inner { low, .. } => fence_bytes(low),
    }
}

/// The high fence of what a page holds.
pub(crate) fn high_of(body: &Body) -> Option<&[u8]>
    ensures { option_copied result ≡ high_of body.now }
{
    match body {
        Body::Blank => None,
        Body::Leaf { high, .. } => fence_bytes(high),
        Body::Inner { high, .. } => fence_bytes(high),
    }
}

/// How far the leaves are below what a page holds.
pub fn level_of(body: &Body) -> u8
    ensures { result ≡ level_of body.now }
{
    match body {
        Body::Blank => 0,
        Body::Leaf { .. } => 0,
        Body::Inner { level, .. } => *level,
    }
}

/// The table of what a page holds, 0 for a blank one.
pub(crate) fn table_of(body: &Body) -> u16
    ensures { result ≡ table_of body.now }
{
    match body {
        Body::Blank => 0,
        Body::Leaf { table, .. } => *table,
        Body::Inner { table, .. } => *table,
    }
}
