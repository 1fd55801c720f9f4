//! How many bytes images have when they are stored.
ghost use Rattle.std.specs.Prelude.{◌≡◌, ◌+◌, ◌-◌, ◌≤◌, min, sum_by};
ghost use Rattle.tm_base.specs.Sizes.{MOST, size_with, size, room};

use crate::{Body, Image, MAX_IMAGE, fence_size};

// How many bytes an image with this body has.
pub(crate) fn body_size(body: &Body) -> usize
    ensures { result ≡ min (size_with body.now) MOST }
{
    match body {
        Body::Blank => 13,
        Body::Leaf {
            low,
            high,
            rows,
            ..
        } => {
            let fences = fence_size(low) + fence_size(high);
            rows.size().saturating_add(18 + fences)
        }
        Body::Inner {
            low,
            high,
            entries,
            ..
        } => {
            let fences = fence_size(low) + fence_size(high);
            entries.size().saturating_add(22 + fences)
        }
    }
}

/// How many bytes an image has when it is stored. The sum stops at the greatest `usize`.
pub fn size(image: &Image) -> usize
    ensures { result ≡ min (size image.now) MOST }
{
    body_size(&image.body)
}

/// How many bytes an image may still grow by, 0 where it is greater than an image may be.
pub fn room(image: &Image) -> usize
    ensures { result ≡ room image.now }
{
    MAX_IMAGE.saturating_sub(size(image))
}
