//! A short list of bytes.
ghost use Rattle.std.specs.Prelude.{◌≡◌, List, ℕ, length, IfOk, Some, refl, nat_eq};
ghost use Rattle.std.specs.Ordering.{nat_cmp};
ghost use Rattle.std.specs.Cmp.{partial_equiv_from_equiv};
ghost use Rattle.std.specs.Cmp.Lexicographic.{slice_cmp, pointwise, nat_list_eq_equiv, nat_list_cmp_total, texts_ties, texts_po};

use crate::{Mem, TryCopy};
use smallvec::SmallVec;
use std::alloc::Global;
use std::cmp::Ordering;
use std::marker::Model;

/// Up to so many bytes stand in the value itself.
pub(crate) const INLINE: usize = 22;

/// Bytes in order, of which mostly few are there: up to [`INLINE`] take no memory of their own. Contracts see a
/// value as the list of its bytes.
#[derive(Debug, Drop)]
pub(crate) struct ShortBytes {
    items: SmallVec<u8, INLINE>,
}

impl Model for ShortBytes {
    ghost Value = { List ℕ };

    ghost view = { λ b. b.items.items };
}

impl ShortBytes {
    /// A copy of these bytes.
    pub(crate) fn from_slice(alloc: Global, bytes: &[u8]) -> Mem<ShortBytes>
        ensures { IfOk result (λ list. list ≡ bytes.now) }
    {
        Ok(ShortBytes {
            items: SmallVec::from_slice(alloc, bytes)?,
        })
    }

    /// The bytes.
    pub(crate) fn as_slice(&self) -> &[u8]
        ensures { result.now ≡ self.now }
    {
        self.items.as_slice()
    }
}

impl TryCopy for ShortBytes {
    fn copy(&self) -> Mem<ShortBytes> {
        ShortBytes::from_slice(*self.items.allocator(), self.as_slice())
    }
}

impl PartialEq for ShortBytes {
    ghost eq = { pointwise nat_eq };

    ghost laws = { partial_equiv_from_equiv nat_list_eq_equiv };

    fn eq(&self, other: &Self) -> bool {
        self.as_slice() == other.as_slice()
    }
}

impl Eq for ShortBytes {
    ghost laws = { nat_list_eq_equiv };
}

impl PartialOrd for ShortBytes {
    ghost partial_cmp = { λ x y. Some (slice_cmp nat_cmp x y) };

    ghost laws = { texts_po };

    fn partial_cmp(&self, other: &Self) -> Option<Ordering> {
        Some(self.cmp(other))
    }
}

impl Ord for ShortBytes {
    ghost cmp = { slice_cmp nat_cmp };

    ghost total = { nat_list_cmp_total };

    ghost matches_partial_cmp = { λ x y. refl };

    ghost matches_eq = { texts_ties };

    fn cmp(&self, other: &Self) -> Ordering {
        self.as_slice().cmp(other.as_slice())
    }
}
