//! Where a stamp has its place in a chain.
ghost use Rattle.std.specs.Prelude.{◌≡◌, ◌≤◌, length, reverse, take};
ghost use Rattle.page_model.specs.Versions.{last_upto, last_covered};
ghost use Rattle.version_chain.specs.Inside.{Rises, IsPlaceOf, newest_stamp};

use page_model::Link;
use tm_base::{Stamp, Vector};

/// The place of a stamp among links that ascend by stamp, counted from 0.
#[derive(Clone, Copy)]
pub(crate) enum Spot {
    /// The link there has the stamp.
    At(usize),
    /// No link has the stamp, and so many have lesser ones.
    Before(usize),
}

/// Finds a stamp: at the end, where it mostly is, and else by halving.
pub(crate) fn place_of(links: &[Link], stamp: Stamp) -> Spot
    requires { Rises links.now }
    ensures { IsPlaceOf result links.now stamp.0 }
{
    let mut high = links.len();
    if high == 0 {
        return Spot::Before(0);
    }
    let newest = links[high - 1].stamp.0;
    if newest < stamp.0 {
        return Spot::Before(high);
    }
    if newest == stamp.0 {
        return Spot::At(high - 1);
    }
    let mut low = 0;
    while low < high {
        let middle = low + (high - low) / 2;
        let here = links[middle].stamp.0;
        if here == stamp.0 {
            return Spot::At(middle);
        }
        if here < stamp.0 {
            low = middle + 1;
        } else {
            high = middle;
        }
    }
    Spot::Before(low)
}

/// The greatest stamp up to this one, 0 where there is none.
pub(crate) fn last_upto(links: &[Link], stamp: Stamp) -> Stamp
    requires { Rises links.now }
    ensures { result.0 ≡ last_upto (reverse links.now) stamp.0 }
{
    match place_of(links, stamp) {
        Spot::At(_) => stamp,
        Spot::Before(at) => last_before(links, at),
    }
}

/// The stamp of the link in front of a place, 0 where there is none.
fn last_before(links: &[Link], at: usize) -> Stamp
    requires { at ≤ length links.now }
    ensures { result.0 ≡ newest_stamp (reverse (take at links.now)) }
{
    if at == 0 {
        return Stamp(0);
    }
    links[at - 1].stamp
}

/// The greatest stamp that a cut covers, 0 where there is none.
pub(crate) fn last_covered(links: &[Link], cut: &Vector) -> Stamp
    ensures { result.0 ≡ last_covered (reverse links.now) cut.now }
{
    let mut at = links.len();
    while at > 0 {
        at -= 1;
        let link = &links[at];
        if link.stamp.0 <= cut.get(link.writer).0 {
            return link.stamp;
        }
    }
    Stamp(0)
}
