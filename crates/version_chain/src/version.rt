//! Versions made from chains.
ghost use Rattle.std.specs.Prelude.{◌≡◌, true, reverse, map, Some, Ok, IfOk, IfErr};
ghost use Rattle.page_model.specs.Effects.{page_of, prev_of};
ghost use Rattle.page_model.specs.Versions.{version, effect};
ghost use Rattle.version_chain.specs.Answers.{Tells};
ghost use Rattle.version_chain.specs.Inside.{IsChain, AreKept, Leads, IsGap, Stepped, begins, base_of, effects};

use crate::VersionError;
use crate::images::ImageMap;
use crate::spot::{Spot, place_of};
use page_model::Link;
use page_redo::{RedoError, apply, initial, prev_of};
use std::alloc::Global;
use tm_base::{Image, Mem, Page, Stamp, TryCopy};

/// The version of a page at a stamp, by its links and the images that are kept.
pub(crate) fn version_of(
    alloc: Global,
    images: &ImageMap,
    page: Page,
    links: &[Link],
    stamp: Stamp,
) -> Result<Image, VersionError>
    requires chain { IsChain page.0 (reverse links.now) }
    requires kept { AreKept images.now page (reverse links.now) }
    ensures { Tells result (version page (reverse links.now) stamp.0) }
{
    let (path, bottom) = walk(alloc, images, page, links, stamp)?;
    let base = base_of(alloc, images, page, bottom)?;
    fold(page, stamp, path, base)
}

/// The links from that of this stamp down to the first that was made on a version which is there, each made on
/// the version of the next, and the stamp of that version.
fn walk<'a>(
    alloc: Global,
    images: &ImageMap,
    page: Page,
    links: &'a [Link],
    stamp: Stamp,
) -> Result<(Vec<&'a Link>, Stamp), VersionError>
    requires { IsChain page.0 (reverse links.now) }
    ensures made { IfOk result (λ w. version page (reverse links.now) stamp.0 ≡ effects (map (λ link. link.now) w.0.items) (version page (reverse links.now) w.1.0)) }
    ensures leads { IfOk result (λ w. Leads page.0 stamp.0 (map (λ link. link.now) w.0.items) w.1.0) }
    ensures begins { IfOk result (λ w. begins images.now page.0 w.1.0 ≡ true) }
    ensures missing { IfErr result (λ e. IsGap e (version page (reverse links.now) stamp.0)) }
{
    let mut path = Vec::new(alloc);
    let mut rest = links;
    let mut next = stamp;
    while !begins(images, page, next) {
        let Spot::At(at) = place_of(rest, next) else {
            return Err(VersionError::Missing { stamp: next });
        };
        let link = &rest[at];
        let Ok(()) = path.push(link) else {
            return Err(VersionError::NoMemory);
        };
        next = prev_of(&link.change);
        rest = &rest[..at];
    }
    Ok((path, next))
}

/// Whether a page's version at a stamp is there: it is kept, or it is the first image.
fn begins(images: &ImageMap, page: Page, stamp: Stamp) -> bool
    ensures { result ≡ begins images.now page.0 stamp.0 }
{
    stamp.0 == 0 || images.get(page, stamp).is_some()
}

/// A page's version at a stamp where it is there.
fn base_of(alloc: Global, images: &ImageMap, page: Page, stamp: Stamp) -> Mem<Image>
    ensures { IfOk result (λ base. base ≡ base_of images.now page stamp.0) }
{
    let Some(kept) = images.get(page, stamp) else {
        return Ok(initial(alloc, page));
    };
    let base = kept.copy()?;
    Ok(base)
}

/// Applies the records of the path to the image that it leads to, in the order of their stamps.
fn fold(page: Page, stamp: Stamp, path: Vec<&Link>, base: Image) -> Result<Image, VersionError>
    requires own { base.page ≡ page }
    requires leads { Leads page.0 stamp.0 (map (λ link. link.now) path.items) base.stamp.0 }
    ensures { Tells result (effects (map (λ link. link.now) path.entry.items) (Ok base)) }
{
    let mut image = base;
    let mut path = path;
    while let Some(link) = path.pop() {
        step(&mut image, link)?;
    }
    Ok(image)
}

/// Applies the record of a link to the version that it was made on.
fn step(image: &mut Image, link: &Link) -> Result<(), VersionError>
    requires names { page_of link.now.change ≡ Some image.old.page.0 }
    requires next { prev_of link.now.change ≡ image.old.stamp.0 }
    ensures { Stepped result image.old image.new link.now }
{
    match apply(image, &link.change, link.stamp) {
        Ok(()) => Ok(()),
        Err(RedoError::NoMemory) => Err(VersionError::NoMemory),
        Err(_) => Err(VersionError::Unfit { stamp: link.stamp }),
    }
}
