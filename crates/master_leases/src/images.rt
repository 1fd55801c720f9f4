//! Images that come into the pool.
ghost use Rattle.std.specs.Prelude.{◌≡◌, [], OnOk, OnErr};
ghost use Rattle.page_model.specs.Pool.{image_of};
ghost use Rattle.master_model.specs.Leases.{is_wanted, on_page, with_image};
ghost use Rattle.master_leases.specs.Inside.{with_put};

use buffer_pool::{Pool, PoolError};
use lease_desk::Lease;
use master_work::WorkState;
use tm_base::{Image, Mem, NoMemory, Stamp, TryCopy};

/// Puts an image into the pool, unless all places are taken by images whose stamps are above `durable`. With want of
/// memory nothing changes.
pub(crate) fn put_or_leave(pool: &mut Pool, image: Image, durable: Stamp) -> Mem<()>
    ensures ok { OnOk result (pool.new ≡ with_put pool.old image durable.0) }
    ensures err { OnErr result (pool.new ≡ pool.old) }
{
    match pool.put(image, durable) {
        Ok(()) => Ok(()),
        Err(PoolError::Full) => Ok(()),
        Err(PoolError::NoMemory) => Err(NoMemory),
    }
}

/// Puts an image into the pool, unless all places are taken by images that aren't durable. With want of memory nothing
/// changes.
#[tactic(auto, using(crate::proofs::ImageLemmas::image_put))]
pub fn put_image(work: &mut WorkState, image: Image) -> Mem<()>
    ensures ok { OnOk result (work.new ≡ with_image work.old image) }
    ensures err { OnErr result (work.new ≡ work.old) }
{
    let durable = work.settled();
    put_or_leave(&mut work.pool, image, durable)?;
    Ok(())
}

/// Whether an image is one that was asked for: the page is held, has no image here, and the image is that of its last
/// change.
fn is_wanted(work: &WorkState, image: &Image) -> bool
    ensures { result ≡ is_wanted work.now image.now (image_of image.now.page.0 work.now.pool.images) }
{
    if work.pool.find(image.page).is_some() {
        return false;
    }
    if !matches!(work.desk.state(image.page), Lease::Held) {
        return false;
    }
    image.stamp.0 == work.desk.stamp(image.page).0
}

/// An image came that was asked for, or a late one, which is ignored. With want of memory nothing changes.
pub fn on_page(work: &mut WorkState, image: &Image) -> Mem<()>
    ensures ok { OnOk result ((work.new, []) ≡ on_page work.old image.now) }
    ensures err { OnErr result (work.new ≡ work.old) }
{
    if !is_wanted(work, image) {
        return Ok(());
    }
    put_image(work, image.copy()?)?;
    Ok(())
}
