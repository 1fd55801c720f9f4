//! The pool.
ghost use Rattle.std.specs.Prelude.{◌≡◌, ◌≤◌, ◌+◌, [], ◌∷◌, length, nat_eq, is_some, true, false, IfErr, IsSome, Some, None, OnOk, OnErr, IfOk, IsErrOf};
ghost use Rattle.buffer_pool.specs.declared.pool.PoolError.TheVariants as PoolError;
ghost use Rattle.std.specs.Map.{lookup, remove_entry};
ghost use Rattle.std.specs.Borrow.{sem};
ghost use Rattle.std.specs.Option.{option_copied};
ghost use Rattle.page_model.specs.Effects.{page_of};
ghost use Rattle.page_model.specs.Pool.{OneEach, pool, image_of, without, used, replaced, last_durable, put_in};
ghost use Rattle.page_redo.specs.Redo.{Answers};
ghost use Rattle.buffer_pool.specs.Change.{change_of};

use lru::LruCache;
use page_redo::{RedoError, apply};
use std::alloc::{AllocFailed, Global};
use std::marker::Model;
use std::num::NonZeroUsize;
use tm_base::{Image, Mem, NoMemory, Page, Record, Stamp};

/// Why an image wasn't put into the pool, which is as it was.
#[derive(Clone, Copy, Debug, PartialEq, Eq)]
pub enum PoolError {
    /// All places are taken by other pages whose last changes aren't durable.
    Full,
    /// Want of memory.
    NoMemory,
}

impl<T: Drop> From<AllocFailed<T>> for PoolError {
    ghost use Rattle.buffer_pool.specs.declared.pool.PoolError.TheVariants.{NoMemory};

    ghost from_gives = { λ _ e. e ≡ NoMemory };

    fn from(_: AllocFailed<T>) -> PoolError {
        PoolError::NoMemory
    }
}

/// Images of so many pages at most, in the order of their last use. Contracts see the list of them, the last
/// used first, and the number of places.
#[derive(Drop)]
pub struct Pool {
    /// The images by the numbers of their pages. It has room for one more than there are places, so that a put
    /// takes its memory before another image goes.
    cache: LruCache<u32, Image>,
    places: usize,
}

impl Model for Pool {
    ghost use Rattle.std.specs.Prelude.{◌≡◌, ◌+◌, ◌≤◌, length};
    ghost use Rattle.page_model.specs.Pool.{OneEach, Pool, pool};
    ghost use Rattle.buffer_pool.specs.Inside.{AreOwn, images_in};

    ghost Value = { Pool };

    ghost view = { λ p. pool (images_in p.cache.entries) p.places };

    ghost invariant = { λ p. (p.cache.cap ≡ p.places + 1) × (length p.cache.entries ≤ p.places) × (1 ≤ p.places) × AreOwn p.cache.entries × OneEach (images_in p.cache.entries) };
}

impl Pool {
    ghost use Rattle.buffer_pool.specs.Lends.{EndsAs};

    /// A pool of so many places, which are free.
    pub fn new(alloc: Global, places: usize) -> Mem<Pool>
        requires { 1 ≤ places }
        ensures { IfOk result (λ p. p ≡ pool [] places) }
    {
        let Some(cap) = places.checked_add(1) else {
            return Err(NoMemory);
        };
        let Some(cap) = NonZeroUsize::new(cap) else {
            return Err(NoMemory);
        };
        Ok(Pool {
            cache: LruCache::sparse(alloc, cap)?,
            places,
        })
    }

    /// The image of a page, which leaves the order of use as it is. Each page has one image at most, and there
    /// are no more images than places.
    #[tactic(auto, using(crate::proofs::PoolLemmas::image_under, crate::proofs::PoolLemmas::images_length))]
    pub fn find(&self, page: Page) -> Option<&Image>
        ensures value { option_copied result ≡ image_of page.0 self.now.images }
        ensures one { OneEach self.now.images }
        ensures fits { length self.now.images ≤ self.now.places }
    {
        self.cache.peek(&page.0)
    }

    /// The image of a page, which is the last used one then.
    #[tactic(auto, using(crate::proofs::PoolLemmas::image_under, crate::proofs::PoolLemmas::used_under, crate::proofs::PoolLemmas::promoted_length, crate::proofs::PoolLemmas::own_promoted, crate::proofs::OneLemmas::one_promoted))]
    pub fn get(&mut self, page: Page) -> Option<&Image>
        ensures value { option_copied result ≡ image_of page.0 self.old.images }
        ensures* order { sem 𝓛 (EndsAs self.entry (used page.0 self.old.images)) }
    {
        self.cache.get(&page.0)
    }

    /// Drops the image of a page, if it is there.
    #[tactic(auto, using(crate::proofs::PoolLemmas::without_under, crate::proofs::PoolLemmas::without_length, crate::proofs::PoolLemmas::own_without, crate::proofs::OneLemmas::one_left))]
    pub fn drop_page(&mut self, page: Page)
        ensures { self.new ≡ pool (without page.0 self.old.images) self.old.places }
    {
        let _ = self.cache.pop(&page.0);
    }

    /// Puts an image into the pool, as the last used one, in place of the one of its page if there is one. Where
    /// all places are taken, the least recently used image goes whose stamp is at most `durable`.
    ///
    /// Refuses `Full` exactly where all places are taken by other pages with greater stamps. With `Full` and
    /// with want of memory nothing changes.
    #[tactic(auto, using(crate::proofs::PoolLemmas::put_held, crate::proofs::PoolLemmas::put_room, crate::proofs::PoolLemmas::put_drops, crate::proofs::PoolLemmas::put_full, crate::proofs::PoolLemmas::victim_held, crate::proofs::PoolLemmas::own_without, crate::proofs::PoolLemmas::held_less, crate::proofs::PoolLemmas::without_length, crate::proofs::OneLemmas::one_entered, crate::proofs::OneLemmas::one_exchanged))]
    pub fn put(&mut self, image: Image, durable: Stamp) -> Result<(), PoolError>
        ensures ok { OnOk result (put_in self.old image durable.0 ≡ Some self.new.images) }
        ensures places { self.new.places ≡ self.old.places }
        ensures full { IsErrOf result PoolError.Full → put_in self.old image durable.0 ≡ None }
        ensures err { OnErr result (self.new ≡ self.old) }
        ensures exactly { put_in self.old image durable.0 ≡ None → IsErrOf result PoolError.Full }
    {
        let page = image.page.0;
        if self.cache.contains(&page) {
            put_with_room(&mut self.cache, image)?;
            return Ok(());
        }
        if self.cache.len() < self.places {
            put_with_room(&mut self.cache, image)?;
            return Ok(());
        }
        let Some(victim) = self.victim(durable) else {
            return Err(PoolError::Full);
        };
        put_in_place_of(&mut self.cache, image, victim)?;
        Ok(())
    }

    /// Applies a record to the image of a page, which becomes the version of that stamp in its place. The order
    /// of use stays as it is.
    ///
    /// Refuses as `apply` does: `WrongPrev` exactly where the record was made on another version, then `Unfit`
    /// exactly where it doesn't suit what the page holds. Nothing changes then, nor with want of memory.
    #[tactic(auto, using(crate::proofs::ChangeLemmas::changed))]
    pub fn change(&mut self, page: Page, change: &Record, stamp: Stamp) -> Result<(), RedoError>
        requires held { IsSome (image_of page.0 self.old.images) }
        requires names { page_of change.now ≡ Some page.0 }
        ensures { Answers result self.old self.new (change_of self.old page.0 change.now stamp.0) }
    {
        let Some(image) = self.cache.peek_mut(&page.0) else {
            return Err(RedoError::Unfit);
        };
        apply(image, change, stamp)?;
        Ok(())
    }

    /// Puts an image into the place of the one of its page, if there is one. The order of use stays as it is. It takes
    /// no memory.
    #[tactic(auto, using(crate::proofs::ChangeLemmas::set_under, crate::proofs::ChangeLemmas::stays_out, crate::proofs::ChangeLemmas::own_set, crate::proofs::ChangeLemmas::set_length, crate::proofs::OneLemmas::one_set))]
    pub fn exchange(&mut self, image: Image)
        ensures { self.new ≡ pool (replaced image self.old.images) self.old.places }
    {
        let page = image.page.0;
        let Some(place) = self.cache.peek_mut(&page) else {
            return;
        };
        *place = image;
    }

    // The least recently used page whose image is durable.
    fn victim(&self, durable: Stamp) -> Option<u32>
        ensures { result ≡ last_durable durable.0 self.now.images }
    {
        for (_, image) in self.cache.iter().rev() {
            if image.stamp.0 <= durable.0 {
                return Some(image.page.0);
            }
        }
        None
    }
}

// There is room for one more image.
#[tactic(auto, using(crate::proofs::PoolLemmas::put_with_room))]
fn put_with_room(cache: &mut LruCache<u32, Image>, image: Image) -> Result<(), PoolError>
    requires { length cache.old.entries + 1 ≤ cache.old.cap }
    ensures ok { OnOk result (cache.new.entries ≡ (image.page.0, image) ∷ remove_entry (nat_eq image.page.0) cache.old.entries) }
    ensures cap { cache.new.cap ≡ cache.old.cap }
    ensures err { OnErr result (cache.new ≡ cache.old) }
    ensures memory { IfErr result (λ e. e ≡ PoolError.NoMemory) }
{
    let page = image.page.0;
    cache.put(page, image)?;
    Ok(())
}

// Another page's image goes.
#[tactic(auto, using(crate::proofs::PoolLemmas::in_place, crate::proofs::PoolLemmas::held_less))]
fn put_in_place_of(
    cache: &mut LruCache<u32, Image>,
    image: Image,
    victim: u32,
) -> Result<(), PoolError>
    requires room { length cache.old.entries + 1 ≤ cache.old.cap }
    requires new { is_some (lookup (nat_eq image.page.0) cache.old.entries) ≡ false }
    requires held { is_some (lookup (nat_eq victim) cache.old.entries) ≡ true }
    ensures ok { OnOk result (cache.new.entries ≡ (image.page.0, image) ∷ remove_entry (nat_eq victim) cache.old.entries) }
    ensures cap { cache.new.cap ≡ cache.old.cap }
    ensures err { OnErr result (cache.new ≡ cache.old) }
    ensures memory { IfErr result (λ e. e ≡ PoolError.NoMemory) }
{
    put_with_room(cache, image)?;
    let _ = cache.pop(&victim);
    Ok(())
}
