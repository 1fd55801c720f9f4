//! What is true of every pool: laws over the definitions alone. A law is the contract of a function that does
//! nothing: a caller that calls it has the law among its facts.
ghost use Rattle.std.specs.Prelude.{◌≡◌, ◌≢◌, ◌≤◌, ◌<◌, ◌↔◌, ℕ, List, length, Some, None};
ghost use Rattle.std.specs.List.{AllByRecursion};
ghost use Rattle.tm_data.specs.declared.image.Image.{Image};
ghost use Rattle.page_model.specs.Pool.{Pool, OneEach, image_of, without, used, replaced, put_in};

/// Each page has at most one image in a pool, whatever is done with it.
pub fn each_page_has_one_image()
    ensures put { (p : Pool) (image : Image) (durable : ℕ) (images : List Image)
        → OneEach p.images → put_in p image durable ≡ Some images → OneEach images }
    ensures used { (page : ℕ) (images : List Image) → OneEach images → OneEach (used page images) }
    ensures dropped { (page : ℕ) (images : List Image) → OneEach images → OneEach (without page images) }
    ensures changed { (image : Image) (images : List Image) → OneEach images → OneEach (replaced image images) }
{}

/// A put drops no image of another page whose stamp is above `durable`: its last change could be lost.
pub fn a_put_drops_only_what_is_durable()
    ensures { (p : Pool) (image kept : Image) (durable : ℕ) (images : List Image)
        → OneEach p.images → put_in p image durable ≡ Some images → kept.page.0 ≢ image.page.0 → durable < kept.stamp.0
        → image_of kept.page.0 p.images ≡ Some kept → image_of kept.page.0 images ≡ Some kept }
{}

/// A put finds no place exactly where all places are taken by other pages whose stamps are above `durable`, and
/// where it does, there are no more images than places.
pub fn a_put_finds_a_place()
    ensures full { (p : Pool) (image : Image) (durable : ℕ)
        → put_in p image durable ≡ None ↔ (image_of image.page.0 p.images ≡ None × p.places ≤ length p.images
        × AllByRecursion (λ (i : Image). durable < i.stamp.0) p.images) }
    ensures fits { (p : Pool) (image : Image) (durable : ℕ) (images : List Image)
        → length p.images ≤ p.places → put_in p image durable ≡ Some images → length images ≤ p.places }
    ensures there { (p : Pool) (image : Image) (durable : ℕ) (images : List Image)
        → put_in p image durable ≡ Some images → image_of image.page.0 images ≡ Some image }
{}
