//! Where images come from.
ghost use Rattle.std.specs.Prelude.{◌≡◌, ℕ, Option};
ghost use Rattle.std.specs.Option.{option_copied};
ghost use Rattle.tm_data.specs.declared.image.Image.{Image};

use tm_base::{Image, Page};

/// Pages in memory: a set of images, at most one for each page. Contracts see the set as a function from
/// a page's number to its image.
pub trait Pages {
    ghost images: { Self → ℕ → Option Image };

    /// The image of a page, if it is here. It takes no memory.
    fn image(&self, page: Page) -> Option<&Image>
        ensures { option_copied result ≡ images self.now page.0 };
}
