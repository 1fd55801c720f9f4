//! The first version of a page.
ghost use Rattle.std.specs.Prelude.{◌≡◌};
ghost use Rattle.page_model.specs.Effects.{initial, initial_body};

use std::alloc::Global;
use tm_base::{Body, Image, Page, RowList, Stamp};

/// Pages 1 to this one are the roots of the tables of these numbers.
const LAST_ROOT: u32 = 1024;

/// The image of a page that no record has changed yet: an empty leaf with open fences for the root of a
/// table, and else blank. Its stamp is 0. It takes no memory.
pub fn initial(alloc: Global, page: Page) -> Image
    ensures { result ≡ initial page }
{
    Image {
        page,
        stamp: Stamp(0),
        body: initial_body(alloc, page.0),
    }
}

fn initial_body(alloc: Global, page: u32) -> Body
    ensures { result ≡ initial_body page }
{
    if page < 1 || page > LAST_ROOT {
        return Body::Blank;
    }
    Body::Leaf {
        table: page as u16,
        low: None,
        high: None,
        rows: RowList::new(alloc),
    }
}
