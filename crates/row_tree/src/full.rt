//! Which pages a put finds full.
ghost use Rattle.std.specs.Prelude.{◌≡◌, ◌≤◌, IfOk};
ghost use Rattle.std.specs.Option.{option_copied};
ghost use Rattle.page_model.specs.Placed.{size_there};
ghost use Rattle.page_model.specs.Splits.{is_full, full_pages, page_above};
ghost use Rattle.row_tree.specs.Inside.{upward, images_at};

use crate::{Pages, Path};
use std::alloc::Global;
use tm_base::{Body, Image, Key, MAX_IMAGE, Mem, Row, RowList, room, row_size, size};

/// The greatest entry of an inner page has 69 bytes: a key of 64 with its length, and a page.
const MAX_ENTRY: usize = 69;

/// How many bytes the row of that key has, 0 where there is none.
fn present_size(rows: &RowList, key: &Key) -> usize
    ensures value { result ≡ size_there rows.now key.now }
    ensures most { result ≤ 1101 }
{
    rows.size_at(rows.place(key.as_slice()))
}

/// Whether a page is full: a leaf in which the row doesn't fit, or an inner page with less room than
/// one more entry may need. The leaf is searched only where the row would not fit beside all others.
pub fn is_full(row: &Row, image: &Image) -> bool
    ensures { result ≡ is_full row.entry.now image.now.body }
{
    match &image.body {
        Body::Blank => false,
        Body::Leaf { rows, .. } => {
            let whole = size(image).saturating_add(row_size(row));
            whole > MAX_IMAGE && whole > MAX_IMAGE + present_size(rows, &row.key)
        }
        Body::Inner { .. } => room(image) < MAX_ENTRY,
    }
}

/// The pages of a path that split, from the leaf up, and the first one above them that doesn't.
pub(crate) struct FullPages<'a> {
    pub(crate) full: Vec<&'a Image>,
    pub(crate) above: Option<&'a Image>,
}

/// Looks at the pages of a path from the leaf up, until one isn't full.
pub(crate) fn full_pages<'a, P: Pages>(
    alloc: Global,
    pages: &'a P,
    path: &Path,
    row: &Row,
) -> Mem<FullPages<'a>>
    ensures { IfOk result (λ f.
        (images_at f.full.items ≡ full_pages row.entry.now (upward (P.images pages.now) path.now))
        × (option_copied f.above ≡ page_above row.entry.now (upward (P.images pages.now) path.now))) }
{
    let mut full = Vec::new(alloc);
    let steps = path.as_slice();
    let mut left = steps.len();
    while left > 0 {
        left -= 1;
        if let Some(image) = pages.image(steps[left]) {
            if !is_full(row, image) {
                return Ok(FullPages {
                    full,
                    above: Some(image),
                });
            }
            full.push(image)?;
        }
    }
    Ok(FullPages { full, above: None })
}
