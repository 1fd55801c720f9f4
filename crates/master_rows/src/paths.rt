//! The way to the leaf of a key, and what is asked for where a page of it is wanting.
ghost use Rattle.std.specs.Prelude.{◌≡◌, None, IfOk};
ghost use Rattle.std.specs.Option.{option_copied};
ghost use Rattle.page_model.specs.Splits.{images_on};
ghost use Rattle.page_model.specs.Tree.{path_of};
ghost use Rattle.master_model.specs.Paths.{here, last_of, row_at, used_all, uses, wants};
ghost use Rattle.master_work.specs.Answers.{answered};
ghost use Rattle.master_rows.specs.Ways.{Finds, leads};

use buffer_pool::Pool;
use lease_desk::Lease;
use master_work::{Answer, WorkState};
use row_tree::{FindError, Pages, Path, find};
use tm_base::{Body, Image, Key, KeyPlace, Mem, NoMemory, Note, Page, Reply, Row};

/// The answer to a command for which a page is wanting: `AgainPage`. The lease of the page is asked for where there is
/// none, its image where it is held, and nothing where it is on its way back.
pub fn wants(work: &WorkState, page: Page) -> Mem<Answer>
    ensures { IfOk result (λ a. answered work.now a ≡ wants work.now page) }
{
    let reply = Reply::AgainPage { page };
    match work.desk.state(page) {
        Lease::None => {
            let writer = work.writer();
            let answer = work.answers(reply, work.to_locks(Note::Request { writer, page }))?;
            Ok(answer)
        }
        Lease::Held => {
            let answer = work.answers(reply, work.read_page(page))?;
            Ok(answer)
        }
        Lease::Recalled => Ok(work.says(reply)),
        Lease::Releasing => Ok(work.says(reply)),
    }
}

/// The way to a key.
#[derive(Drop)]
pub struct Way<'a> {
    /// The pages of its path, root first.
    pub path: Path,
    /// The image of the leaf at which that ends.
    pub leaf: &'a Image,
}

/// The path of a key among the pages that are here, or the first page of it that isn't.
fn path_of(work: &WorkState, table: u16, key: &Key) -> Mem<Result<Path, Page>>
    ensures { IfOk result (λ found. found ≡ path_of (here work.now) table key.now) }
{
    match find(work.alloc, work, table, key) {
        Ok(path) => Ok(Ok(path)),
        Err(FindError::Need { page }) => Ok(Err(page)),
        Err(FindError::NoMemory) => Err(NoMemory),
    }
}

/// The image of the last page of a path that is here.
fn leaf_of<'a>(work: &'a WorkState, path: &Path) -> Option<&'a Image>
    ensures { option_copied result ≡ last_of None (images_on (here work.now) path.now) }
{
    let pages = path.as_slice();
    for at in (0..pages.len()).rev() {
        if let Some(image) = work.image(pages[at]) {
            return Some(image);
        }
    }
    None
}

/// The way to a key among the pages that are here, or the first page of it that isn't: a command asks for that one by
/// [`wants`].
pub fn walk<'a>(work: &'a WorkState, table: u16, key: &Key) -> Mem<Result<Way<'a>, Page>>
    ensures { IfOk result (λ way. Finds way (leads work.now table key.now)) }
{
    let path = match path_of(work, table, key)? {
        Ok(path) => path,
        Err(page) => return Ok(Err(page)),
    };
    let Some(leaf) = leaf_of(work, &path) else {
        return Ok(Err(Page(0)));
    };
    Ok(Ok(Way { path, leaf }))
}

/// Uses each of some pages once, in order.
fn use_all(pool: &mut Pool, pages: &[Page])
    ensures { pool.new ≡ record pool.old { images = used_all pages.now pool.old.images } }
{
    for page in pages {
        let _ = pool.get(*page);
    }
}

/// Uses each page of a path once, root first. It takes no memory.
pub fn use_path(work: &mut WorkState, path: &Path)
    ensures { work.new ≡ uses work.old path.now }
{
    use_all(&mut work.pool, path.as_slice());
}

/// The row of a key in a leaf, which is found by halving.
pub fn row_at<'a>(leaf: &'a Image, key: &Key) -> Option<&'a Row>
    ensures { option_copied result ≡ row_at leaf.now key.now }
{
    let Body::Leaf { rows, .. } = &leaf.body else {
        return None;
    };
    // the slice tells that the rows ascend
    let _ = rows.as_slice();
    let KeyPlace::At(at) = rows.place(key.as_slice()) else {
        return None;
    };
    rows.get(at)
}
