//! Pools of one and of two places, over blank pages.
ghost use Rattle.std.specs.Prelude.{◌≡◌, Some};
ghost use Rattle.page_model.specs.Effects.{page_of};

use buffer_pool::{Pool, PoolError};
use page_redo::RedoError;
use std::alloc::Global;
use std::test::Fail;
use tm_base::{Body, Image, Page, Record, RowList, Stamp};

fn blank(page: u32, stamp: u64) -> Image {
    Image {
        page: Page(page),
        stamp: Stamp(stamp),
        body: Body::Blank,
    }
}

/// Whether the pages are held.
fn held(pool: &Pool, pages: [u32; 3]) -> [bool; 3] {
    pages.map(|page| pool.find(Page(page)).is_some())
}

#[test]
fn an_image_goes_once_it_is_durable(rt: HostRuntime) -> Result<(), Fail> {
    let full = Err(PoolError::Full);
    // the page that is put at stamp 9, the stamp that is durable, the answer, and which of pages 1 to 3 are held then
    let puts: [(u32, u64, Result<(), PoolError>, [bool; 3]); 4] = [
        (2, 4, full, [true, false, false]),
        (2, 5, Ok(()), [false, true, false]),
        (3, 8, full, [false, true, false]),
        (2, 8, Ok(()), [false, true, false]),
    ];
    let mut pool = Pool::new(rt.alloc(), 1)?;
    assert_eq!(rt; pool.put(blank(1, 5), Stamp(0)), Ok(()));
    for (page, durable, answer, then) in puts.iter() {
        assert_eq!(rt; pool.put(blank(*page, 9), Stamp(*durable)), *answer);
        assert_eq!(rt; held(&pool, [1, 2, 3]), *then);
    }
    Ok(())
}

#[test]
fn the_least_recently_used_goes_first(rt: HostRuntime) -> Result<(), Fail> {
    let mut pool = Pool::new(rt.alloc(), 2)?;
    for page in 1..3 {
        assert_eq!(rt; pool.put(blank(page, 0), Stamp(0)), Ok(()));
    }
    assert_eq!(rt; pool.get(Page(1)).is_some(), true);
    assert_eq!(rt; pool.find(Page(2)).is_some(), true);
    assert_eq!(rt; pool.put(blank(3, 0), Stamp(0)), Ok(()));
    assert_eq!(rt; held(&pool, [1, 2, 3]), [true, false, true]);
    pool.drop_page(Page(1));
    assert_eq!(rt; held(&pool, [1, 2, 3]), [false, false, true]);
    Ok(())
}

fn made_a_leaf(alloc: Global, page: u32, prev: u64) -> Record
    ensures { page_of result ≡ Some page }
{
    Record::Format {
        page: Page(page),
        prev: Stamp(prev),
        body: Body::Leaf {
            table: 1,
            low: None,
            high: None,
            rows: RowList::new(alloc),
        },
    }
}

#[test]
fn a_change_makes_the_next_version(rt: HostRuntime) -> Result<(), Fail> {
    let late = Err(RedoError::WrongPrev {
        has: Stamp(7),
        wants: Stamp(0),
    });
    let changes: [(u64, Result<(), RedoError>); 2] = [(0, Ok(())), (0, late)];
    let mut pool = Pool::new(rt.alloc(), 1)?;
    assert_eq!(rt; pool.put(blank(1025, 0), Stamp(0)), Ok(()));
    for (prev, answer) in changes.iter() {
        let change = made_a_leaf(rt.alloc(), 1025, *prev);
        assert_eq!(rt; pool.find(Page(1025)).is_some(), true);
        assert_eq!(rt; pool.change(Page(1025), &change, Stamp(7)), *answer);
    }
    assert_eq!(rt;
        pool.find(Page(1025)).map(|image| image.stamp),
        Some(Stamp(7))
    );
    Ok(())
}
