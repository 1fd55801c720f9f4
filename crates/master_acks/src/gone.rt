//! The pages that go are given back. It takes no memory.
ghost use Rattle.std.specs.Prelude.{◌≡◌, ◌≤◌, length};
ghost use Rattle.master_acks.specs.Inside.{cleared_each, cut_each, drawn_each, left_each, released_each};

use crate::leaving::Leaving;
use buffer_pool::Pool;
use lease_desk::Desk;
use lock_table::Tags;
use master_model::Left;
use master_parts::{NumberTable, Stock};
use master_work::drop_tags;
use tm_base::Page;

/// Their leases are being given back.
pub(crate) fn release_each(desk: &mut Desk, leaving: &[Leaving])
    ensures { desk.new ≡ released_each desk.old leaving.now }
{
    for going in leaving {
        desk.releasing(Page(going.page));
    }
}

/// Their images leave the pool.
pub(crate) fn clear_each(pool: &mut Pool, leaving: &[Leaving])
    ensures { pool.new ≡ cleared_each pool.old leaving.now }
{
    for going in leaving {
        pool.drop_page(Page(going.page));
    }
}

/// Their tags go.
pub(crate) fn cut_each(tags: &mut Tags, leaving: &[Leaving])
    ensures { tags.new ≡ cut_each tags.old leaving.now }
{
    for going in leaving {
        drop_tags(tags, Page(going.page));
    }
}

/// They leave the stock of fresh pages.
pub(crate) fn draw_each(stock: &mut Stock, leaving: &[Leaving])
    ensures { stock.new ≡ drawn_each stock.old leaving.now }
{
    for going in leaving {
        stock.remove(Page(going.page));
    }
}

/// What is told of them is kept. There is room for it.
pub(crate) fn keep_each(left: &mut NumberTable<Left>, leaving: Vec<Leaving>)
    requires { length leaving.items ≤ left.old.room }
    ensures { left.new.map ≡ left_each left.old.map leaving.items }
{
    for going in leaving {
        left.insert(going.page, going.left);
    }
}
