//! Fresh pages that come.
ghost use Rattle.std.specs.Prelude.{◌≡◌, ◌+◌, ◌++◌, ◌∷◌, [], OnOk, OnErr};
ghost use Rattle.lease_desk.specs.Desk.{granted, lease_of};
ghost use Rattle.master_model.specs.Leases.{on_fresh, takes_fresh};

use crate::images::put_or_leave;
use lease_desk::Desk;
use master_parts::Stock;
use master_work::WorkState;
use tm_base::{Body, Image, Mem, NoMemory, Page, Stamp};

/// A page of which nothing was seen here is held at epoch 1, and comes into the stock. With want of memory nothing
/// changes.
fn hold(desk: &mut Desk, stock: &mut Stock, page: Page) -> Mem<()>
    ensures desk { OnOk result (desk.new ≡ granted desk.old page.0 1 (record { 0 = 0 })) }
    ensures stock { OnOk result (stock.new ≡ stock.old ++ page ∷ []) }
    ensures err { OnErr result ((desk.new ≡ desk.old) × (stock.new ≡ stock.old)) }
{
    stock.push(page)?;
    if desk.on_grant(page, 1, Stamp(0)).is_err() {
        stock.take_back();
        return Err(NoMemory);
    }
    Ok(())
}

/// A page that no table uses comes. With want of memory nothing changes.
#[tactic(auto, using(crate::proofs::LeaseLemmas::granted_held, crate::proofs::LeaseLemmas::back_again, crate::proofs::ImageLemmas::image_put))]
fn take(work: &mut WorkState, page: Page, count: u32) -> Mem<()>
    requires fresh { count ≡ work.old.fresh + 1 }
    requires unseen { (lease_of work.old.leases page.0).epoch ≡ 0 }
    ensures ok { OnOk result (work.new ≡ takes_fresh work.old page) }
    ensures err { OnErr result (work.new ≡ work.old) }
{
    let blank = Image {
        page,
        stamp: Stamp(0),
        body: Body::Blank,
    };
    let durable = work.settled();
    let kept = work.desk.kept(page);
    hold(&mut work.desk, &mut work.stock, page)?;
    if put_or_leave(&mut work.pool, blank, durable).is_err() {
        work.desk.take_back(page, kept);
        work.stock.take_back();
        return Err(NoMemory);
    }
    work.fresh = count;
    work.spent = false;
    Ok(())
}

/// The answer to the request for a fresh page of that number came: a page, or none where none is left. Only the answer
/// to the next request counts. With want of memory nothing changes.
pub fn on_fresh(work: &mut WorkState, nth: u32, page: Option<Page>) -> Mem<()>
    ensures ok { OnOk result ((work.new, []) ≡ on_fresh work.old nth page) }
    ensures err { OnErr result (work.new ≡ work.old) }
{
    if nth == 0 || nth - 1 != work.fresh {
        return Ok(());
    }
    let Some(page) = page else {
        work.fresh = nth;
        work.spent = true;
        return Ok(());
    };
    if page.0 <= 1024 || work.desk.epoch(page) != 0 {
        return Ok(());
    }
    take(work, page, nth)?;
    Ok(())
}
