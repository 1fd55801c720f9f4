//! Pages that are asked back, and releases that are acknowledged.
ghost use Rattle.std.specs.Prelude.{◌≡◌, ◌∷◌, [], IfOk, OnErr};
ghost use Rattle.master_model.specs.Leases.{again, on_recall, on_recall_in, on_released};
ghost use Rattle.std.specs.FinMap as fin;
ghost use Rattle.lease_desk.specs.Desk.{lease_of};
ghost use Rattle.lease_desk.specs.declared.lease.Lease.TheVariants as lease;

use crate::releases::{left_of, release};
use lease_desk::Lease;
use master_work::{WorkState, drop_tags};
use tm_base::{Mem, MessageList, Page};

/// A held page is asked back: it goes at once where its last change is durable. With want of memory nothing changes.
fn recall_held(work: &mut WorkState, page: Page, epoch: u32) -> Mem<MessageList>
    requires held { (lease_of work.old.leases page.0).state ≡ lease.Held }
    requires epoch { (lease_of work.old.leases page.0).epoch ≡ epoch }
    ensures ok { IfOk result (λ messages. (work.new, messages) ≡ on_recall_in work.old page.0 epoch lease.Held) }
    ensures err { OnErr result (work.new ≡ work.old) }
{
    let mut messages = MessageList::new(work.alloc);
    if work.settled().0 < work.desk.stamp(page).0 {
        work.desk.on_recall(page, epoch);
        return Ok(messages);
    }
    let left = left_of(work, page)?;
    messages.push(release(work, page, &left)?)?;
    work.left.make_room(1)?;
    work.desk.on_recall(page, epoch);
    work.desk.releasing(page);
    work.left.insert(page.0, left);
    work.pool.drop_page(page);
    drop_tags(&mut work.tags, page);
    work.stock.remove(page);
    Ok(messages)
}

/// What was told of a page that is being given back, once more.
pub fn again(work: &WorkState, page: Page) -> Mem<MessageList>
    ensures { IfOk result (λ messages. messages ≡ again work.now page.0 (fin.get work.now.left page.0)) }
{
    let mut messages = MessageList::new(work.alloc);
    if let Some(left) = work.left.get(page.0) {
        messages.push(release(work, page, left)?)?;
    }
    Ok(messages)
}

/// A page is asked back at an epoch. One that is being given back is told of once more. With want of memory nothing
/// changes.
pub fn on_recall(work: &mut WorkState, page: Page, epoch: u32) -> Mem<MessageList>
    ensures ok { IfOk result (λ messages. (work.new, messages) ≡ on_recall work.old page.0 epoch) }
    ensures err { OnErr result (work.new ≡ work.old) }
{
    if work.desk.epoch(page) != epoch {
        return Ok(MessageList::new(work.alloc));
    }
    match work.desk.state(page) {
        Lease::Held => {
            let messages = recall_held(work, page, epoch)?;
            Ok(messages)
        }
        Lease::Releasing => {
            let messages = again(work, page)?;
            Ok(messages)
        }
        Lease::Recalled => Ok(MessageList::new(work.alloc)),
        Lease::None => Ok(MessageList::new(work.alloc)),
    }
}

/// The release of an epoch is acknowledged: the lease is over, and what was told is forgotten. It takes no memory.
pub fn on_released(work: &mut WorkState, page: Page, epoch: u32)
    ensures { (work.new, []) ≡ on_released work.old page.0 epoch }
{
    if !matches!(work.desk.state(page), Lease::Releasing) {
        return;
    }
    if work.desk.epoch(page) != epoch {
        return;
    }
    work.desk.on_released(page, epoch);
    work.left.remove(page.0);
}
