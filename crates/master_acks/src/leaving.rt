//! The recalled pages that go, and what is told of each.
ghost use Rattle.std.specs.Prelude.{◌≡◌, ◌++◌, map, IfOk};
ghost use Rattle.master_model.specs.Acks.{stable, to_stores};
ghost use Rattle.master_model.specs.Leases.{left_of, recalled_pages};
ghost use Rattle.master_acks.specs.Inside.{ended_off, goes_with, planned};

use crate::ends::without_ended;
use crate::ticks::stable;
use crate::walk::pages_in;
use lease_desk::Lease;
use master_leases::{left_of, release};
use master_model::Left;
use master_work::WorkState;
use tm_base::{Mem, MessageList, Page, Txn};

/// A page that goes, with what is told of it.
#[derive(Drop)]
pub(crate) struct Leaving {
    pub(crate) page: u32,
    pub(crate) left: Left,
}

/// What is told of a page once the tags of these transactions are gone.
fn left_after(work: &WorkState, ended: &[Txn], page: Page) -> Mem<Left>
    ensures { IfOk result (λ left. left ≡ left_of (ended_off work.now ended.now) page.0) }
{
    let left = left_of(work, page)?;
    let tags = without_ended(left.tags, ended);
    Ok(Left {
        epoch: left.epoch,
        stamp: left.stamp,
        tags,
        vector: left.vector,
    })
}

/// The recalled pages whose last change is durable, with what is told of each once the tags of these transactions are
/// gone.
pub(crate) fn planned(work: &WorkState, ended: &[Txn]) -> Mem<Vec<Leaving>>
    ensures { IfOk result (λ pages. pages.items ≡ planned (ended_off work.now ended.now) (recalled_pages work.now)) }
{
    let durable = work.settled();
    let recalled = pages_in(work.alloc, &work.desk, Lease::Recalled)?;
    let mut pages = Vec::new(work.alloc);
    for page in recalled.as_slice() {
        if work.desk.release_ready(Page(*page), durable) {
            pages.push(Leaving {
                page: *page,
                left: left_after(work, ended, Page(*page))?,
            })?;
        }
    }
    Ok(pages)
}

/// That more is durable, to the three log stores.
fn to_stores(work: &WorkState) -> Mem<MessageList>
    ensures { IfOk result (λ messages. messages ≡ to_stores (stable work.now)) }
{
    let mut messages = MessageList::new(work.alloc);
    messages.push(stable(work, 1))?;
    messages.push(stable(work, 2))?;
    messages.push(stable(work, 3))?;
    Ok(messages)
}

/// That more is durable, to the three log stores, and what is told of the pages that go.
pub(crate) fn told(work: &WorkState, leaving: &[Leaving]) -> Mem<MessageList>
    ensures { IfOk result (λ messages. messages ≡ to_stores (stable work.now) ++ map (goes_with work.now) leaving.now) }
{
    let mut messages = to_stores(work)?;
    for going in leaving {
        messages.push(release(work, Page(going.page), &going.left)?)?;
    }
    Ok(messages)
}
