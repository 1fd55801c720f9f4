//! A master's leases.
ghost use Rattle.std.specs.Prelude.{◌≡◌, IsTrue};
ghost use Rattle.lease_desk.specs.Desk.{lease_of};

use lease_desk::{Desk, Lease};
use round_works::Failure;
use std::alloc::Global;
use tm_base::{Mem, Page, Stamp};

// A desk at which so many pages are held, from page 1 on.
fn held(alloc: Global, leases: u32) -> Mem<Desk> {
    let mut desk = Desk::new(alloc);
    for at in 0..leases {
        desk.on_grant(Page(at.saturating_add(1)), 1, Stamp(0))?;
    }
    Ok(desk)
}

// The page in the middle.
fn middle(leases: u32) -> Page {
    Page((leases / 2).saturating_add(1))
}

/// Whether the page is the first one in this state.
fn is_found(desk: &Desk, state: Lease, page: Page) -> bool
    ensures { IsTrue result → (lease_of desk.now page.0).state ≡ state }
{
    match desk.next_in(state, 0) {
        Some(found) => found.0 == page.0,
        None => false,
    }
}

/// Finds in each round the one page of so many that is recalled. Gives how often it was found.
pub fn seek(alloc: Global, leases: u32, rounds: u32) -> Result<u32, Failure> {
    let mut desk = held(alloc, leases)?;
    let page = middle(leases);
    desk.on_recall(page, 1);
    let mut sum: u32 = 0;
    for _ in 0..rounds {
        if is_found(&desk, Lease::Recalled, page) {
            sum = sum.saturating_add(1);
        }
    }
    Ok(sum)
}

// The page is recalled, found, given back, found again, and granted at the next epoch.
fn turned(desk: &mut Desk, page: Page, epoch: u32) -> Mem<bool> {
    desk.on_recall(page, epoch);
    let recalled = is_found(desk, Lease::Recalled, page);
    desk.releasing(page);
    let releasing = is_found(desk, Lease::Releasing, page);
    desk.on_released(page, epoch);
    desk.on_grant(page, epoch.saturating_add(1), Stamp(0))?;
    Ok(recalled && releasing)
}

/// In each round one page of so many goes and comes back. Gives how often it was found on its way.
pub fn turn(alloc: Global, leases: u32, rounds: u32) -> Result<u32, Failure> {
    let mut desk = held(alloc, leases)?;
    let page = middle(leases);
    let mut sum: u32 = 0;
    for at in 0..rounds {
        if turned(&mut desk, page, at.saturating_add(1))? {
            sum = sum.saturating_add(1);
        }
    }
    Ok(sum)
}
