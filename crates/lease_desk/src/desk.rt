//! The desk at which a master's leases lie.
ghost use Rattle.std.specs.Prelude.{◌≡◌, ◌<◌, ◌↔◌, IsTrue, IfOk, OnOk, OnErr};
ghost use Rattle.std.specs.FinMap.{empty};
ghost use Rattle.std.specs.Prelude.{◌≤◌, ◌^◌, ℕ, true, IsSome, nat_eq};
ghost use Rattle.std.specs.FinMap as map;
ghost use Rattle.lease_desk.specs.declared.lease.Lease.TheVariants as lease;
ghost use Rattle.std.specs.Prelude.{◌+◌, length};
ghost use Rattle.lease_desk.specs.Inside.{has_rank, is_in, IsNextRanked, key, Slots};
ghost use Rattle.lease_desk.specs.Desk.{lease_of, granted, recalled, changed, releasing, released, restored, is_ready, IsNext, PagesFit};

use crate::held_pages::HeldPages;
use crate::key_set::KeySet;
use crate::lease_map::LeaseMap;
use crate::{Lease, PageLease};
use std::alloc::Global;
use std::marker::Model;
use tm_base::{Mem, NoMemory, Page, Stamp};

/// The leases of a master. Contracts see a finite map from page to what is kept of it.
///
/// A call for a page whose state or epoch isn't the one that the call speaks of changes nothing.
///
/// Beside the leases it keeps the pages that are leased by the state of their lease, so that the next page
/// in a state is found without a walk over the others: those that are held, and apart from these the few that
/// are going. Only a grant takes memory: with each page that is held there is room for it among those that are
/// going.
#[derive(Drop)]
pub struct Desk {
    leases: LeaseMap,
    held: HeldPages,
    going: KeySet,
}

impl Model for Desk {
    ghost use Rattle.lease_desk.specs.Desk.{Leases, coded_leases};
    ghost use Rattle.lease_desk.specs.Inside.{HasRoom, IsIndexed};

    ghost Value = { Leases };

    ghost coded = { coded_leases };

    ghost view = { λ d. d.leases };

    ghost invariant = { λ d. IsIndexed d.leases d.held d.going.numbers × HasRoom d.held d.going };
}

// The ranks of the states, by which the pages that are going are kept.
const RECALLED: u64 = 1;

const RELEASING: u64 = 2;

/// The number under which a page is kept with those that are going.
fn key_of(rank: u64, page: u32) -> u64
    requires { rank ≤ 3 }
    ensures { result ≡ key rank page }
{
    rank * 4294967296 + page as u64
}

/// How many pages are leased with one more.
fn one_more(held: usize, going: usize) -> Mem<usize>
    ensures { IfOk result (λ count. count ≡ held + going + 1) }
{
    let Some(count) = held.checked_add(going) else {
        return Err(NoMemory);
    };
    let Some(count) = count.checked_add(1) else {
        return Err(NoMemory);
    };
    Ok(count)
}

impl Desk {
    /// No leases.
    pub fn new(alloc: Global) -> Desk
        ensures { result ≡ empty }
    {
        Desk {
            leases: LeaseMap::new(alloc),
            held: HeldPages::new(alloc),
            going: KeySet::new(alloc),
        }
    }

    /// How far the lease of a page has come.
    pub fn state(&self, page: Page) -> Lease
        ensures { result ≡ (lease_of self.now page.0).state }
    {
        match self.leases.get(page.0) {
            Some(lease) => lease.state,
            None => Lease::None,
        }
    }

    /// The stamp of the page's last change that is known here, 0 where there is none.
    pub fn stamp(&self, page: Page) -> Stamp
        ensures { result ≡ (lease_of self.now page.0).stamp }
    {
        match self.leases.get(page.0) {
            Some(lease) => lease.stamp,
            None => Stamp(0),
        }
    }

    /// The greatest epoch that was seen here for the page, 0 where there was none.
    pub fn epoch(&self, page: Page) -> u32
        ensures { result ≡ (lease_of self.now page.0).epoch }
    {
        match self.leases.get(page.0) {
            Some(lease) => lease.epoch,
            None => 0,
        }
    }

    /// A grant came, of a page with this stamp. It counts exactly where its epoch is above every epoch
    /// that was seen here for the page: then the page is held, and the answer is true. With want of
    /// memory nothing changes.
    pub fn on_grant(&mut self, page: Page, epoch: u32, stamp: Stamp) -> Mem<bool>
        ensures new { IfOk result (λ new. IsTrue new ↔ ((lease_of self.old page.0).epoch < epoch)) }
        ensures ok { OnOk result (self.new ≡ granted self.old page.0 epoch stamp) }
        ensures err { OnErr result (self.new ≡ self.old) }
    {
        if epoch <= self.epoch(page) {
            return Ok(false);
        }
        let lease = PageLease {
            epoch,
            state: Lease::Held,
            stamp,
        };
        match self.state(page) {
            Lease::None => self.begin(page.0, lease)?,
            Lease::Held => self.keep(page.0, lease),
            Lease::Recalled => self.come_back(page.0, lease, RECALLED)?,
            Lease::Releasing => self.come_back(page.0, lease, RELEASING)?,
        }
        Ok(true)
    }

    /// The page is asked back: it is recalled if it is held at this epoch.
    pub fn on_recall(&mut self, page: Page, epoch: u32)
        ensures { self.new ≡ recalled self.old page.0 epoch }
    {
        let Some(lease) = self.leases.get(page.0) else {
            return;
        };
        if matches!(lease.state, Lease::Held) && lease.epoch == epoch {
            let lease = PageLease {
                epoch: lease.epoch,
                state: Lease::Recalled,
                stamp: lease.stamp,
            };
            self.go(page.0, lease, RECALLED);
        }
    }

    /// The page was changed at this stamp, if it is held.
    pub fn changed(&mut self, page: Page, stamp: Stamp)
        ensures { self.new ≡ changed self.old page.0 stamp }
    {
        let Some(lease) = self.leases.get(page.0) else {
            return;
        };
        if matches!(lease.state, Lease::Held) {
            let lease = PageLease {
                epoch: lease.epoch,
                state: lease.state,
                stamp,
            };
            self.keep(page.0, lease);
        }
    }

    /// Whether the page is recalled and its last change is durable, `durable` being the stamp up to
    /// which every change here is.
    pub fn release_ready(&self, page: Page, durable: Stamp) -> bool
        ensures { result ≡ is_ready (lease_of self.now page.0) durable.0 }
    {
        match self.leases.get(page.0) {
            Some(lease) => matches!(lease.state, Lease::Recalled) && lease.stamp.0 <= durable.0,
            None => false,
        }
    }

    /// The page is given back, if it is recalled.
    pub fn releasing(&mut self, page: Page)
        ensures { self.new ≡ releasing self.old page.0 }
    {
        let Some(lease) = self.leases.get(page.0) else {
            return;
        };
        if matches!(lease.state, Lease::Recalled) {
            let lease = PageLease {
                epoch: lease.epoch,
                state: Lease::Releasing,
                stamp: lease.stamp,
            };
            self.give_back(page.0, lease);
        }
    }

    /// The giving back is acknowledged: the lease is over if it is being released at this epoch.
    pub fn on_released(&mut self, page: Page, epoch: u32)
        ensures { self.new ≡ released self.old page.0 epoch }
    {
        let Some(lease) = self.leases.get(page.0) else {
            return;
        };
        if matches!(lease.state, Lease::Releasing) && lease.epoch == epoch {
            let lease = PageLease {
                epoch: lease.epoch,
                state: Lease::None,
                stamp: lease.stamp,
            };
            self.end(page.0, lease);
        }
    }

    /// Takes a grant back: what was kept of the held page before it, if anything was, is kept again. It takes no
    /// memory.
    pub fn take_back(&mut self, page: Page, kept: Option<PageLease>)
        requires { (lease_of self.old page.0).state ≡ lease.Held }
        ensures { self.new ≡ restored self.old page.0 kept }
    {
        let Some(kept) = kept else {
            self.forget(page.0);
            return;
        };
        match kept.state {
            Lease::None => self.leave(page.0, kept),
            Lease::Held => self.keep(page.0, kept),
            Lease::Recalled => self.go(page.0, kept, RECALLED),
            Lease::Releasing => self.go(page.0, kept, RELEASING),
        }
    }

    /// What is kept of a page, if it was ever granted here.
    pub fn kept(&self, page: Page) -> Option<PageLease>
        ensures { result ≡ map.get self.now page.0 }
    {
        self.leases.get(page.0)
    }

    /// The least page with a number above `after` whose lease is in this state. It is found by halving; one
    /// without a lease is found by counting past the leased pages behind `after`. No page with a greater number than
    /// such as it can find is kept here, so none means that no further page is in a state of a lease.
    pub fn next_in(&self, state: Lease, after: u32) -> Option<Page>
        ensures next { IsNext self.now state after result }
        ensures fits { PagesFit self.now }
    {
        self.leases.pages_fit();
        if matches!(state, Lease::Held) {
            return self.next_held(after);
        }
        if matches!(state, Lease::Recalled) {
            return self.next_ranked(RECALLED, after);
        }
        if matches!(state, Lease::Releasing) {
            return self.next_ranked(RELEASING, after);
        }
        self.next_free(after)
    }

    /// The least page above `after` that is held.
    fn next_held(&self, after: u32) -> Option<Page>
        ensures { IsNextRanked self.now 0 after result }
    {
        let page = self.held.first_above(after)?;
        Some(Page(page))
    }

    /// The least page above `after` that is going, by the rank of its lease's state.
    fn next_ranked(&self, rank: u64, after: u32) -> Option<Page>
        requires going { 1 ≤ rank }
        requires ranks { rank < 3 }
        ensures { IsNextRanked self.now rank after result }
    {
        let found = self.going.first_from(key_of(rank, after) + 1)?;
        if found >= key_of(rank + 1, 0) {
            return None;
        }
        Some(Page((found - key_of(rank, 0)) as u32))
    }

    /// The least page above `after` that has no lease.
    fn next_free(&self, after: u32) -> Option<Page>
        ensures { IsNext self.now Lease.None after result }
    {
        let mut at = after;
        while at < u32::MAX {
            at += 1;
            if matches!(self.state(Page(at)), Lease::None) {
                return Some(Page(at));
            }
        }
        None
    }

    /// A page that has no lease is held. With want of memory nothing changes.
    fn begin(&mut self, page: u32, kept: PageLease) -> Mem<()>
        requires free { (lease_of self.old page).state ≡ lease.None }
        requires held { kept.state ≡ lease.Held }
        ensures ok { OnOk result (self.new ≡ map.insert self.old page kept) }
        ensures err { OnErr result (self.new ≡ self.old) }
    {
        let count = one_more(self.held.len(), self.going.len())?;
        self.going.make_room(count)?;
        self.held.add(page)?;
        if self.leases.put(page, kept).is_err() {
            self.held.remove(page);
            return Err(NoMemory);
        }
        Ok(())
    }

    /// A leased page stays in its state.
    fn keep(&mut self, page: u32, kept: PageLease)
        requires there { IsSome (map.get self.old page) }
        requires same { kept.state ≡ (lease_of self.old page).state }
        ensures { self.new ≡ map.insert self.old page kept }
    {
        self.leases.set(page, kept);
    }

    /// A held page goes, to a state of this rank.
    fn go(&mut self, page: u32, kept: PageLease, to: u64)
        requires going { (1 ≤ to) × (to < 3) }
        requires old { (lease_of self.old page).state ≡ lease.Held }
        requires new { (rank : ℕ) → has_rank kept.state rank ≡ nat_eq rank to }
        ensures { self.new ≡ map.insert self.old page kept }
    {
        self.held.remove(page);
        self.going.add(key_of(to, page));
        self.leases.set(page, kept);
    }

    /// A held page has no lease any more.
    fn leave(&mut self, page: u32, kept: PageLease)
        requires old { (lease_of self.old page).state ≡ lease.Held }
        requires new { kept.state ≡ lease.None }
        ensures { self.new ≡ map.insert self.old page kept }
    {
        self.held.remove(page);
        self.leases.set(page, kept);
    }

    /// A held page was never granted here.
    fn forget(&mut self, page: u32)
        requires { (lease_of self.old page).state ≡ lease.Held }
        ensures { self.new ≡ map.remove self.old page }
    {
        self.held.remove(page);
        self.leases.forget(page);
    }

    /// A recalled page is being released.
    fn give_back(&mut self, page: u32, kept: PageLease)
        requires old { (lease_of self.old page).state ≡ lease.Recalled }
        requires new { kept.state ≡ lease.Releasing }
        ensures { self.new ≡ map.insert self.old page kept }
    {
        self.going.remove(key_of(RECALLED, page));
        self.going.add(key_of(RELEASING, page));
        self.leases.set(page, kept);
    }

    /// A page that is going is held again. With want of memory nothing changes.
    fn come_back(&mut self, page: u32, kept: PageLease, from: u64) -> Mem<()>
        requires going { (1 ≤ from) × (from < 3) }
        requires old { (rank : ℕ) → has_rank (lease_of self.old page).state rank ≡ nat_eq rank from }
        requires new { kept.state ≡ lease.Held }
        ensures ok { OnOk result (self.new ≡ map.insert self.old page kept) }
        ensures err { OnErr result (self.new ≡ self.old) }
    {
        self.held.add(page)?;
        self.going.remove(key_of(from, page));
        self.leases.set(page, kept);
        Ok(())
    }

    /// The lease of a page that is being released is over.
    fn end(&mut self, page: u32, kept: PageLease)
        requires old { (lease_of self.old page).state ≡ lease.Releasing }
        requires new { kept.state ≡ lease.None }
        ensures { self.new ≡ map.insert self.old page kept }
    {
        self.going.remove(key_of(RELEASING, page));
        self.leases.set(page, kept);
    }
}
