//! Leases by page.
ghost use Rattle.std.specs.Prelude.{◌≡◌, OnOk, OnErr, IsSome, None};
ghost use Rattle.std.specs.Option.{option_copied};
ghost use Rattle.std.specs.FinMap.{empty};
ghost use Rattle.lease_desk.specs.Desk.{Leases, PagesFit};
ghost use Rattle.std.specs.FinMap as map;

use crate::PageLease;
use std::alloc::Global;
use std::collections::BTreeMap;
use std::marker::Model;
use tm_base::{Mem, NoMemory};

/// The lease of each page that was ever granted here. Contracts see a finite map.
#[derive(Drop)]
pub(crate) struct LeaseMap {
    leases: BTreeMap<u32, PageLease>,
}

impl Model for LeaseMap {
    ghost use Rattle.std.specs.FinMap.{from_entries};
    ghost use Rattle.lease_desk.specs.Desk.{Leases, coded_leases, PagesFit};

    ghost Value = { Leases };

    ghost coded = { coded_leases };

    ghost view = { λ m. from_entries m.leases.entries };

    ghost invariant = { λ m. PagesFit (from_entries m.leases.entries) };
}

impl LeaseMap {
    /// No leases.
    pub(crate) fn new(alloc: Global) -> LeaseMap
        ensures { result ≡ empty }
    {
        LeaseMap {
            leases: BTreeMap::new(alloc),
        }
    }

    /// What is kept of a page, if it was ever granted here.
    pub(crate) fn get(&self, page: u32) -> Option<PageLease>
        ensures { result ≡ map.get self.now page }
    {
        self.leases.get(&page).copied()
    }

    /// That each page of which anything is kept has a number of 32 bits.
    pub(crate) fn pages_fit(&self)
        ensures { PagesFit self.now }
    {
        let _leases = &self.leases;
    }

    /// Keeps this of a page. Only a new page may want memory.
    pub(crate) fn put(&mut self, page: u32, lease: PageLease) -> Mem<()>
        ensures ok { OnOk result (self.new ≡ map.insert self.old page lease) }
        ensures err { OnErr result (self.new ≡ self.old) }
        ensures absent { OnErr result (map.get self.old page ≡ None) }
    {
        let _old = match self.leases.insert(page, lease) {
            Ok(old) => old,
            Err(_) => return Err(NoMemory),
        };
        Ok(())
    }

    /// Keeps this of a page that was granted here.
    pub(crate) fn set(&mut self, page: u32, lease: PageLease)
        requires { IsSome (map.get self.old page) }
        ensures { self.new ≡ map.insert self.old page lease }
    {
        let _ = self.put(page, lease);
    }

    /// Keeps nothing of a page.
    pub(crate) fn forget(&mut self, page: u32)
        ensures { self.new ≡ map.remove self.old page }
    {
        self.leases.remove(&page);
    }
}
