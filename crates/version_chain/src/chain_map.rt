//! Chains by page.
ghost use Rattle.std.specs.Prelude.{◌≡◌, ◌≤◌, [], ◌∷◌, length, reverse, OnOk, OnErr};
ghost use Rattle.std.specs.FinMap.{empty, insert};
ghost use Rattle.page_model.specs.Versions.{links_of};
ghost use Rattle.version_chain.specs.Inside.{inserted};

use crate::chain::Chain;
use page_model::Link;
use std::alloc::Global;
use std::collections::BTreeMap;
use std::marker::Model;
use tm_base::{Mem, NoMemory};

/// The chain of each page of which records are held. Contracts see the finite map.
#[derive(Drop)]
pub(crate) struct ChainMap {
    alloc: Global,
    chains: BTreeMap<u32, Chain>,
}

impl Model for ChainMap {
    ghost use Rattle.std.specs.FinMap.{from_entries};
    ghost use Rattle.page_model.specs.Versions.{Held, coded_held};

    ghost Value = { Held };

    ghost coded = { coded_held };

    ghost view = { λ m. from_entries m.chains.entries };
}

impl ChainMap {
    /// No chains.
    pub(crate) fn new(alloc: Global) -> ChainMap
        ensures { result ≡ empty }
    {
        ChainMap {
            alloc,
            chains: BTreeMap::new(alloc),
        }
    }

    /// The links of a page, ascending by stamp.
    pub(crate) fn links(&self, page: u32) -> &[Link]
        ensures { reverse result.now ≡ links_of self.now page }
    {
        match self.chains.get(&page) {
            Some(chain) => chain.as_slice(),
            None => &[],
        }
    }

    /// Adds a link of a page behind its first `at`.
    pub(crate) fn put(&mut self, page: u32, at: usize, link: Link) -> Mem<()>
        requires { at ≤ length (links_of self.old page) }
        ensures ok { OnOk result (self.new ≡ insert self.old page (inserted (links_of self.old page) at link)) }
        ensures err { OnErr result (self.new ≡ self.old) }
    {
        let Some(chain) = self.chains.get_mut(&page) else {
            return self.put_first(page, link);
        };
        chain.insert(at, link)
    }

    /// Adds the first link of a page.
    fn put_first(&mut self, page: u32, link: Link) -> Mem<()>
        ensures ok { OnOk result (self.new ≡ insert self.old page (link ∷ [])) }
        ensures err { OnErr result (self.new ≡ self.old) }
    {
        let mut chain = Chain::new(self.alloc);
        chain.insert(0, link)?;
        let _old = match self.chains.insert(page, chain) {
            Ok(old) => old,
            Err(_) => return Err(NoMemory),
        };
        Ok(())
    }
}
