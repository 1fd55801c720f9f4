//! Where the lists begin.
ghost use Rattle.std.specs.Prelude.{◌≡◌, ◌+◌, ◌<◌, ◌≤◌, ◌^◌, OnOk, OnErr, IsSome, None, nat_le};
ghost use Rattle.std.specs.FinMap.{empty};
ghost use Rattle.std.specs.FinMap as map;
ghost use Rattle.lock_table.specs.Inside.{head_in, head_without, head_with, kept, shorter};

use crate::node::Link;
use std::alloc::Global;
use std::collections::HashMap;
use std::marker::Model;
use tm_base::{Mem, NoMemory, Txn};

/// The first node of a list, and how many there are.
#[derive(Clone, Copy)]
pub(crate) struct Head {
    pub(crate) first: Option<usize>,
    pub(crate) count: usize,
}

impl Head {
    /// The head of the list without a node whose links were these; none where no node is left.
    pub(crate) fn without(self, link: Link) -> Option<Head>
        ensures { result ≡ head_without self link (nat_le self.count 1) }
    {
        if self.count <= 1 {
            return None;
        }
        let first = match link.prev {
            Some(_) => self.first,
            None => link.next,
        };
        Some(Head {
            first,
            count: self.count - 1,
        })
    }

    /// The head of the list with one node more, in a gap.
    pub(crate) fn with(self, key: usize, gap: Link) -> Head
        requires { self.count + 1 < 2 ^ 64 }
        ensures { result ≡ head_with self key gap }
    {
        let first = match gap.prev {
            Some(_) => self.first,
            None => Some(key),
        };
        Head {
            first,
            count: self.count + 1,
        }
    }
}

/// The head of the list of each page, by hash: what a look-up costs doesn't grow with the pages. Contracts see a finite
/// map.
#[derive(Drop)]
pub(crate) struct PageHeads {
    heads: HashMap<u32, Head>,
}

impl Model for PageHeads {
    ghost use Rattle.std.specs.Ordering.{nat_cmp};
    ghost use Rattle.std.specs.Coded.{coded_ℕ};
    ghost use Rattle.std.specs.FinMap.{FinMap, code, from_entries};
    ghost use Rattle.lock_table.specs.declared.heads.Head.{Head};
    ghost use Rattle.lock_table.specs.contracts.heads.Head as head;

    ghost Value = { FinMap nat_cmp Head };

    ghost coded = { code coded_ℕ head.the_row.coded };

    ghost view = { λ m. from_entries m.heads.entries };
}

impl PageHeads {
    /// No lists.
    pub(crate) fn new(alloc: Global) -> PageHeads
        ensures { result ≡ empty }
    {
        PageHeads {
            heads: HashMap::new(alloc),
        }
    }

    /// The head of a page's list.
    pub(crate) fn get(&self, page: u32) -> Option<Head>
        ensures { result ≡ map.get self.now page }
    {
        self.heads.get(&page).copied()
    }

    /// Keeps the head of a page's list. Only a new page may want memory.
    pub(crate) fn put(&mut self, page: u32, head: Head) -> Mem<()>
        ensures ok { OnOk result (self.new ≡ map.insert self.old page head) }
        ensures err { OnErr result (self.new ≡ self.old) }
        ensures absent { OnErr result (map.get self.old page ≡ None) }
    {
        let _old = match self.heads.insert(page, head) {
            Ok(old) => old,
            Err(_) => return Err(NoMemory),
        };
        Ok(())
    }

    /// Keeps another head of a list that is there.
    pub(crate) fn set(&mut self, page: u32, head: Head)
        requires { IsSome (map.get self.old page) }
        ensures { self.new ≡ map.insert self.old page head }
    {
        let _ = self.put(page, head);
    }

    /// The list of a page has lost a node whose links were these.
    pub(crate) fn shorten(&mut self, page: u32, link: Link)
        ensures { self.new ≡ kept self.old page (shorter (head_in (map.get self.old page)) link) }
    {
        let Some(head) = self.heads.get_mut(&page) else {
            return;
        };
        let Some(rest) = head.without(link) else {
            self.remove(page);
            return;
        };
        *head = rest;
    }

    /// Drops the head of a page's list.
    pub(crate) fn remove(&mut self, page: u32)
        ensures { self.new ≡ map.remove self.old page }
    {
        self.heads.remove(&page);
    }
}

/// The head of the list of each transaction, by hash. Contracts see a finite map.
#[derive(Drop)]
pub(crate) struct TxnHeads {
    heads: HashMap<Txn, Head>,
}

impl Model for TxnHeads {
    ghost use Rattle.std.specs.FinMap.{FinMap, code, from_entries};
    ghost use Rattle.tm_data.specs.Orders.{txn_cmp, coded_txn};
    ghost use Rattle.lock_table.specs.declared.heads.Head.{Head};
    ghost use Rattle.lock_table.specs.contracts.heads.Head as head;

    ghost Value = { FinMap txn_cmp Head };

    ghost coded = { code coded_txn head.the_row.coded };

    ghost view = { λ m. from_entries m.heads.entries };
}

impl TxnHeads {
    /// No lists.
    pub(crate) fn new(alloc: Global) -> TxnHeads
        ensures { result ≡ empty }
    {
        TxnHeads {
            heads: HashMap::new(alloc),
        }
    }

    /// The head of a transaction's list.
    pub(crate) fn get(&self, txn: Txn) -> Option<Head>
        ensures { result ≡ map.get self.now txn }
    {
        self.heads.get(&txn).copied()
    }

    /// Keeps the head of a transaction's list. Only a new transaction may want memory.
    pub(crate) fn put(&mut self, txn: Txn, head: Head) -> Mem<()>
        ensures ok { OnOk result (self.new ≡ map.insert self.old txn head) }
        ensures err { OnErr result (self.new ≡ self.old) }
        ensures absent { OnErr result (map.get self.old txn ≡ None) }
    {
        let _old = match self.heads.insert(txn, head) {
            Ok(old) => old,
            Err(_) => return Err(NoMemory),
        };
        Ok(())
    }

    /// Keeps another head of a list that is there.
    pub(crate) fn set(&mut self, txn: Txn, head: Head)
        requires { IsSome (map.get self.old txn) }
        ensures { self.new ≡ map.insert self.old txn head }
    {
        let _ = self.put(txn, head);
    }

    /// The list of a transaction has lost a node whose links were these.
    pub(crate) fn shorten(&mut self, txn: Txn, link: Link)
        ensures { self.new ≡ kept self.old txn (shorter (head_in (map.get self.old txn)) link) }
    {
        let Some(head) = self.heads.get_mut(&txn) else {
            return;
        };
        let Some(rest) = head.without(link) else {
            self.remove(txn);
            return;
        };
        *head = rest;
    }

    /// Drops the head of a transaction's list.
    pub(crate) fn remove(&mut self, txn: Txn)
        ensures { self.new ≡ map.remove self.old txn }
    {
        self.heads.remove(&txn);
    }
}
