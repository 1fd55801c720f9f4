//! The state of a writer.
ghost use Rattle.std.specs.Prelude.{◌≡◌, ◌≤◌, ◌-◌, ◌^◌, IfOk};
ghost use Rattle.std.specs.Option.{option_copied};
ghost use Rattle.master_model.specs.State.{joined};
ghost use Rattle.master_model.specs.Paths.{here};

use crate::{ClockedLog, Sessions, StoreCount};
use buffer_pool::Pool;
use lease_desk::{Desk, Lease};
use lock_table::Tags;
use master_model::Left;
use master_parts::{NumberTable, Stock, TxnSet};
use row_tree::Pages;
use std::alloc::Global;
use std::marker::Model;
use tm_base::{Image, Mem, Page, Stamp, Writer};

/// A pool has so many places.
const PLACES: usize = 1024;

/// What a writer works on, from its number on. Contracts see the state of `master_model`.
#[derive(Drop)]
pub struct WorkState {
    pub alloc: Global,
    /// The master's number.
    pub number: u8,
    pub stores: StoreCount,
    /// Its clock, and its groups.
    pub timed: ClockedLog,
    pub desk: Desk,
    /// What was told of each page that is being given back.
    pub left: NumberTable<Left>,
    pub pool: Pool,
    /// The shared locks on the leaves that it holds.
    pub tags: Tags,
    pub sessions: Sessions,
    /// Other writers' transactions that are known to have ended.
    pub ended: TxnSet,
    /// Those that were told to be open since an answer last named them.
    pub told_open: TxnSet,
    pub stock: Stock,
    /// How many answers to a request for a fresh page were taken.
    pub fresh: u32,
    /// Whether the last of these said that none is left.
    pub spent: bool,
}

impl Model for WorkState {
    ghost use Rattle.master_model.specs.State.{Work};
    ghost use Rattle.master_work.specs.State.{coded_work};

    ghost Value = { Work };

    ghost coded = { coded_work };

    ghost view = { λ s. record {
      number = s.number;
      stores = s.stores;
      clock = s.timed.clock;
      log = s.timed.log;
      leases = s.desk;
      left = s.left.map;
      pool = s.pool;
      tags = s.tags;
      begun = s.sessions.begun;
      sessions = s.sessions.owns;
      ended = s.ended;
      told_open = s.told_open;
      stock = s.stock;
      fresh = s.fresh;
      spent = s.spent;
    } };
}

impl WorkState {
    /// The state of a writer, numbered from 1, of the master of that number, that begins at a stamp of at most
    /// `2^63 - 1`. There is at least one page store.
    pub fn new(
        alloc: Global,
        number: u8,
        stores: u8,
        writer: Writer,
        start: Stamp,
    ) -> Mem<WorkState>
        requires stores { 1 ≤ stores }
        requires writer { 1 ≤ writer.0 }
        requires start { start.0 ≤ 2 ^ 63 - 1 }
        ensures { IfOk result (λ work. work ≡ joined number stores writer start.0) }
    {
        Ok(WorkState {
            alloc,
            number,
            stores: StoreCount::new(stores),
            timed: ClockedLog::new(alloc, writer, start),
            desk: Desk::new(alloc),
            left: NumberTable::new(alloc),
            pool: Pool::new(alloc, PLACES)?,
            tags: Tags::new(alloc),
            sessions: Sessions::new(alloc),
            ended: TxnSet::new(alloc),
            told_open: TxnSet::new(alloc),
            stock: Stock::new(alloc),
            fresh: 0,
            spent: false,
        })
    }
}

impl Pages for WorkState {
    ghost use Rattle.master_model.specs.Paths.{here};

    ghost images = { here };

    /// The image of a page that is held and not recalled.
    fn image(&self, page: Page) -> Option<&Image> {
        if !matches!(self.desk.state(page), Lease::Held) {
            return None;
        }
        self.pool.find(page)
    }
}
