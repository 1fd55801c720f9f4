//! The recovery of a lost writer, stage by stage.
ghost use Rattle.std.specs.Prelude.{◌≡◌, ◌<◌, ◌+◌, ℕ, false, IfOk, OnOk, OnErr, slice_get};
ghost use Rattle.std.specs.Option.{option_copied};
ghost use Rattle.master_model.specs.declared.recovery.Stage.TheVariants as stage;
ghost use Rattle.master_model.specs.Recovery.{is_last, part_of, started};
ghost use Rattle.master_recovery.specs.Places.{valued};
ghost use Rattle.master_recovery.specs.Seen.{IsSound, closed, listed, over, scanned, sealed, seen, taken, told, undone};

use crate::batch::{Batch, gather};
use crate::page_places::{PagePlaces, is_within};
use crate::row_places::RowPlaces;
use crate::txn_places::TxnPlaces;
use crate::{WrittenRow, txn_places};
use master_model::Stage;
use std::alloc::Global;
use std::marker::Model;
use tm_base::{Group, Mem, PageStampList, TxnMap, Writer};

/// The recovery of one writer: how far it has come, and what was read of the writer's groups.
#[derive(Drop)]
pub struct Recovery {
    alloc: Global,
    writer: Writer,
    stage: Stage,
    pages: PagePlaces,
    // the written rows, and from the stage `Undo` on those that are left to undo
    rows: RowPlaces,
    ended: TxnPlaces,
}

impl Model for Recovery {
    ghost use Rattle.std.specs.FinMap as fin;
    ghost use Rattle.master_recovery.specs.Places.{valued};
    ghost use Rattle.master_recovery.specs.Seen.{Seen, IsSound, coded_seen, shown};

    ghost Value = { Seen };

    ghost coded = { coded_seen };

    ghost view = { λ r. shown r.writer.0 r.stage r.pages r.rows r.ended };

    ghost invariant = { λ r. IsSound (shown r.writer.0 r.stage r.pages r.rows r.ended) };
}

/// The stage at which the pages are taken over from this part on.
fn take_part(pages: &PagePlaces, part: u32) -> Stage
    ensures { result ≡ stage.Take part (is_last (listed (valued pages.now)) part) }
{
    Stage::Take {
        part,
        rest: is_within(pages.count(), part),
    }
}

impl Recovery {
    /// The recovery of a writer at its beginning: a log store is awaited that has sealed the writer's log.
    pub fn new(alloc: Global, writer: Writer) -> Recovery
        ensures { result ≡ seen (started writer.0) }
    {
        Recovery {
            alloc,
            writer,
            stage: Stage::Seal,
            pages: PagePlaces::new(alloc),
            rows: RowPlaces::new(alloc),
            ended: TxnMap::new(alloc),
        }
    }

    /// The writer that is recovered.
    pub fn writer(&self) -> Writer
        ensures { result.0 ≡ self.now.writer }
    {
        self.writer
    }

    /// How far the recovery has come.
    pub fn stage(&self) -> Stage
        ensures value { result ≡ self.now.stage }
        ensures sound { IsSound self.now }
    {
        self.stage
    }

    /// A log store, 1 to 3, has sealed the writer's log, with so many groups. The first one is taken, and the log is to be
    /// closed there; what comes at another stage changes nothing.
    pub fn on_sealed(&mut self, store: u8, length: u32)
        ensures { self.new ≡ sealed self.old store length }
    {
        if matches!(self.stage, Stage::Seal) {
            self.stage = Stage::Close { store, length };
        }
    }

    /// The log is closed, with so many groups at that store: they are read from the first one on, or, where there are
    /// none, the pages are taken over. It changes nothing where the close isn't awaited.
    pub fn on_closed(&mut self, store: u8, length: u32)
        ensures { self.new ≡ closed self.old store length }
    {
        if !matches!(self.stage, Stage::Close { .. }) {
            return;
        }
        if length == 0 {
            self.stage = take_part(&self.pages, 1);
            return;
        }
        self.stage = Stage::Scan {
            store,
            length,
            next: 1,
        };
    }

    /// Groups of the closed log came: those of them are read that come next in it, in order. Then the next one is awaited,
    /// or, with the last one, the pages are taken over. It changes nothing where no groups are awaited, and where none of
    /// them is the next one. With want of memory nothing changes.
    pub fn on_groups(&mut self, groups: &[Group]) -> Mem<()>
        ensures ok { OnOk result (self.new ≡ scanned self.old groups.now) }
        ensures err { OnErr result (self.new ≡ self.old) }
    {
        let Stage::Scan {
            store,
            length,
            next,
        } = self.stage
        else {
            return Ok(());
        };
        let mut batch = Batch::new(self.alloc);
        let after = gather(&mut batch, self.writer, next, length, groups)?;
        if after == u64::from(next) {
            return Ok(());
        }
        self.pages.reserve(&batch.pages)?;
        self.rows.reserve(&batch.rows)?;
        txn_places::reserve(&mut self.ended, &batch.ended)?;
        self.pages.enter(batch.pages);
        self.rows.enter(batch.rows);
        txn_places::enter(&mut self.ended, batch.ended);
        if after <= u64::from(length) {
            self.stage = Stage::Scan {
                store,
                length,
                next: after as u32,
            };
            return Ok(());
        }
        self.stage = take_part(&self.pages, 1);
        Ok(())
    }

    /// What [`on_groups`](Recovery::on_groups) does, and the first part of the pages that are known then. So what is sent
    /// once the last group is read can be made before anything changes. With want of memory nothing changes.
    pub fn on_last_groups(&mut self, groups: &[Group]) -> Mem<PageStampList>
        ensures ok { OnOk result (self.new ≡ scanned self.old groups.now) }
        ensures part { IfOk result (λ pages. pages ≡ part_of (listed self.new.pages) 1) }
        ensures err { OnErr result (self.new ≡ self.old) }
    {
        let Stage::Scan {
            store,
            length,
            next,
        } = self.stage
        else {
            let first = self.part(1)?;
            return Ok(first);
        };
        let mut batch = Batch::new(self.alloc);
        let reached = gather(&mut batch, self.writer, next, length, groups)?;
        if reached == u64::from(next) {
            let first = self.part(1)?;
            return Ok(first);
        }
        let mut pages = self.pages.copy()?;
        pages.reserve(&batch.pages)?;
        pages.enter(batch.pages);
        let first = pages.part(self.alloc, 1)?;
        self.rows.reserve(&batch.rows)?;
        txn_places::reserve(&mut self.ended, &batch.ended)?;
        self.pages = pages;
        self.rows.enter(batch.rows);
        txn_places::enter(&mut self.ended, batch.ended);
        if reached <= u64::from(length) {
            self.stage = Stage::Scan {
                store,
                length,
                next: reached as u32,
            };
            return Ok(first);
        }
        self.stage = take_part(&self.pages, 1);
        Ok(first)
    }

    /// A part of the pages is taken over: the next one is awaited, or, after the last one, the rows of transactions without
    /// an end are left to undo. It changes nothing where another part is awaited, or none.
    pub fn on_taken(&mut self, part: u32)
        ensures { self.new ≡ taken self.old part }
    {
        let Stage::Take {
            part: awaited,
            rest,
        } = self.stage
        else {
            return;
        };
        if part != awaited {
            return;
        }
        if !rest {
            let count = self.pages.count();
            let next = part + 1;
            self.stage = Stage::Take {
                part: next,
                rest: is_within(count, next),
            };
            return;
        }
        self.rows.keep_open(&self.ended);
        self.stage = Stage::Undo {
            left: self.rows.len() as u64,
        };
    }

    /// The next row to undo: the first by table, then by key, then by transaction, of those that are left. None exactly where
    /// the stage isn't `Undo` or no row is left.
    pub fn next_undo(&self) -> Option<&WrittenRow>
        ensures { option_copied result ≡ slice_get self.now.undo 0 }
    {
        if !matches!(self.stage, Stage::Undo { .. }) {
            return None;
        }
        self.rows.first()
    }

    /// The next row is undone, or need not be.
    pub fn undone(&mut self)
        requires { (left : ℕ) × (self.old.stage ≡ stage.Undo left) × (0 < left) }
        ensures { (left : ℕ) → self.old.stage ≡ stage.Undo left → self.new ≡ undone self.old left }
    {
        let Stage::Undo { left } = self.stage else {
            return;
        };
        self.rows.drop_first();
        self.stage = Stage::Undo { left: left - 1 };
    }

    /// The lock manager is told that every row is undone.
    pub fn told(&mut self)
        requires { self.old.stage ≡ stage.Undo 0 }
        ensures { self.new ≡ told self.old }
    {
        self.stage = Stage::Told;
    }

    /// The writer is recovered: whatever the stage, the recovery is over.
    pub fn on_recovered(&mut self)
        ensures { self.new ≡ over self.old }
    {
        self.stage = Stage::Over;
    }

    /// The pages of a part, counted from 1, with the stamps of their last changes, ascending: 65,536 in each part but the
    /// last one.
    pub fn part(&self, part: u32) -> Mem<PageStampList>
        ensures { IfOk result (λ pages. pages ≡ part_of (listed self.now.pages) part) }
    {
        let pages = self.pages.part(self.alloc, part)?;
        Ok(pages)
    }

    /// The number of the part after one that isn't the last.
    pub fn part_after(&self, part: u32) -> u32
        requires { is_last (listed self.now.pages) part ≡ false }
        ensures { result ≡ part + 1 }
    {
        let _ = self.pages.count();
        part + 1
    }

    /// Whether a part is the last one: no page is in a later one.
    pub fn is_last(&self, part: u32) -> bool
        ensures { result ≡ is_last (listed self.now.pages) part }
    {
        is_within(self.pages.count(), part)
    }
}
