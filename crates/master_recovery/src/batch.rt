//! What some groups of a log change, gathered before any of it is kept.
ghost use Rattle.std.specs.Prelude.{◌≡◌, ◌+◌, ◌≤◌, ◌^◌, [], IfOk, OnOk, length};
ghost use Rattle.master_model.specs.Recovery.{in_turn, is_next};
ghost use Rattle.master_recovery.specs.Gathered.{gathered, with_page, with_record, with_records};

use crate::WrittenRow;
use crate::row_places::WrittenRowList;
use std::alloc::Global;
use tm_base::{
    Group, ItemList, Mem, Page, PageStamp, PageStampList, Record, Stamp, TryCopy, Txn, Writer,
};

/// The pages that some groups change, with the groups' stamps, the rows that they write of one writer's transactions,
/// and the transactions that they end, each in the groups' order.
#[derive(Drop)]
pub(crate) struct Batch {
    pub(crate) pages: PageStampList,
    pub(crate) rows: WrittenRowList,
    pub(crate) ended: ItemList<Txn>,
}

impl Batch {
    /// Nothing.
    pub(crate) fn new(alloc: Global) -> Batch
        ensures { result ≡ record { pages = []; rows = []; ended = [] } }
    {
        Batch {
            pages: PageStampList::new(alloc),
            rows: WrittenRowList::new(alloc),
            ended: ItemList::new(alloc),
        }
    }

    /// Adds a page.
    fn add_page(&mut self, page: Page, stamp: Stamp) -> Mem<()>
        ensures { OnOk result (self.new ≡ with_page self.old page.0 stamp.0) }
    {
        self.pages.push(PageStamp { page, stamp })?;
        Ok(())
    }

    /// Adds what a record changes.
    fn add_record(&mut self, writer: Writer, stamp: Stamp, change: &Record) -> Mem<()>
        ensures { OnOk result (self.new ≡ with_record writer.0 stamp.0 self.old change.now) }
    {
        match change {
            Record::RowSet {
                page,
                table,
                row,
                ..
            } => {
                self.add_page(*page, stamp)?;
                if row.txn.writer == writer {
                    let key = row.key.copy()?;
                    self.rows.push(WrittenRow::new(*table, key, row.txn))?;
                }
            }
            Record::Cut { page, .. } => self.add_page(*page, stamp)?,
            Record::Format { page, .. } => self.add_page(*page, stamp)?,
            Record::NodeAdd { page, .. } => self.add_page(*page, stamp)?,
            Record::End { txn, .. } => self.ended.push(*txn)?,
            Record::Beat => {}
        }
        Ok(())
    }

    /// Adds what a group changes.
    fn add_group(&mut self, writer: Writer, group: &Group) -> Mem<()>
        ensures { OnOk result (self.new ≡ with_records writer.0 group.now.stamp.0 self.old group.now.records) }
    {
        for change in group.records.as_slice() {
            self.add_record(writer, group.stamp, change)?;
        }
        Ok(())
    }
}

/// Whether it is the next group of the closed log, which has `most` groups.
pub fn is_next(writer: Writer, next: u64, most: u32, group: &Group) -> bool
    ensures { result ≡ is_next writer.0 next most group.now }
{
    group.writer == writer && u64::from(group.seq) == next && group.seq <= most
}

/// Adds what those groups change that come next in the closed log, from the one of number `first` on, and tells the number of
/// the one that comes next after them.
pub(crate) fn gather(
    batch: &mut Batch,
    writer: Writer,
    first: u32,
    most: u32,
    groups: &[Group],
) -> Mem<u64>
    ensures next { IfOk result (λ next. next ≡ first + length (in_turn writer.0 first most groups.now)) }
    ensures most { IfOk result (λ next. next ≤ 2 ^ 32) }
    ensures ok { OnOk result (batch.new ≡ gathered writer.0 batch.old (in_turn writer.0 first most groups.now)) }
{
    let mut next = u64::from(first);
    for group in groups {
        if is_next(writer, next, most, group) {
            batch.add_group(writer, group)?;
            next += 1;
        }
    }
    Ok(next)
}
