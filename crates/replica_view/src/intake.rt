//! What a group brings: records of pages, and ends of transactions.
ghost use Rattle.std.specs.Prelude.{◌≡◌, ◌<◌, IsSome, OnOk};
ghost use Rattle.page_model.specs.Effects.{page_of, prev_of};
ghost use Rattle.page_model.specs.Versions.{link_of};
ghost use Rattle.replica_model.specs.Step.{offered_of, with_change, with_changes, with_end, with_ends, with_link};

use page_redo::prev_of;
use replica_apply::Order;
use replica_model::EndMark;
use tm_base::{Group, Mem, NoMemory, Record, Stamp, TxnMap, Writer};
use version_chain::{AddError, Chains};

/// Offers those of the groups that are the writer's, in their order.
pub(crate) fn offer_groups(order: &mut Order, writer: Writer, groups: &[Group]) -> Mem<()>
    ensures { OnOk result (order.new ≡ offered_of order.old writer.0 groups.now) }
{
    for group in groups {
        if group.writer == writer {
            order.offer(group)?;
        }
    }
    Ok(())
}

/// Keeps those of a group's records that change a page.
pub(crate) fn keep_changes(
    pages: &mut Chains,
    writer: Writer,
    stamp: Stamp,
    records: &[Record],
) -> Mem<()>
    ensures { OnOk result (pages.new.records ≡ with_changes pages.old.records writer.0 stamp.0 records.now) }
{
    for change in records {
        keep_change(pages, writer, stamp, change)?;
    }
    Ok(())
}

/// Keeps a record, if it changes a page from a version before the stamp.
fn keep_change(pages: &mut Chains, writer: Writer, stamp: Stamp, change: &Record) -> Mem<()>
    ensures { OnOk result (pages.new.records ≡ with_change pages.old.records writer.0 stamp.0 change.now (page_of change.now)) }
{
    if change.page().is_none() || prev_of(change).0 >= stamp.0 {
        return Ok(());
    }
    keep(pages, writer, stamp, change)
}

/// Keeps a record. Where another one of its page and stamp is kept, this one isn't.
fn keep(pages: &mut Chains, writer: Writer, stamp: Stamp, change: &Record) -> Mem<()>
    requires names { IsSome (page_of change.now) }
    requires later { prev_of change.now < stamp.0 }
    ensures { OnOk result (pages.new.records ≡ with_link pages.old.records (link_of writer.0 stamp.0 change.now)) }
{
    match pages.add(writer, stamp, change) {
        Ok(()) => Ok(()),
        Err(AddError::Differs { .. }) => Ok(()),
        Err(AddError::NoMemory) => Err(NoMemory),
    }
}

/// Marks where the transactions end that this group ends.
pub(crate) fn mark_ends(ends: &mut TxnMap<EndMark>, group: &Group) -> Mem<()>
    ensures { OnOk result (ends.new ≡ with_ends ends.old group.now group.now.records) }
{
    for change in group.records.as_slice() {
        mark_end(ends, group, change)?;
    }
    Ok(())
}

fn mark_end(ends: &mut TxnMap<EndMark>, group: &Group, change: &Record) -> Mem<()>
    ensures { OnOk result (ends.new ≡ with_end ends.old group.now change.now) }
{
    let Record::End { txn, .. } = change else {
        return Ok(());
    };
    let writer = group.writer;
    let stamp = group.stamp;
    ends.insert(*txn, EndMark { writer, stamp })
}
