//! Taking the groups of a log in their order.
ghost use Rattle.std.specs.Prelude.{◌≡◌, ◌≤◌, ◌<◌, IsSome, None, IfOk, OnOk, OnErr};
ghost use Rattle.page_model.specs.Effects.{page_of, prev_of};
ghost use Rattle.page_model.specs.Versions.{link_of};
ghost use Rattle.store_model.specs.PageStep.{brought, front_after, in_turn, is_next, links_in, with_link, with_links};
ghost use Rattle.page_store.specs.Answers.{TakesPart};

use crate::share::Share;
use store_model::Front;
use tm_base::{Group, Mem, NoMemory, Record, Stamp, Writer};
use version_chain::{AddError, Chains};

/// Takes those of the groups that are next, from the one of number `first` on, and tells how far the log is
/// then taken, or none where no group was next.
pub(crate) fn take_groups(
    pages: &mut Chains,
    share: Share,
    writer: Writer,
    first: u32,
    groups: &[Group],
) -> Mem<Option<Front>>
    requires { 1 ≤ share.stores }
    ensures front { IfOk result (λ front. front ≡ front_after None (in_turn writer.0 first groups.now)) }
    ensures ok { OnOk result (pages.new.records ≡ with_links pages.old.records (brought share.number share.stores (in_turn writer.0 first groups.now))) }
    ensures err { OnErr result (TakesPart (brought share.number share.stores (in_turn writer.0 first groups.now)) pages.old.records pages.new.records) }
{
    let mut front = None;
    let mut next = first;
    for group in groups {
        if is_next(writer, next, group) {
            let records = group.records.as_slice();
            take_records(pages, share, group.writer, group.stamp, records)?;
            next += 1;
            front = Some(Front {
                next,
                stamp: group.stamp,
            });
        }
    }
    Ok(front)
}

/// Whether it is the writer's next group.
fn is_next(writer: Writer, next: u32, group: &Group) -> bool
    ensures { result ≡ is_next writer.0 next group.now }
{
    group.writer == writer && group.seq == next && group.seq < u32::MAX
}

/// Takes those of a group's records that are kept.
fn take_records(
    pages: &mut Chains,
    share: Share,
    writer: Writer,
    stamp: Stamp,
    records: &[Record],
) -> Mem<()>
    requires { 1 ≤ share.stores }
    ensures ok { OnOk result (pages.new.records ≡ with_links pages.old.records (links_in share.number share.stores writer.0 stamp.0 records.now)) }
    ensures err { OnErr result (TakesPart (links_in share.number share.stores writer.0 stamp.0 records.now) pages.old.records pages.new.records) }
{
    for change in records {
        if share.keeps(change, stamp) {
            take(pages, writer, stamp, change)?;
        }
    }
    Ok(())
}

/// Takes a record. Where another one of its page and stamp is held, it isn't taken.
fn take(pages: &mut Chains, writer: Writer, stamp: Stamp, change: &Record) -> Mem<()>
    requires names { IsSome (page_of change.now) }
    requires later { prev_of change.now < stamp.0 }
    ensures ok { OnOk result (pages.new.records ≡ with_link pages.old.records (link_of writer.0 stamp.0 change.now)) }
    ensures err { OnErr result (pages.new.records ≡ pages.old.records) }
{
    match pages.add(writer, stamp, change) {
        Ok(()) => Ok(()),
        Err(AddError::Differs { .. }) => Ok(()),
        Err(AddError::NoMemory) => Err(NoMemory),
    }
}
