//! Leases that come.
ghost use Rattle.std.specs.Prelude.{◌≡◌, ◌<◌, ◌≤◌, ◌-◌, ◌^◌, true, false, IfOk, OnOk, OnErr};
ghost use Rattle.tm_data.specs.Vectors.{greatest};
ghost use Rattle.lease_desk.specs.Desk.{granted, lease_of};
ghost use Rattle.std.specs.FinMap as fin;
ghost use Rattle.lock_table.specs.Tags.{tags_on, with_tags};
ghost use Rattle.vs_clock.specs.State.{heard_scalar, heard_vector};
ghost use Rattle.master_model.specs.Leases.{binding, gets_image, on_grant, takes_page};
ghost use Rattle.master_model.specs.Paths.{read_page};
ghost use Rattle.master_leases.specs.Inside.{is_among, taken_back};

use crate::images::put_or_leave;
use lease_desk::{Desk, PageLease};
use lock_table::Tags;
use master_work::WorkState;
use page_redo::initial;
use tm_base::{Mem, Message, MessageList, NoMemory, Page, Stamp, Tag, TagList, TryCopy, Vector};
use vs_clock::Clock;

/// Of the tags that come with a page, those of transactions that aren't known to have ended.
fn binding(work: &WorkState, tags: &TagList) -> Mem<TagList>
    ensures { IfOk result (λ bound. bound ≡ binding work.now tags.now) }
{
    let mut bound = TagList::new(work.alloc);
    for tag in tags.as_slice() {
        if !work.is_ended(tag.txn) {
            bound.push(tag.copy()?)?;
        }
    }
    Ok(bound)
}

/// Whether a tag is one of these.
fn is_among(tags: &[Tag], tag: &Tag) -> bool
    ensures { result ≡ is_among tags.now tag.now }
{
    for other in tags {
        if other.key == tag.key && other.txn == tag.txn {
            return true;
        }
    }
    false
}

/// What was kept of a page before a grant: its lease, if it had one, and the tags on it.
#[derive(Drop)]
struct Before {
    kept: Option<PageLease>,
    tags: TagList,
}

/// The lease of a page and its tags come, and what was kept before is given. With want of memory nothing changes.
#[tactic(auto, using(crate::proofs::LeaseLemmas::granted_held, crate::proofs::LeaseLemmas::back_again))]
fn take(
    desk: &mut Desk,
    tags: &mut Tags,
    page: Page,
    epoch: u32,
    stamp: Stamp,
    bound: &TagList,
) -> Mem<Before>
    requires { (lease_of desk.old page.0).epoch < epoch }
    ensures desk { OnOk result (desk.new ≡ granted desk.old page.0 epoch stamp) }
    ensures tags { OnOk result (tags.new ≡ with_tags tags.old page.0 bound.now) }
    ensures kept { IfOk result (λ before. before.kept ≡ fin.get desk.old page.0) }
    ensures before { IfOk result (λ before. before.tags ≡ tags_on tags.old page.0) }
    ensures err { OnErr result ((desk.new ≡ desk.old) × (tags.new ≡ tags.old)) }
{
    let before = Before {
        kept: desk.kept(page),
        tags: tags.copy_page(page)?,
    };
    desk.on_grant(page, epoch, stamp)?;
    if tags.put_page(page, bound).is_err() {
        desk.take_back(page, before.kept);
        return Err(NoMemory);
    }
    Ok(before)
}

/// Tags that came to a page are taken back, but those that were there before. It takes no memory.
fn take_tags_back(tags: &mut Tags, page: Page, before: &[Tag], bound: &[Tag])
    ensures { tags.new ≡ taken_back tags.old page.0 before.now bound.now }
{
    for tag in bound {
        if !is_among(before, tag) {
            tags.remove(page, &tag.key, tag.txn);
        }
    }
}

/// The clock of a writer once it has heard what comes with a page.
fn heard(work: &WorkState, stamp: Stamp, vector: &Vector) -> Mem<Clock>
    requires stamp { stamp.0 ≤ 2 ^ 63 - 1 }
    requires vector { greatest vector.now ≤ 2 ^ 63 - 1 }
    ensures { IfOk result (λ clock. clock ≡ heard_vector (heard_scalar work.now.clock stamp.0) vector.now) }
{
    let mut clock = work.timed.clock()?;
    clock.hear_scalar(stamp);
    clock.hear_vector(vector)?;
    Ok(clock)
}

/// The request for the image of a page whose last change has this stamp.
fn wanted(work: &WorkState, page: Page, stamp: Stamp) -> Message
    ensures { result ≡ record (read_page work.now page) { stamp = stamp } }
{
    let mut message = work.read_page(page);
    message.stamp = stamp;
    message
}

/// The lease of a page comes whose image is asked for. With want of memory nothing changes.
#[tactic(auto, using(crate::proofs::LeaseLemmas::granted_stamp))]
fn take_changed(
    work: &mut WorkState,
    page: Page,
    epoch: u32,
    stamp: Stamp,
    tags: &TagList,
    vector: &Vector,
) -> Mem<MessageList>
    requires stamp { stamp.0 ≤ 2 ^ 63 - 1 }
    requires vector { greatest vector.now ≤ 2 ^ 63 - 1 }
    requires epoch { (lease_of work.old.leases page.0).epoch < epoch }
    ensures ok { IfOk result (λ messages. (work.new, messages) ≡ gets_image (takes_page work.old page epoch stamp tags.now vector.now) page false) }
    ensures err { OnErr result (work.new ≡ work.old) }
{
    let clock = heard(work, stamp, vector)?;
    let bound = binding(work, tags)?;
    let mut messages = MessageList::new(work.alloc);
    messages.push(wanted(work, page, stamp))?;
    take(&mut work.desk, &mut work.tags, page, epoch, stamp, &bound)?;
    work.left.remove(page.0);
    work.timed.set_clock(clock);
    Ok(messages)
}

/// The lease of a page comes that no record has changed. With want of memory nothing changes.
#[tactic(auto, using(crate::proofs::LeaseLemmas::granted_held, crate::proofs::LeaseLemmas::back_again, crate::proofs::TagLemmas::tags_back, crate::proofs::ImageLemmas::image_put))]
fn take_first(
    work: &mut WorkState,
    page: Page,
    epoch: u32,
    stamp: Stamp,
    tags: &TagList,
    vector: &Vector,
) -> Mem<MessageList>
    requires stamp { stamp.0 ≤ 2 ^ 63 - 1 }
    requires vector { greatest vector.now ≤ 2 ^ 63 - 1 }
    requires epoch { (lease_of work.old.leases page.0).epoch < epoch }
    ensures ok { IfOk result (λ messages. (work.new, messages) ≡ gets_image (takes_page work.old page epoch stamp tags.now vector.now) page true) }
    ensures err { OnErr result (work.new ≡ work.old) }
{
    let clock = heard(work, stamp, vector)?;
    let bound = binding(work, tags)?;
    let durable = work.timed.settled_at(clock.scalar());
    let image = initial(work.alloc, page);
    let before = take(&mut work.desk, &mut work.tags, page, epoch, stamp, &bound)?;
    if put_or_leave(&mut work.pool, image, durable).is_err() {
        let Before { kept, tags } = before;
        work.desk.take_back(page, kept);
        take_tags_back(&mut work.tags, page, tags.as_slice(), bound.as_slice());
        return Err(NoMemory);
    }
    work.left.remove(page.0);
    work.timed.set_clock(clock);
    Ok(MessageList::new(work.alloc))
}

/// A page is granted at an epoch, with the stamp of its last change, the tags on it, and what whoever had it before
/// knew: stamps up to `2^63 - 1`. It counts where the epoch is above all that were seen here for the page. With want of
/// memory nothing changes.
pub fn on_grant(
    work: &mut WorkState,
    page: Page,
    epoch: u32,
    stamp: Stamp,
    tags: &TagList,
    vector: &Vector,
) -> Mem<MessageList>
    requires stamp { stamp.0 ≤ 2 ^ 63 - 1 }
    requires vector { greatest vector.now ≤ 2 ^ 63 - 1 }
    ensures ok { IfOk result (λ messages. (work.new, messages) ≡ on_grant work.old page epoch stamp tags.now vector.now) }
    ensures err { OnErr result (work.new ≡ work.old) }
{
    if epoch <= work.desk.epoch(page) {
        return Ok(MessageList::new(work.alloc));
    }
    if stamp.0 == 0 {
        let messages = take_first(work, page, epoch, stamp, tags, vector)?;
        return Ok(messages);
    }
    let messages = take_changed(work, page, epoch, stamp, tags, vector)?;
    Ok(messages)
}
