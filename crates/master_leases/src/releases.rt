//! What is told of a page that is given back.
ghost use Rattle.std.specs.Prelude.{◌≡◌, ◌&&◌, not, filter, IfOk};
ghost use Rattle.master_model.specs.Fates.{is_ended, is_own};
ghost use Rattle.master_model.specs.Leases.{left_of, release};

use master_model::Left;
use master_work::WorkState;
use tm_base::{Mem, Message, Note, Page, TagList, TryCopy};

/// The tags but those of own transactions that have ended.
fn without_ended(work: &WorkState, tags: TagList) -> TagList
    ensures { result ≡ filter (λ t. not (is_own work.now t.txn && is_ended work.now t.txn)) tags }
{
    let mut tags = tags.into_vec();
    tags.retain(|tag| !(work.is_own(tag.txn) && work.is_ended(tag.txn)));
    TagList::from_vec(tags)
}

/// What is told of a page: its stamp, its tags but those of own transactions that have ended, and what is known here.
pub fn left_of(work: &WorkState, page: Page) -> Mem<Left>
    ensures { IfOk result (λ left. left ≡ left_of work.now page.0) }
{
    let tags = without_ended(work, work.tags.copy_page(page)?);
    Ok(Left {
        epoch: work.desk.epoch(page),
        stamp: work.desk.stamp(page),
        tags,
        vector: work.vector()?,
    })
}

/// The message that gives a page back. The same is told however often it is sent.
pub fn release(work: &WorkState, page: Page, left: &Left) -> Mem<Message>
    ensures { IfOk result (λ message. message ≡ release work.now page.0 left.now) }
{
    let note = Note::Release {
        writer: work.writer(),
        page,
        epoch: left.epoch,
        stamp: left.stamp,
        tags: left.tags.copy()?,
        vector: left.vector.copy()?,
    };
    Ok(work.to_locks(note))
}
