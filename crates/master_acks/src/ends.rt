//! The transactions whose ends become durable, and their tags.
ghost use Rattle.std.specs.Prelude.{◌≡◌, ◌≤◌, ◌++◌, filter, not, IfOk, OnOk};
ghost use Rattle.log_writer.specs.Log.{group_of, numbered};
ghost use Rattle.master_model.specs.Acks.{ends_between, ends_in};
ghost use Rattle.master_acks.specs.Inside.{ended_of, has_ended_in, txns, without_each};

use lock_table::Tags;
use master_work::{WorkState, end_tags};
use tm_base::{Mem, Record, TagList, Txn};

/// Adds the transactions that end in some records.
fn add_ended(ended: &mut Vec<Txn>, records: &[Record]) -> Mem<()>
    ensures { OnOk result (ended.new.items ≡ ended.old.items ++ txns (ends_in records.now)) }
{
    for change in records {
        if let Record::End { txn, .. } = change {
            ended.push(*txn)?;
        }
    }
    Ok(())
}

/// Adds the transactions that end in the group of a number, if it is here.
fn add_group(ended: &mut Vec<Txn>, work: &WorkState, seq: u32) -> Mem<()>
    ensures { OnOk result (ended.new.items ≡ ended.old.items ++ ended_of (group_of (numbered work.now.log seq))) }
{
    let Some(group) = work.timed.group(seq) else {
        return Ok(());
    };
    add_ended(ended, group.records.as_slice())?;
    Ok(())
}

/// The transactions that end in the groups after one number up to another, in order. The log has let none of these
/// groups go.
pub(crate) fn ended_between(work: &WorkState, old: u32, new: u32) -> Mem<Vec<Txn>>
    requires { work.now.log.gone ≤ old }
    ensures { IfOk result (λ ended. ended.items ≡ txns (ends_between work.now.log old new)) }
{
    let mut ended = Vec::new(work.alloc);
    for seq in old..new {
        add_group(&mut ended, work, seq + 1)?;
    }
    Ok(ended)
}

/// Whether a transaction is one of those that end.
fn has_ended_in(ended: &[Txn], txn: Txn) -> bool
    ensures { result ≡ has_ended_in ended.now txn }
{
    for other in ended {
        if txn.writer.0 == other.writer.0 && txn.number == other.number {
            return true;
        }
    }
    false
}

/// The tags but those of transactions that end.
pub(crate) fn without_ended(tags: TagList, ended: &[Txn]) -> TagList
    ensures { result ≡ filter (λ t. not (has_ended_in ended.now t.txn)) tags }
{
    let mut tags = tags.into_vec();
    tags.retain(|tag| !has_ended_in(ended, tag.txn));
    TagList::from_vec(tags)
}

/// Takes out the tags of transactions that end. It takes no memory.
pub(crate) fn end_all(tags: &mut Tags, ended: &[Txn])
    ensures { tags.new ≡ without_each tags.old ended.now }
{
    for txn in ended {
        end_tags(tags, *txn);
    }
}
