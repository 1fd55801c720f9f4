//! Tags as bytes.
ghost use Rattle.std.specs.Prelude.{◌≡◌, ◌≤◌, ◌++◌, length, IfOk, OnOk};
ghost use Rattle.wire_fields.specs.Reading.{Gives};
ghost use Rattle.message_parts.specs.Spelling.{no_tag, tag_bytes, tags_bytes};
ghost use Rattle.message_parts.specs.Reading.{tag_after, tag_at, tag_list_at, tags_at};

use crate::number::read_writer;
use key_fences::is_less;
use page_image::{own_key, put_txn};
use std::alloc::{AllocError, Global};
use tm_base::{ItemList, Tag, TagList, Txn, Writer};
use wire_fields::{ReadError, offset, put_key, put_u32, read_key, read_u32};

/// Reads what stands behind the key that begins at `start`.
#[tactic(auto, unfolding(crate::specs::Reading::tag_after))]
fn read_tag_after<'a>(
    alloc: Global,
    total: usize,
    last: (&[u8], Txn),
    start: usize,
    key: &[u8],
    bytes: &'a [u8],
) -> Result<(Tag, &'a [u8]), ReadError>
    ensures exact { Gives (λ x. (x.0, x.1.now)) result (tag_after total (record { key = last.entry.0.now; txn = last.entry.1 }) start key.now bytes.now) }
    ensures key { IfOk result (λ x. x.0.key ≡ key.now) }
{
    let (last_key, last_txn) = last;
    let same = !is_less(last_key, key);
    let (writer, rest) = read_writer(total, bytes)?;
    if same && writer.0 < last_txn.writer.0 {
        return Err(ReadError::NotCanonical { at: start });
    }
    let (number, rest) = read_u32(total, 1, u32::MAX, rest)?;
    if same && writer.0 <= last_txn.writer.0 && number <= last_txn.number {
        return Err(ReadError::NotCanonical { at: start });
    }
    let key = own_key(alloc, key)?;
    let txn = Txn { writer, number };
    Ok((Tag { key, txn }, rest))
}

/// Reads a tag that is above the last one, and gives its key as it stands in the bytes.
#[tactic(auto, unfolding(crate::specs::Reading::tag_at))]
fn read_tag<'a>(
    alloc: Global,
    total: usize,
    last: (&[u8], Txn),
    bytes: &'a [u8],
) -> Result<(Tag, &'a [u8], &'a [u8]), ReadError>
    ensures exact { Gives (λ x. (x.0, x.2.now)) result (tag_at total (record { key = last.entry.0.now; txn = last.entry.1 }) bytes.now) }
    ensures key { IfOk result (λ x. x.1.now ≡ x.0.key) }
{
    let start = offset(total, bytes);
    let (key, rest) = read_key(total, bytes)?;
    if is_less(key, last.0) {
        return Err(ReadError::NotCanonical { at: start });
    }
    let (tag, rest) = read_tag_after(alloc, total, last, start, key, rest)?;
    Ok((tag, key, rest))
}

fn read_tag_list(
    alloc: Global,
    total: usize,
    count: u32,
    bytes: &[u8],
) -> Result<(Vec<Tag>, &[u8]), ReadError>
    ensures { Gives (λ x. (x.0.items, x.1.now)) result (tag_list_at total no_tag count bytes.now) }
{
    let mut tags = Vec::new(alloc);
    let mut last_key: &[u8] = &[];
    let mut last_txn = Txn {
        writer: Writer(0),
        number: 0,
    };
    let mut rest = bytes;
    for _ in 0..count {
        let (tag, key, behind) = read_tag(alloc, total, (last_key, last_txn), rest)?;
        last_txn = tag.txn;
        tags.push(tag)?;
        last_key = key;
        rest = behind;
    }
    Ok((tags, rest))
}

/// Reads a list of tags, which ascend strictly by key, then writer, then number. Memory is taken for
/// the tags that are there.
#[tactic(auto, unfolding(crate::specs::Reading::tags_at))]
pub fn read_tags(alloc: Global, total: usize, bytes: &[u8]) -> Result<(TagList, &[u8]), ReadError>
    ensures { Gives (λ x. (x.0, x.1.now)) result (tags_at total bytes.now) }
{
    let (count, rest) = read_u32(total, 0, u32::MAX, bytes)?;
    let (tags, rest) = read_tag_list(alloc, total, count, rest)?;
    Ok((ItemList::from_vec(tags), rest))
}

fn put_tag(out: &mut Vec<u8>, tag: &Tag) -> Result<(), AllocError>
    ensures { OnOk result (out.new.items ≡ out.old.items ++ tag_bytes tag.now) }
{
    put_key(out, tag.key.as_slice())?;
    put_txn(out, tag.txn)?;
    Ok(())
}

/// Writes a list of tags.
pub fn put_tags(out: &mut Vec<u8>, tags: &[Tag]) -> Result<(), AllocError>
    requires { length tags.now ≤ 4294967295 }
    ensures { OnOk result (out.new.items ≡ out.old.items ++ tags_bytes tags.now) }
{
    put_u32(out, tags.len() as u32)?;
    for tag in tags {
        put_tag(out, tag)?;
    }
    Ok(())
}
