//! Groups as bytes.
ghost use Rattle.std.specs.Prelude.{◌≡◌, ◌≤◌, ◌++◌, IfOk, OnOk, Ok};
ghost use Rattle.wire_fields.specs.Reading.{Gives};
ghost use Rattle.tm_data.specs.declared.log.Group.{Group as One};
ghost use Rattle.log_record.specs.Spelling.{group_bytes, IsGroup};
ghost use Rattle.log_record.specs.Reading.{group_at, group_of};

use crate::item::{put_items, read_items};
use crate::learnt::{put_vector, read_vector};
use std::alloc::{AllocError, Global};
use tm_base::{ByteList, Group, ItemList, MAX_STAMP, Mem, Stamp, Writer};
use wire_fields::{
    ReadError, check_end, offset, put_u16, put_u32, put_u64, read_u16, read_u32, read_u64,
};

/// A group has at most 65,536 bytes.
const MAX_GROUP: usize = 65536;

/// Reads a group of `least` records or more from the front of bytes.
#[tactic(auto, unfolding(crate::specs::Reading::group_at))]
pub fn read_group(
    alloc: Global,
    total: usize,
    least: u16,
    bytes: &[u8],
) -> Result<(Group, &[u8]), ReadError>
    ensures { Gives (λ x. (x.0, x.1.now)) result (group_at total least bytes.now) }
{
    let (writer, rest) = read_u32(total, 1, u32::MAX, bytes)?;
    let (seq, rest) = read_u32(total, 1, u32::MAX, rest)?;
    let (stamp, rest) = read_u64(total, 1, MAX_STAMP, rest)?;
    let (learnt, rest) = read_vector(alloc, total, writer, rest)?;
    let (count, rest) = read_u16(total, least, u16::MAX, rest)?;
    let (items, rest) = read_items(alloc, total, stamp, count == 1, count, rest)?;
    if bytes.len().saturating_sub(rest.len()) > MAX_GROUP {
        return Err(ReadError::NotCanonical {
            at: offset(total, bytes),
        });
    }
    let group = Group {
        writer: Writer(writer),
        seq,
        stamp: Stamp(stamp),
        learnt,
        records: ItemList::from_vec(items),
    };
    Ok((group, rest))
}

/// Writes a group.
pub fn put_group(out: &mut Vec<u8>, group: &Group) -> Result<(), AllocError>
    requires { IsGroup 0 group.now }
    ensures { OnOk result (out.new.items ≡ out.old.items ++ group_bytes group.now) }
{
    put_u32(out, group.writer.0)?;
    put_u32(out, group.seq)?;
    put_u64(out, group.stamp.0)?;
    put_vector(out, &group.learnt)?;
    put_u16(out, group.records.len() as u16)?;
    put_items(out, group.records.as_slice())?;
    Ok(())
}

#[tactic(auto, unfolding(crate::specs::Reading::group_of))]
fn read_whole(alloc: Global, least: u16, bytes: &[u8]) -> Result<Group, ReadError>
    ensures { Gives (λ x. x) result (group_of least bytes.now) }
{
    let total = bytes.len();
    let (group, rest) = read_group(alloc, total, least, bytes)?;
    check_end(total, rest)?;
    Ok(group)
}

/// The group that the bytes spell, all of the bytes.
///
/// Refuses other bytes by the cause and the offset of their first wrong field. Memory is taken for what
/// the bytes have, and not for what they claim to have.
pub fn decode(alloc: Global, bytes: &[u8]) -> Result<Group, ReadError>
    // What is read is spelled so.
    ensures found { IfOk result (λ g. IsGroup 1 g × (bytes.now ≡ group_bytes g)) }
    // What is spelled so is read, unless memory runs out.
    ensures only { (g : One) → IsGroup 1 g → bytes.now ≡ group_bytes g → Gives (λ x. x) result (Ok g) }
    // Which fault it is.
    ensures exact { Gives (λ x. x) result (group_of 1 bytes.now) }
{
    read_whole(alloc, 1, bytes)
}

/// As [`decode`], for the part of a group that one page store keeps: it may have no record.
pub fn decode_part(alloc: Global, bytes: &[u8]) -> Result<Group, ReadError>
    ensures found { IfOk result (λ g. IsGroup 0 g × (bytes.now ≡ group_bytes g)) }
    ensures only { (g : One) → IsGroup 0 g → bytes.now ≡ group_bytes g → Gives (λ x. x) result (Ok g) }
    ensures exact { Gives (λ x. x) result (group_of 0 bytes.now) }
{
    read_whole(alloc, 0, bytes)
}

/// The one spelling of the group.
pub fn encode(alloc: Global, group: &Group) -> Mem<ByteList>
    requires { IsGroup 1 group.now }
    ensures { IfOk result (λ bytes. bytes ≡ group_bytes group.now) }
{
    encode_part(alloc, group)
}

/// As [`encode`], for the part of a group that one page store keeps: it may have no record.
pub fn encode_part(alloc: Global, group: &Group) -> Mem<ByteList>
    requires { IsGroup 0 group.now }
    ensures { IfOk result (λ bytes. bytes ≡ group_bytes group.now) }
{
    let mut out = Vec::new(alloc);
    put_group(&mut out, group)?;
    Ok(ByteList::from_vec(out))
}
