//! Lists of groups as bytes.
ghost use Rattle.std.specs.Prelude.{◌≡◌, ◌++◌, OnOk, All};
ghost use Rattle.std.specs.List.{flat_map};
ghost use Rattle.wire_fields.specs.Reading.{Gives};
ghost use Rattle.log_record.specs.Spelling.{group_bytes, IsGroup};
ghost use Rattle.message_parts.specs.Spelling.{groups_bytes, AreGroups};
ghost use Rattle.message_parts.specs.Reading.{group_list_at, groups_at};

use log_record::{put_group, read_group};
use std::alloc::{AllocError, Global};
use tm_base::{Group, GroupList, ItemList};
use wire_fields::{ReadError, put_u32, read_u32};

fn read_group_list(
    alloc: Global,
    total: usize,
    count: u32,
    bytes: &[u8],
) -> Result<(Vec<Group>, &[u8]), ReadError>
    ensures { Gives (λ x. (x.0.items, x.1.now)) result (group_list_at total count bytes.now) }
{
    let mut groups = Vec::new(alloc);
    let mut rest = bytes;
    for _ in 0..count {
        let (group, behind) = read_group(alloc, total, 1, rest)?;
        groups.push(group)?;
        rest = behind;
    }
    Ok((groups, rest))
}

/// Reads a list of groups. Memory is taken for the groups that are there, and not for as many as the
/// bytes claim.
#[tactic(auto, unfolding(crate::specs::Reading::groups_at))]
pub fn read_groups(
    alloc: Global,
    total: usize,
    bytes: &[u8],
) -> Result<(GroupList, &[u8]), ReadError>
    ensures { Gives (λ x. (x.0, x.1.now)) result (groups_at total bytes.now) }
{
    let (count, rest) = read_u32(total, 0, u32::MAX, bytes)?;
    let (groups, rest) = read_group_list(alloc, total, count, rest)?;
    Ok((ItemList::from_vec(groups), rest))
}

fn put_each(out: &mut Vec<u8>, groups: &[Group]) -> Result<(), AllocError>
    requires { All (IsGroup 0) groups.now }
    ensures { OnOk result (out.new.items ≡ out.old.items ++ flat_map group_bytes groups.now) }
{
    for group in groups {
        put_group(out, group)?;
    }
    Ok(())
}

/// Writes a list of groups.
pub fn put_groups(out: &mut Vec<u8>, groups: &GroupList) -> Result<(), AllocError>
    requires { AreGroups groups.now }
    ensures { OnOk result (out.new.items ≡ out.old.items ++ groups_bytes groups.now) }
{
    put_u32(out, groups.len() as u32)?;
    put_each(out, groups.as_slice())?;
    Ok(())
}
