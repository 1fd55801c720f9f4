//! The groups of a log in a row, by their places.
ghost use Rattle.std.specs.Prelude.{◌≡◌, ◌≤◌, IfOk, length, drop, map, slice_get};
ghost use Rattle.std.specs.Option.{option_copied};
ghost use Rattle.log_writer.specs.Log.{acked_at, reached, resent, stamp_at, unacknowledged};
ghost use Rattle.log_writer.specs.TakenBack.{taken_at};

use crate::{Acks, Logged, RESENT};
use std::alloc::Global;
use std::collections::VecDeque;
use tm_base::{Group, GroupList, Mem, NoMemory, Stamp, TryCopy};

/// The stamp of that place, counted from 1, where that of place 0 is `before`.
pub(crate) fn stamp_at(before: Stamp, groups: &VecDeque<Logged>, place: usize) -> Stamp
    requires { place ≤ length groups.now.items }
    ensures { result.0 ≡ stamp_at before.0 groups.now.items place }
{
    if place == 0 {
        return before;
    }
    groups[place - 1].group.stamp
}

/// The group of that index.
pub(crate) fn at(groups: &VecDeque<Logged>, index: usize) -> Option<&Logged>
    ensures { option_copied result ≡ slice_get groups.now.items index }
{
    groups.get(index)
}

/// These groups, none acknowledged, each in memory of its own.
pub(crate) fn unacknowledged(alloc: Global, groups: &[Group]) -> Mem<VecDeque<Logged>>
    ensures { IfOk result (λ row. row.items ≡ map unacknowledged groups.now) }
{
    let mut row = VecDeque::new(alloc);
    for group in groups {
        let logged = Logged {
            group: group.copy()?,
            acks: Acks::new(),
        };
        let Ok(()) = row.push_back(logged) else {
            return Err(NoMemory);
        };
    }
    Ok(row)
}

/// Notes an acknowledgement of the group of that place, counted from 1.
pub(crate) fn mark(groups: &mut VecDeque<Logged>, store: u8, place: usize)
    ensures { groups.new.items ≡ acked_at groups.old.items store place }
{
    if place == 0 {
        return;
    }
    if let Some(logged) = groups.get_mut(place - 1) {
        logged.acks = logged.acks.with(store);
    }
}

/// Takes back an acknowledgement of the group of that place, counted from 1.
pub(crate) fn unmark(groups: &mut VecDeque<Logged>, store: u8, place: usize)
    ensures { groups.new.items ≡ taken_at groups.old.items store place }
{
    if place == 0 {
        return;
    }
    if let Some(logged) = groups.get_mut(place - 1) {
        logged.acks = logged.acks.without(store);
    }
}

/// How many groups from the front on a store acknowledged, where it did so for the first `from`.
pub(crate) fn walk_on(groups: &VecDeque<Logged>, store: u8, from: usize) -> usize
    requires { from ≤ reached groups.now.items store }
    ensures { result ≡ reached groups.now.items store }
{
    let mut count = from;
    while count < groups.len() {
        if !groups[count].acks.has(store) {
            return count;
        }
        count += 1;
    }
    count
}

/// Drops so many groups from the front on.
pub(crate) fn drop_front(groups: &mut VecDeque<Logged>, count: usize)
    ensures { groups.new.items ≡ drop count groups.old.items }
{
    for _ in 0..count {
        groups.pop_front();
    }
}

/// The lowest groups that a store hasn't acknowledged, where it did so for the first `from`.
pub(crate) fn first_lacking(groups: &VecDeque<Logged>, from: usize, store: u8) -> Mem<GroupList>
    requires { from ≤ reached groups.now.items store }
    ensures { IfOk result (λ lacking. lacking ≡ resent groups.now.items store) }
{
    let mut lacking = GroupList::new(*groups.allocator());
    for at in from..groups.len() {
        if lacking.len() == RESENT {
            return Ok(lacking);
        }
        let logged = &groups[at];
        if !logged.acks.has(store) {
            lacking.push(logged.group.copy()?)?;
        }
    }
    Ok(lacking)
}
