//! Which groups go into one message.
ghost use Rattle.std.specs.Prelude.{◌≡◌, ◌||◌, nat_le, IfOk};
ghost use Rattle.store_model.specs.LogStep.{fitting};

use std::alloc::Global;
use tm_base::{Group, GroupList, Mem, TryCopy, group_size};

/// A message of groups has at most 1 MiB, unless it has one group alone.
const MAX_BYTES: usize = 1_048_576;

/// The bytes of it beside the groups: two nodes, the stamp, the kind, the writer and the count.
const HEAD_BYTES: usize = 21;

/// The first of the groups in any case, and each further one while there is room for it.
pub fn fitting(alloc: Global, groups: &[Group]) -> Mem<GroupList>
    ensures { IfOk result (λ served. served ≡ fitting groups.now) }
{
    let mut served = GroupList::new(alloc);
    let mut room = MAX_BYTES - HEAD_BYTES;
    let mut is_first = true;
    for group in groups {
        let size = group_size(group);
        if !goes_in(is_first, room, size) {
            return Ok(served);
        }
        served.push(group.copy()?)?;
        room = room.saturating_sub(size);
        is_first = false;
    }
    Ok(served)
}

/// Whether a group of this size goes into the message.
fn goes_in(is_first: bool, room: usize, size: usize) -> bool
    ensures { result ≡ is_first || nat_le size room }
{
    is_first || size <= room
}
