//! One record more in the file of a journal.
ghost use Rattle.std.specs.Prelude.{Ok, ◌≡◌, ◌+◌, ◌<◌, ◌≤◌, ◌^◌, ◌++◌, IsTrue, List, ℕ, [], ◌∷◌, length, OnOk};
ghost use Rattle.std.specs.Int.{w32, to_be_bytes};
ghost use Rattle.std.specs.Vec.{vec_capacity, vec_len};
ghost use Rattle.tm_disks.specs.Disk.{Only, HasRoom, LeavesOnly};
ghost use Rattle.tm_ports.specs.Faults.{HasCause};
ghost use Rattle.journal_core.specs.Inside.{IsAtRest};
ghost use Rattle.journal_core.specs.Reading.{IsBeforeOrAfter, bodies_in, max_body, opened, with_record};

use crate::steps::write_synced;
use tm_disks::Disk;
use tm_ports::Failed;

// Adds bytes where there is memory for them.
fn extend_within(buffer: &mut Vec<u8>, bytes: &[u8])
    requires { vec_len buffer.old + length bytes.now ≤ vec_capacity buffer.old }
    ensures items { buffer.new.items ≡ buffer.old.items ++ bytes.now }
    ensures len { vec_len buffer.new ≡ vec_len buffer.old + length bytes.now }
    ensures capacity { vec_capacity buffer.old ≤ vec_capacity buffer.new }
{
    let _ = buffer.extend_from_slice(bytes);
}

// Puts what stands behind a record's gate, and a new end gate, into the buffer.
fn stage(buffer: &mut Vec<u8>, body: &[u8])
    requires short { length body.now ≤ max_body }
    requires room { 5 + length body.now ≤ vec_capacity buffer.old }
    ensures { buffer.new.items ≡ (to_be_bytes w32 (length body.now) ++ body.now) ++ 0 ∷ [] }
{
    buffer.clear();
    let length = (body.len() as u32).to_be_bytes();
    extend_within(buffer, &length);
    extend_within(buffer, body);
    extend_within(buffer, &[0]);
}

/// Writes a record behind the end gate, with a new end gate, and then opens the old one.
pub(crate) fn write_record<D: Disk>(
    disk: &mut D,
    end: u64,
    buffer: &mut Vec<u8>,
    body: &[u8],
) -> Result<(), Failed>
    requires short { length body.now ≤ max_body }
    requires fits { 5 + length body.now ≤ vec_capacity buffer.old }
    requires place { end + 6 + length body.now < 2 ^ 64 }
    requires room { HasRoom (end + 6 + length body.now) 4 (D.room disk.old) }
    requires rest { IsTrue (D.tells disk.old) → IsAtRest (D.seen disk.old) end }
    requires settled { IsTrue (D.tells disk.old) → Only (D.seen disk.old) (D.may_leave disk.old) }
    ensures file { IsTrue (D.tells disk.old) → OnOk result (D.seen disk.new ≡ with_record (D.seen disk.old) body.now) }
    ensures bodies { IsTrue (D.tells disk.old) → OnOk result (opened (D.seen disk.new) ≡ Ok (bodies_in (D.seen disk.old) ++ body.now ∷ [])) }
    ensures rest { IsTrue (D.tells disk.old) → OnOk result (IsAtRest (D.seen disk.new) (end + (5 + length body.now))) }
    ensures durable { IsTrue (D.tells disk.old) → OnOk result (Only (D.seen disk.new) (D.may_leave disk.new)) }
    ensures any_moment { IsTrue (D.tells disk.old) → LeavesOnly D.moment D.left_since disk.old disk.new (IsBeforeOrAfter (bodies_in (D.seen disk.old)) body.now) }
    ensures tells { D.tells disk.new ≡ D.tells disk.old }
    ensures cause { HasCause (D.count disk.old) (D.count disk.new) result }
{
    stage(buffer, body);
    write_synced(disk, end + 1, buffer)?;
    write_synced(disk, end, &[1])?;
    Ok(())
}
