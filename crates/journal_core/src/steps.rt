//! Changes of a disk, each with a sync behind it.
ghost use Rattle.std.specs.Prelude.{◌≡◌, ◌+◌, ◌≤◌, IsTrue, List, ℕ, length, take, OnOk};
ghost use Rattle.tm_disks.specs.Disk.{Holds, Only, HasRoom, LeavesOnly};
ghost use Rattle.tm_ports.specs.Faults.{HasCause};
ghost use Rattle.journal_core.specs.Steps.{TornOf, CutOf, UsesTwo};

use tm_disks::Disk;
use tm_ports::Failed;

/// Writes bytes, and syncs.
pub(crate) fn write_synced<D: Disk>(disk: &mut D, at: u64, bytes: &[u8]) -> Result<(), Failed>
    requires inside { IsTrue (D.tells disk.old) → at ≤ length (D.seen disk.old) }
    requires room { HasRoom (at + length bytes.now) 2 (D.room disk.old) }
    ensures written { IsTrue (D.tells disk.old) → OnOk result (Holds (D.seen disk.old) at bytes.now (D.seen disk.new)) }
    ensures durable { IsTrue (D.tells disk.old) → OnOk result (Only (D.seen disk.new) (D.may_leave disk.new)) }
    ensures any_moment { LeavesOnly D.moment D.left_since disk.old disk.new (TornOf (D.may_leave disk.old) at (length bytes.now)) }
    ensures tells { D.tells disk.new ≡ D.tells disk.old }
    ensures room { UsesTwo (D.room disk.old) (D.room disk.new) }
    ensures cause { HasCause (D.count disk.old) (D.count disk.new) result }
{
    disk.write_at(at, bytes)?;
    disk.sync()?;
    Ok(())
}

/// Cuts the file, and syncs.
pub(crate) fn cut_synced<D: Disk>(disk: &mut D, size: u64) -> Result<(), Failed>
    requires inside { IsTrue (D.tells disk.old) → size ≤ length (D.seen disk.old) }
    requires room { HasRoom size 2 (D.room disk.old) }
    ensures cut { IsTrue (D.tells disk.old) → OnOk result (D.seen disk.new ≡ take size (D.seen disk.old)) }
    ensures durable { IsTrue (D.tells disk.old) → OnOk result (Only (D.seen disk.new) (D.may_leave disk.new)) }
    ensures any_moment { LeavesOnly D.moment D.left_since disk.old disk.new (CutOf (D.may_leave disk.old) size) }
    ensures tells { D.tells disk.new ≡ D.tells disk.old }
    ensures cause { HasCause (D.count disk.old) (D.count disk.new) result }
{
    disk.cut(size)?;
    disk.sync()?;
    Ok(())
}
