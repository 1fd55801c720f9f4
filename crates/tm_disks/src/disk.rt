//! A file on a disk, as a journal sees it.
ghost use Rattle.std.specs.Prelude.{◌≡◌, ◌+◌, ◌≤◌, ◌<◌, List, ℕ, Bool, length, take, IsTrue, IfOk, OnOk, OnErr};
ghost use Rattle.std.specs.Io.{ReadsAtMost};
ghost use Rattle.std.specs.declared.option.Option.{Option};
ghost use Rattle.tm_disks.specs.Disk.{Reads, Holds, Torn, Cut, Follows, Only, Elapses, Stands, Room, Uses, HasRoom, Failing, Obeys, with_named};
ghost use Rattle.tm_ports.specs.Faults.{HasCause};

use tm_base::Mem;
use tm_ports::Failed;

/// One file of a disk.
///
/// Its calls are `open`, `size`, `read`, `write_at`, `cut` and `sync`; each may fail, and does so only
/// where the count of faults rose. For what a crash may leave, a write or a cut that failed counts as
/// one that was made. A disk that tells nothing of its bytes, as one of the system, promises only that.
pub trait Disk {
    /// Whether it tells its bytes. That never changes.
    ghost tells: { Self → Bool };

    /// The bytes that a read gives.
    ghost seen: { Self → List ℕ };

    /// What a crash at this moment may leave.
    ghost may_leave: { Self → List ℕ → Type 0 };

    /// The moment, as a number that doesn't fall.
    ghost moment: { Self → ℕ };

    /// What a crash at some moment from that one on might have left, during a call or between two.
    ghost left_since: { Self → ℕ → List ℕ → Type 0 };

    /// How often it failed.
    ghost count: { Self → ℕ };

    /// Which of the coming calls are to fail, where it tells.
    ghost failing: { Self → Option Failing };

    /// For how many more changes memory is there, and up to which size.
    ghost room: { Self → Room };

    /// How often it failed. The count stays at `u64::MAX`.
    fn faults(&self) -> u64
        ensures { result ≡ count self.now };

    /// Opens the file of this name. No other call succeeds before, on a disk of the system.
    fn open(&mut self, name: &[u8]) -> Result<(), Failed>
        ensures stands { Stands seen may_leave moment left_since self.old self.new }
        ensures tells { tells self.new ≡ tells self.old }
        ensures room { room self.new ≡ room self.old }
        ensures plan { Obeys (failing self.old) (failing self.new) result }
        ensures cause { HasCause (count self.old) (count self.new) result };

    /// How many bytes the file has.
    fn size(&mut self) -> Result<u64, Failed>
        ensures size { IsTrue (tells self.old) → IfOk result (λ n. n ≡ length (seen self.old)) }
        ensures stands { Stands seen may_leave moment left_since self.old self.new }
        ensures tells { tells self.new ≡ tells self.old }
        ensures room { room self.new ≡ room self.old }
        ensures plan { Obeys (failing self.old) (failing self.new) result }
        ensures cause { HasCause (count self.old) (count self.new) result };

    /// Gives the bytes from `at` on, as many as there is room for or as the file has.
    fn read(&mut self, at: u64, into: &mut [u8]) -> Result<usize, Failed>
        ensures within { ReadsAtMost result into.new }
        ensures bytes { IsTrue (tells self.old) → IfOk result (λ n. Reads (seen self.old) at into.new n) }
        ensures stands { Stands seen may_leave moment left_since self.old self.new }
        ensures tells { tells self.new ≡ tells self.old }
        ensures room { room self.new ≡ room self.old }
        ensures plan { Obeys (failing self.old) (failing self.new) result }
        ensures cause { HasCause (count self.old) (count self.new) result };

    /// Makes room: the next so many calls of `write_at`, `cut` and `sync`, none of them past `size`
    /// bytes, take no memory. It is no call of the disk, and changes nothing else.
    fn reserve(&mut self, size: u64, changes: u32) -> Mem<()>
        ensures ok { OnOk result (HasRoom size changes (room self.new)) }
        ensures err { OnErr result (room self.new ≡ room self.old) }
        ensures stands { Stands seen may_leave moment left_since self.old self.new }
        ensures tells { tells self.new ≡ tells self.old }
        ensures plan { failing self.new ≡ failing self.old }
        ensures count { count self.new ≡ count self.old };

    /// Writes over what is there, and past the end. Until a sync, a crash may leave any bytes in the range.
    fn write_at(&mut self, at: u64, bytes: &[u8]) -> Result<(), Failed>
        requires inside { IsTrue (tells self.old) → at ≤ length (seen self.old) }
        requires room { HasRoom (at + length bytes.now) 1 (room self.old) }
        ensures written { IsTrue (tells self.old) → OnOk result (Holds (seen self.old) at bytes.now (seen self.new)) }
        ensures crash { Follows (Torn at (length bytes.now)) (may_leave self.old) (may_leave self.new) }
        ensures time { Elapses (moment self.old) (moment self.new) (left_since self.old) (left_since self.new) (may_leave self.new) }
        ensures tells { tells self.new ≡ tells self.old }
        ensures room { Uses (room self.old) (room self.new) }
        ensures plan { Obeys (failing self.old) (failing self.new) result }
        ensures cause { HasCause (count self.old) (count self.new) result };

    /// Cuts the file to so many bytes. Until a sync, a crash may leave any bytes from there up to the old end.
    fn cut(&mut self, size: u64) -> Result<(), Failed>
        requires inside { IsTrue (tells self.old) → size ≤ length (seen self.old) }
        requires room { HasRoom size 1 (room self.old) }
        ensures cut { IsTrue (tells self.old) → OnOk result (seen self.new ≡ take size (seen self.old)) }
        ensures crash { Follows (Cut size) (may_leave self.old) (may_leave self.new) }
        ensures time { Elapses (moment self.old) (moment self.new) (left_since self.old) (left_since self.new) (may_leave self.new) }
        ensures tells { tells self.new ≡ tells self.old }
        ensures room { Uses (room self.old) (room self.new) }
        ensures plan { Obeys (failing self.old) (failing self.new) result }
        ensures cause { HasCause (count self.old) (count self.new) result };

    /// After it, a crash leaves what a read gives.
    fn sync(&mut self) -> Result<(), Failed>
        requires room { HasRoom 0 1 (room self.old) }
        ensures durable { IsTrue (tells self.old) → OnOk result (Only (seen self.old) (may_leave self.new)) }
        ensures stands { Stands seen may_leave moment left_since self.old self.new }
        ensures tells { tells self.new ≡ tells self.old }
        ensures room { Uses (room self.old) (room self.new) }
        ensures plan { Obeys (failing self.old) (failing self.new) result }
        ensures cause { HasCause (count self.old) (count self.new) result };

    /// The k-th call from now on is to fail, in place of one that was named so before and hasn't come.
    /// It is no call of the disk and takes no memory. A disk that can't fail on demand ignores it.
    fn fail_at(&mut self, k: u32)
        requires { 1 ≤ k }
        ensures stands { Stands seen may_leave moment left_since self.old self.new }
        ensures tells { tells self.new ≡ tells self.old }
        ensures room { room self.new ≡ room self.old }
        ensures plan { failing self.new ≡ with_named (failing self.old) k }
        ensures count { count self.new ≡ count self.old };

    /// What a read gives is one of the contents that a crash may leave.
    ghost seen_may_stay: { (disk : Self) → may_leave disk (seen disk) };

    /// This moment is one of those since an earlier one.
    ghost counts_now: { (disk : Self) (t : ℕ) (c : List ℕ) → t ≤ moment disk → may_leave disk c → left_since disk t c };

    /// Since this moment there is no other.
    ghost only_now: { (disk : Self) (c : List ℕ) → left_since disk (moment disk) c → may_leave disk c };
}
