//! A disk that stops after so many calls, as if the machine had.
ghost use Rattle.std.specs.Prelude.{◌≡◌, ◌↔◌, ◌+◌, ◌-◌, ◌^◌, min, None, IsErr, OnOk};
ghost use Rattle.tm_ports.specs.Faults.{HasCause};

use crate::Disk;
use tm_base::Mem;
use tm_ports::Failed;

/// It passes so many calls on to a disk, and fails each one after, without a change of the disk.
#[derive(Drop)]
pub struct Fuse<D: Disk> {
    disk: D,
    left: u32,
    refused: u64,
}

impl<D: Disk> Fuse<D> {
    ghost use Rattle.tm_disks.specs.Fuse.{disk_of, calls_left, IsFresh};

    /// A fuse in front of the disk, for `k` calls.
    pub fn new(disk: D, k: u32) -> Fuse<D>
        ensures disk { disk_of result ≡ disk }
        ensures calls { calls_left result ≡ k }
        ensures fresh { IsFresh result }
    {
        Fuse {
            disk,
            left: k,
            refused: 0,
        }
    }

    /// Gives the disk back.
    pub fn into_disk(self) -> D
        ensures { result ≡ disk_of self }
    {
        let Fuse { disk, .. } = self;
        disk
    }
}

// Takes one of the calls that are left.
fn spend(left: &mut u32, refused: &mut u64) -> Result<(), Failed>
    ensures cause { HasCause refused.old refused.new result }
    ensures same { OnOk result (refused.new ≡ refused.old) }
    ensures spent { left.new ≡ left.old - 1 }
    ensures blown { IsErr result ↔ (left.old ≡ 0) }
{
    if *left == 0 {
        *refused = refused.saturating_add(1);
        return Err(Failed);
    }
    *left -= 1;
    Ok(())
}

impl<D: Disk> Disk for Fuse<D> {
    ghost tells = { λ f. D.Disk.tells f.disk };

    ghost seen = { λ f. D.Disk.seen f.disk };

    ghost may_leave = { λ f. D.Disk.may_leave f.disk };

    ghost moment = { λ f. D.Disk.moment f.disk };

    ghost left_since = { λ f. D.Disk.left_since f.disk };

    ghost count = { λ f. min (D.Disk.count f.disk + f.refused) (2 ^ 64 - 1) };

    ghost failing = { λ f. None };

    ghost room = { λ f. D.Disk.room f.disk };

    ghost seen_may_stay = { λ f. D.Disk.seen_may_stay f.disk };

    ghost counts_now = { λ f. D.Disk.counts_now f.disk };

    ghost only_now = { λ f. D.Disk.only_now f.disk };

    fn faults(&self) -> u64 {
        self.disk.faults().saturating_add(self.refused)
    }

    fn open(&mut self, name: &[u8]) -> Result<(), Failed> {
        spend(&mut self.left, &mut self.refused)?;
        self.disk.open(name)?;
        Ok(())
    }

    fn size(&mut self) -> Result<u64, Failed> {
        spend(&mut self.left, &mut self.refused)?;
        let size = self.disk.size()?;
        Ok(size)
    }

    fn read(&mut self, at: u64, into: &mut [u8]) -> Result<usize, Failed> {
        spend(&mut self.left, &mut self.refused)?;
        let count = self.disk.read(at, into)?;
        Ok(count)
    }

    fn reserve(&mut self, size: u64, changes: u32) -> Mem<()> {
        self.disk.reserve(size, changes)?;
        Ok(())
    }

    fn write_at(&mut self, at: u64, bytes: &[u8]) -> Result<(), Failed> {
        spend(&mut self.left, &mut self.refused)?;
        self.disk.write_at(at, bytes)?;
        Ok(())
    }

    fn cut(&mut self, size: u64) -> Result<(), Failed> {
        spend(&mut self.left, &mut self.refused)?;
        self.disk.cut(size)?;
        Ok(())
    }

    fn sync(&mut self) -> Result<(), Failed> {
        spend(&mut self.left, &mut self.refused)?;
        self.disk.sync()?;
        Ok(())
    }

    // The disk behind it may fail at a named call of its own.
    fn fail_at(&mut self, k: u32) {
        self.disk.fail_at(k);
    }
}
