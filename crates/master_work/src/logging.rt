//! Groups that change no page, and what a command waits for.
ghost use Rattle.std.specs.Prelude.{◌≡◌, ◌+◌, ◌<◌, ◌≤◌, ◌-◌, ◌^◌, ◌∷◌, [], None, Some, true, IfOk, OnOk, OnErr};
ghost use Rattle.std.specs.List.{AllByRecursion};
ghost use Rattle.page_model.specs.Effects.{page_of};
ghost use Rattle.master_work.specs.Changes.{IsMadeOn, group_after};
ghost use Rattle.master_model.specs.Ends.{awaited};
ghost use Rattle.master_model.specs.Logging.{has_numbers, has_stamps, next_group, with_group};

use crate::WorkState;
use tm_base::{Group, Mem, Page, Record, RecordList, Stamp, Vector};

/// The greatest stamp.
const LAST_STAMP: u64 = 0x7fff_ffff_ffff_ffff;

impl WorkState {
    /// Whether so many further groups have numbers below `2^32 - 1`.
    pub fn has_numbers(&self, count: u32) -> bool
        ensures { result ≡ has_numbers self.now count }
    {
        u64::from(self.timed.last_seq()) + u64::from(count) < u64::from(u32::MAX)
    }

    /// Whether so many further groups have stamps up to `2^63 - 1`.
    pub fn has_stamps(&self, count: u32) -> bool
        ensures { result ≡ has_stamps self.now count }
    {
        self.timed.scalar().0 + u64::from(count) <= LAST_STAMP
    }

    /// The next group of one record. There is a number for it. It isn't logged yet.
    pub fn next_group(&self, change: Record) -> Mem<Group>
        requires { has_numbers self.now 1 ≡ true }
        ensures { IfOk result (λ group. group ≡ next_group self.now (change ∷ [])) }
    {
        let mut records = RecordList::new(self.alloc);
        records.push(change)?;
        let group = self.timed.next(records)?;
        Ok(group)
    }

    /// Logs the next group, whose records change no page: it has the end of a transaction, or says nothing. There is a
    /// stamp for it. With want of memory nothing changes.
    pub fn log_plain(&mut self, group: Group) -> Mem<()>
        requires stamp { has_stamps self.old 1 ≡ true }
        requires plain { AllByRecursion (λ change. page_of change ≡ None) group.records }
        requires next { group ≡ next_group self.old group.records }
        ensures ok { OnOk result (self.new ≡ with_group self.old group) }
        ensures err { OnErr result (self.new ≡ self.old) }
    {
        self.timed.log(group)?;
        Ok(())
    }

    /// Logs the next group, whose one record was made on the image of its page as the pool has it, and changes the image,
    /// unless the record doesn't suit it; the page's last change is the group's then. There is a stamp for it. With want
    /// of memory nothing changes.
    #[tactic(auto, using(crate::proofs::ChangeLemmas::with_one))]
    pub fn log_change(&mut self, page: Page, change: &Record, group: Group) -> Mem<()>
        requires stamp { has_stamps self.old 1 ≡ true }
        requires one { group.records ≡ change.now ∷ [] }
        requires names { page_of change.now ≡ Some page.0 }
        requires held { IsMadeOn self.old.pool page.0 change.now }
        requires next { group ≡ next_group self.old group.records }
        ensures ok { OnOk result (self.new ≡ with_group self.old group) }
        ensures err { OnErr result (self.new ≡ self.old) }
    {
        let stamp = group.stamp;
        self.timed.log_change(&mut self.pool, page, change, group)?;
        self.desk.changed(page, stamp);
        Ok(())
    }

    /// The group of one record after the next one, which tells nothing more. There are numbers for both. It isn't logged
    /// yet.
    pub fn group_after(&self, change: Record) -> Mem<Group>
        requires { has_numbers self.now 2 ≡ true }
        ensures { IfOk result (λ group. group ≡ group_after self.now (change ∷ [])) }
    {
        let mut records = RecordList::new(self.alloc);
        records.push(change)?;
        Ok(Group {
            writer: self.timed.writer(),
            seq: self.timed.last_seq() + 2,
            stamp: Stamp(self.timed.scalar().0 + 2),
            learnt: Vector::new(self.alloc),
            records,
        })
    }

    /// Logs the next group as [`log_change`](WorkState::log_change) does, and one after it that changes no page. There
    /// are stamps for both. With want of memory nothing changes.
    #[tactic(auto, using(crate::proofs::ChangeLemmas::with_two))]
    pub fn log_change_and(
        &mut self,
        page: Page,
        change: &Record,
        group: Group,
        after: Group,
    ) -> Mem<()>
        requires stamp { has_stamps self.old 2 ≡ true }
        requires one { group.records ≡ change.now ∷ [] }
        requires names { page_of change.now ≡ Some page.0 }
        requires held { IsMadeOn self.old.pool page.0 change.now }
        requires next { group ≡ next_group self.old group.records }
        requires after { after ≡ group_after self.old after.records }
        requires plain { AllByRecursion (λ change. page_of change ≡ None) after.records }
        ensures ok { OnOk result (self.new ≡ with_group (with_group self.old group) after) }
        ensures err { OnErr result (self.new ≡ self.old) }
    {
        let stamp = group.stamp;
        self.timed
            .log_change_and(&mut self.pool, page, change, group, after)?;
        self.desk.changed(page, stamp);
        Ok(())
    }

    /// The log store and the group that a command waits for until the group of that number is durable: that group, or,
    /// where every store has it, the first one that isn't durable. None once the group is durable.
    pub fn waits_for(&self, seq: u32) -> Option<(u8, u32)>
        ensures { result ≡ awaited self.now seq }
    {
        let durable = self.timed.durable_seq();
        if seq <= durable {
            return None;
        }
        if let Some(store) = self.timed.lacking(seq) {
            return Some((store, seq));
        }
        let next = durable + 1;
        let Some(store) = self.timed.lacking(next) else {
            return None;
        };
        Some((store, next))
    }
}
