//! The clock of a writer, and its log.
ghost use Rattle.std.specs.Prelude.{◌≡◌, ◌≤◌, ◌<◌, ◌+◌, ◌-◌, ◌^◌, Some, IfOk, OnOk, OnErr};
ghost use Rattle.tm_data.specs.Vectors.{greatest};
ghost use Rattle.vs_clock.specs.State.{started, heard_scalar, heard_vector, sending, ticked, told};
ghost use Rattle.std.specs.Option.{option_copied};
ghost use Rattle.log_writer.specs.Log.{acked, appended, durable_seq, durable_stamp, group_of, lacking, last_seq, last_stamp, let_go, new_log, numbered, resent, settled};
ghost use Rattle.log_writer.specs.TakenBack.{taken_back};
ghost use Rattle.page_model.specs.Effects.{page_of};
ghost use Rattle.master_work.specs.Changes.{IsMadeOn, redone_in};

use buffer_pool::Pool;
use log_writer::LogWriter;
use log_writer::laws::{a_group_is_dropped_whole, letting_go_changes_no_answer};
use page_redo::RedoError;
use std::alloc::Global;
use std::marker::Model;
use tm_base::{
    Group, GroupList, Mem, NoMemory, Page, Record, RecordList, Stamp, TryCopy, Vector, Writer,
};
use vs_clock::Clock;

/// A writer's clock and its log. No group has a stamp above the clock's scalar. Contracts see the state of the clock
/// and the log.
#[derive(Drop)]
pub struct ClockedLog {
    clock: Clock,
    log: LogWriter,
}

impl Model for ClockedLog {
    ghost use Rattle.std.specs.Prelude.{◌≤◌};
    ghost use Rattle.log_writer.specs.Log.{last_stamp};
    ghost use Rattle.master_work.specs.Parts.{Timed};

    ghost Value = { Timed };

    ghost view = { λ t. record { clock = t.clock; log = t.log } };

    ghost invariant = { λ t. last_stamp t.log ≤ t.clock.scalar };
}

impl ClockedLog {
    /// The clock of a writer, numbered from 1, that stands at `start`, at most `2^63 - 1`, and a log with no groups.
    pub fn new(alloc: Global, writer: Writer, start: Stamp) -> ClockedLog
        requires writer { 1 ≤ writer.0 }
        requires start { start.0 ≤ 2 ^ 63 - 1 }
        ensures { result ≡ record { clock = started writer.0 start.0; log = new_log writer } }
    {
        ClockedLog {
            clock: Clock::new(alloc, writer, start),
            log: LogWriter::new(alloc, writer),
        }
    }

    /// The writer.
    pub fn writer(&self) -> Writer
        ensures { result ≡ self.now.log.writer }
    {
        self.log.writer()
    }

    /// The greatest stamp that was given or heard.
    pub fn scalar(&self) -> Stamp
        ensures value { result.0 ≡ self.now.clock.scalar }
        ensures fits { result.0 ≤ 2 ^ 63 - 1 }
    {
        self.clock.scalar()
    }

    /// Raises the scalar to a stamp that was heard, at most `2^63 - 1`.
    pub fn hear_scalar(&mut self, stamp: Stamp)
        requires { stamp.0 ≤ 2 ^ 63 - 1 }
        ensures { self.new ≡ record self.old { clock = heard_scalar self.old.clock stamp.0 } }
    {
        self.clock.hear_scalar(stamp);
    }

    /// Hears what another writer sent, with stamps up to `2^63 - 1`. With want of memory nothing changes.
    pub fn hear_vector(&mut self, vector: &Vector) -> Mem<()>
        requires { greatest vector.now ≤ 2 ^ 63 - 1 }
        ensures ok { OnOk result (self.new ≡ record self.old { clock = heard_vector self.old.clock vector.now }) }
        ensures err { OnErr result (self.new ≡ self.old) }
    {
        self.clock.hear_vector(vector)?;
        Ok(())
    }

    /// A copy of the clock, to hear more before anything else changes.
    pub fn clock(&self) -> Mem<Clock>
        ensures { IfOk result (λ clock. clock ≡ self.now.clock) }
    {
        self.clock.copy()
    }

    /// Goes on with a clock that stands at least where this one does.
    pub fn set_clock(&mut self, clock: Clock)
        requires { self.old.clock.scalar ≤ clock.scalar }
        ensures { self.new ≡ record self.old { clock = clock } }
    {
        self.clock = clock;
    }

    /// The own entry of the vector for sending: the stamp of the last durable group.
    pub fn own_entry(&self) -> Stamp
        ensures value { result.0 ≡ durable_stamp self.now.log }
        ensures fits { result.0 ≤ 2 ^ 63 - 1 }
    {
        let _ = self.clock.scalar();
        let _ = self.log.last_seq();
        self.log.durable()
    }

    /// The vector for sending, whose own entry is the stamp of the last durable group.
    pub fn vector(&self) -> Mem<Vector>
        ensures value { IfOk result (λ vector. vector ≡ sending self.now.clock (durable_stamp self.now.log)) }
        ensures fits { IfOk result (λ vector. greatest vector ≤ 2 ^ 63 - 1) }
    {
        let vector = self.clock.vector_for_sending(self.own_entry())?;
        Ok(vector)
    }

    /// The stamp up to which every change of the writer is durable.
    pub fn settled(&self) -> Stamp
        ensures { result.0 ≡ settled self.now.log self.now.clock.scalar }
    {
        self.log.settled(self.clock.scalar())
    }

    /// The same, once the scalar stands here.
    pub fn settled_at(&self, scalar: Stamp) -> Stamp
        ensures { result.0 ≡ settled self.now.log scalar.0 }
    {
        self.log.settled(scalar)
    }

    /// The number of the last durable group, 0 while there is none.
    pub fn durable_seq(&self) -> u32
        ensures { result ≡ durable_seq self.now.log }
    {
        self.log.durable_seq()
    }

    /// The number of the last group, 0 while there is none.
    pub fn last_seq(&self) -> u32
        ensures { result ≡ last_seq self.now.log }
    {
        self.log.last_seq()
    }

    /// The stamp of the last group, 0 while there is none.
    pub fn last_stamp(&self) -> Stamp
        ensures { result.0 ≡ last_stamp self.now.log }
    {
        self.log.last_stamp()
    }

    /// The least log store that hasn't acknowledged the group of that number, none where all three have. A group that
    /// isn't logged yet no store has.
    pub fn lacking(&self, seq: u32) -> Option<u8>
        ensures { result ≡ lacking self.now.log seq }
    {
        self.log.lacking(seq)
    }

    /// The group of that number, none where it was let go or isn't logged.
    pub fn group(&self, seq: u32) -> Option<&Group>
        ensures { option_copied result ≡ group_of (numbered self.now.log seq) }
    {
        self.log.group(seq)
    }

    /// The 16 lowest groups that a log store hasn't acknowledged, or all of these that are still here where there are
    /// fewer, in the order of their numbers.
    pub fn resend(&self, store: u8) -> Mem<GroupList>
        ensures { IfOk result (λ groups. groups ≡ resent self.now.log.groups store) }
    {
        let groups = self.log.resend(store)?;
        Ok(groups)
    }

    /// A log store acknowledged the group of that number. Of a store outside 1 to 3, or of a group that isn't here,
    /// nothing is noted. It takes no memory.
    #[tactic(auto, using(crate::proofs::LogLemmas::acked_stamp))]
    pub fn on_ack(&mut self, store: u8, seq: u32)
        ensures { self.new ≡ record self.old { log = acked self.old.log store seq } }
    {
        self.log.on_ack(store, seq);
    }

    /// Takes back what [`on_ack`](ClockedLog::on_ack) noted. Of a group that was let go nothing is taken back. It takes
    /// no memory.
    #[tactic(auto, using(crate::proofs::LogLemmas::taken_stamp))]
    pub fn take_back(&mut self, store: u8, seq: u32)
        ensures { self.new ≡ record self.old { log = taken_back self.old.log store seq } }
    {
        self.log.take_back(store, seq);
    }

    /// Lets the durable groups go. Whatever is asked of the log is answered as before, but for `group` of these. It
    /// takes no memory.
    pub fn let_go(&mut self)
        ensures { self.new ≡ record self.old { log = let_go self.old.log } }
    {
        letting_go_changes_no_answer();
        self.log.let_go();
    }

    /// The next group of these records: it has the next number and the next stamp, and tells what was learnt since the
    /// one before. It isn't logged yet.
    pub fn next(&self, records: RecordList) -> Mem<Group>
        requires number { last_seq self.now.log + 1 < 2 ^ 32 }
        ensures { IfOk result (λ group. group ≡ record { writer = self.now.log.writer; seq = last_seq self.now.log + 1; stamp = record { 0 = self.now.clock.scalar + 1 }; learnt = self.now.clock.untold; records = records }) }
    {
        Ok(Group {
            writer: self.log.writer(),
            seq: self.log.last_seq() + 1,
            stamp: Stamp(self.clock.scalar().0 + 1),
            learnt: self.clock.learnt()?,
            records,
        })
    }

    /// Logs the next group. Its stamp is at most `2^63 - 1`. With want of memory nothing changes.
    pub fn log(&mut self, group: Group) -> Mem<()>
        requires own { group.writer ≡ self.old.log.writer }
        requires number { group.seq ≡ last_seq self.old.log + 1 }
        requires next { group.stamp.0 ≡ self.old.clock.scalar + 1 }
        requires stamp { group.stamp.0 ≤ 2 ^ 63 - 1 }
        ensures ok { OnOk result (self.new ≡ record { clock = told (ticked self.old.clock); log = appended self.old.log group }) }
        ensures err { OnErr result (self.new ≡ self.old) }
    {
        self.log.append(group)?;
        let _ = self.clock.tick();
        self.clock.told();
        Ok(())
    }

    /// Logs the next group, whose one record was made on the image of its page as the pool has it, and changes the image,
    /// unless the record doesn't suit it. Its stamp is at most `2^63 - 1`. With want of memory nothing changes: the
    /// group goes again where the image can't be changed, and the clock ticks last, since it can't go back.
    pub fn log_change(
        &mut self,
        pool: &mut Pool,
        page: Page,
        change: &Record,
        group: Group,
    ) -> Mem<()>
        requires own { group.writer ≡ self.old.log.writer }
        requires number { group.seq ≡ last_seq self.old.log + 1 }
        requires next { group.stamp.0 ≡ self.old.clock.scalar + 1 }
        requires stamp { group.stamp.0 ≤ 2 ^ 63 - 1 }
        requires names { page_of change.now ≡ Some page.0 }
        requires held { IsMadeOn pool.old page.0 change.now }
        ensures ok { OnOk result (self.new ≡ record { clock = told (ticked self.old.clock); log = appended self.old.log group }) }
        ensures image { OnOk result (pool.new ≡ redone_in pool.old page.0 change.now group.stamp.0) }
        ensures err { OnErr result (self.new ≡ self.old) }
        ensures same { OnErr result (pool.new ≡ pool.old) }
    {
        let stamp = group.stamp;
        self.log.append(group)?;
        if change_image(pool, page, change, stamp).is_err() {
            a_group_is_dropped_whole();
            self.log.drop_last();
            return Err(NoMemory);
        }
        let _ = self.clock.tick();
        self.clock.told();
        Ok(())
    }
}

impl ClockedLog {
    /// Logs such a group, and one after it that changes no page. With want of memory nothing changes.
    pub fn log_change_and(
        &mut self,
        pool: &mut Pool,
        page: Page,
        change: &Record,
        group: Group,
        after: Group,
    ) -> Mem<()>
        requires own { group.writer ≡ self.old.log.writer }
        requires number { group.seq ≡ last_seq self.old.log + 1 }
        requires next { group.stamp.0 ≡ self.old.clock.scalar + 1 }
        requires names { page_of change.now ≡ Some page.0 }
        requires held { IsMadeOn pool.old page.0 change.now }
        requires after_own { after.writer ≡ self.old.log.writer }
        requires after_number { after.seq ≡ last_seq self.old.log + 2 }
        requires after_next { after.stamp.0 ≡ self.old.clock.scalar + 2 }
        requires stamp { after.stamp.0 ≤ 2 ^ 63 - 1 }
        ensures ok { OnOk result (self.new ≡ record { clock = told (ticked (told (ticked self.old.clock))); log = appended (appended self.old.log group) after }) }
        ensures image { OnOk result (pool.new ≡ redone_in pool.old page.0 change.now group.stamp.0) }
        ensures err { OnErr result (self.new ≡ self.old) }
        ensures same { OnErr result (pool.new ≡ pool.old) }
    {
        let stamp = group.stamp;
        self.log.append(group)?;
        if self.log.append(after).is_err() {
            a_group_is_dropped_whole();
            self.log.drop_last();
            return Err(NoMemory);
        }
        if change_image(pool, page, change, stamp).is_err() {
            a_group_is_dropped_whole();
            self.log.drop_last();
            self.log.drop_last();
            return Err(NoMemory);
        }
        let _ = self.clock.tick();
        self.clock.told();
        let _ = self.clock.tick();
        self.clock.told();
        Ok(())
    }
}

/// Changes the image of a page by a record that was made on it, unless the record doesn't suit it. With want of memory
/// nothing changes.
#[tactic(auto, using(crate::proofs::ChangeLemmas::applied, crate::proofs::ChangeLemmas::unfit, crate::proofs::ChangeLemmas::never_wrong))]
fn change_image(pool: &mut Pool, page: Page, change: &Record, stamp: Stamp) -> Mem<()>
    requires names { page_of change.now ≡ Some page.0 }
    requires held { IsMadeOn pool.old page.0 change.now }
    ensures ok { OnOk result (pool.new ≡ redone_in pool.old page.0 change.now stamp.0) }
    ensures err { OnErr result (pool.new ≡ pool.old) }
{
    match pool.change(page, change, stamp) {
        Ok(()) => Ok(()),
        Err(RedoError::Unfit) => Ok(()),
        Err(RedoError::WrongPrev { .. }) => Ok(()),
        Err(RedoError::NoMemory) => Err(NoMemory),
    }
}
