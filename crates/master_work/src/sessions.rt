//! The transactions of a master's sessions.
ghost use Rattle.std.specs.Prelude.{◌≡◌, ◌≤◌, ◌<◌, ◌+◌, ◌^◌, Some, None, IsSome, IfOk, OnOk, OnErr, IfSome, length, nat_eq, not};
ghost use Rattle.std.specs.List.{list_any};
ghost use Rattle.std.specs.Option.{option_copied};
ghost use Rattle.std.specs.FinMap as fin;
ghost use Rattle.master_model.specs.Fates.{is_over, is_open_in};
ghost use Rattle.master_model.specs.declared.session.Own.{Own};
ghost use Rattle.master_work.specs.Parts.{first_of};
ghost use Rattle.master_model.specs.declared.session.Progress.TheVariants.{Active, Undoing};

use master_model::{Own, Progress};
use master_parts::NumberTable;
use std::alloc::Global;
use std::marker::Model;
use tm_base::{Key, LengthError, Mem, NoMemory, RowKey, RowSet, TryCopy};

/// The transaction of each session that has one, and how many were begun: they are numbered from 1, each with a number
/// of its own, by which its session is found. Contracts see how many were begun, and the finite map from session to
/// transaction.
#[derive(Drop)]
pub struct Sessions {
    alloc: Global,
    begun: u32,
    owns: NumberTable<Own>,
    places: NumberTable<u16>,
}

impl Model for Sessions {
    ghost use Rattle.master_work.specs.Parts.{Begun, IsIndexed, coded_begun};

    ghost Value = { Begun };

    ghost coded = { coded_begun };

    ghost view = { λ s. record { begun = s.begun; owns = s.owns.map } };

    ghost invariant = { λ s. IsIndexed s.begun s.owns.map s.places.map };
}

/// Whether a transaction's end is durable, where groups are up to this number.
pub fn is_over(durable: u32, progress: &Progress) -> bool
    ensures { result ≡ is_over durable progress.now }
{
    match progress {
        Progress::Active => false,
        Progress::Undoing => false,
        Progress::Ended { seq, .. } => *seq <= durable,
    }
}

/// What stands for a session's transaction while that is changed.
fn nothing(alloc: Global) -> Own {
    Own {
        number: 0,
        written: RowSet::new(alloc),
        progress: Progress::Active,
    }
}

/// A row that a transaction has written and not undone.
#[derive(Drop)]
pub struct WrittenRow {
    pub row: RowKey,
    /// The row's key.
    pub key: Key,
    /// How many such rows there are behind it, by table and key.
    pub left: u64,
}

impl Sessions {
    /// No session has a transaction, and none was begun.
    pub fn new(alloc: Global) -> Sessions
        ensures { result ≡ record { begun = 0; owns = fin.empty } }
    {
        Sessions {
            alloc,
            begun: 0,
            owns: NumberTable::new(alloc),
            places: NumberTable::new(alloc),
        }
    }

    /// How many transactions were begun.
    pub fn begun(&self) -> u32
        ensures { result ≡ self.now.begun }
    {
        self.begun
    }

    /// The transaction of a session.
    pub fn get(&self, session: u16) -> Option<&Own>
        ensures { option_copied result ≡ fin.get self.now.owns session }
    {
        self.owns.get(u32::from(session))
    }

    /// Begins the next transaction in a session that has none, and gives its number. With want of memory nothing
    /// changes.
    pub fn begin(&mut self, session: u16) -> Mem<u32>
        requires free { fin.get self.old.owns session ≡ None }
        requires fits { self.old.begun + 1 < 2 ^ 32 }
        ensures number { IfOk result (λ number. number ≡ self.old.begun + 1) }
        ensures ok { OnOk result (self.new ≡ record { begun = self.old.begun + 1; owns = fin.insert self.old.owns session (record { number = self.old.begun + 1; written = fin.empty; progress = Active }) }) }
        ensures err { OnErr result (self.new ≡ self.old) }
    {
        self.owns.make_room(1)?;
        self.places.make_room(1)?;
        let number = self.begun + 1;
        let own = Own {
            number,
            written: RowSet::new(self.alloc),
            progress: Progress::Active,
        };
        self.owns.insert(u32::from(session), own);
        self.places.insert(number, session);
        self.begun = number;
        Ok(number)
    }

    /// How far the transaction of a session has come. It takes no memory.
    pub fn set_progress(&mut self, session: u16, progress: Progress)
        requires { IsSome (fin.get self.old.owns session) }
        ensures { (own : Own) → fin.get self.old.owns session ≡ Some own
            → self.new ≡ record self.old { owns = fin.insert self.old.owns session (record own { progress = progress }) } }
    {
        let session = u32::from(session);
        let Some(own) = self.owns.replace(session, nothing(self.alloc)) else {
            return;
        };
        self.owns.replace(
            session,
            Own {
                number: own.number,
                written: own.written,
                progress,
            },
        );
    }

    /// The transaction of a session has written a row, whose key has 1 to 64 bytes. Gives whether it hadn't before. With
    /// want of memory nothing changes.
    pub fn add_written(&mut self, session: u16, row: RowKey) -> Mem<bool>
        requires there { IsSome (fin.get self.old.owns session) }
        requires least { 1 ≤ length row.key }
        requires most { length row.key ≤ 64 }
        ensures new { (own : Own) → fin.get self.old.owns session ≡ Some own
            → IfOk result (λ added. added ≡ not (fin.contains_key own.written row)) }
        ensures ok { (own : Own) → fin.get self.old.owns session ≡ Some own
            → OnOk result (self.new ≡ record self.old { owns = fin.insert self.old.owns session (record own { written = fin.insert own.written row tt }) }) }
        ensures err { OnErr result (self.new ≡ self.old) }
    {
        let session = u32::from(session);
        let Some(mut own) = self.owns.replace(session, nothing(self.alloc)) else {
            return Ok(false);
        };
        let had = own.written.contains(&row);
        let added = own.written.insert(row);
        self.owns.replace(session, own);
        added?;
        Ok(!had)
    }

    /// Takes back that a session's transaction has written a row which it hadn't before. It takes no memory.
    pub fn take_written_back(&mut self, session: u16, row: &RowKey)
        requires { IsSome (fin.get self.old.owns session) }
        ensures { (own : Own) → fin.get self.old.owns session ≡ Some own
            → self.new ≡ record self.old { owns = fin.insert self.old.owns session (record own { written = fin.remove own.written row.now }) } }
    {
        let session = u32::from(session);
        let Some(mut own) = self.owns.replace(session, nothing(self.alloc)) else {
            return;
        };
        own.written.remove(row);
        self.owns.replace(session, own);
    }

    /// The first row that a session's transaction has written and not undone, by table and key; none where there is none.
    pub fn first_written(&self, session: u16) -> Mem<Option<WrittenRow>>
        requires { IsSome (fin.get self.now.owns session) }
        ensures { (own : Own) → fin.get self.now.owns session ≡ Some own
            → IfOk result (λ first. first ≡ first_of (fin.keys own.written)) }
    {
        let Some(own) = self.owns.get(u32::from(session)) else {
            return Ok(None);
        };
        let mut rows = own.written.iter();
        let Some(row) = rows.next() else {
            return Ok(None);
        };
        let key = match Key::new(self.alloc, row.key.as_slice()) {
            Ok(key) => key,
            Err(LengthError::Length { .. }) => unreachable!(),
            Err(LengthError::NoMemory) => return Err(NoMemory),
        };
        let row = row.copy()?;
        let left = rows.count() as u64;
        Ok(Some(WrittenRow { row, key, left }))
    }

    /// The transaction of a session has undone a row, which counts no more as written. It takes no memory.
    pub fn undone(&mut self, session: u16, row: &RowKey)
        requires { IsSome (fin.get self.old.owns session) }
        ensures { (own : Own) → fin.get self.old.owns session ≡ Some own
            → self.new ≡ record self.old { owns = fin.insert self.old.owns session (record own { written = fin.remove own.written row.now; progress = Undoing }) } }
    {
        let session = u32::from(session);
        let Some(own) = self.owns.replace(session, nothing(self.alloc)) else {
            return;
        };
        let mut written = own.written;
        written.remove(row);
        self.owns.replace(
            session,
            Own {
                number: own.number,
                written,
                progress: Progress::Undoing,
            },
        );
    }

    /// A session has no transaction any more. It takes no memory.
    pub fn free(&mut self, session: u16)
        ensures { self.new ≡ record self.old { owns = fin.remove self.old.owns session } }
    {
        let session = u32::from(session);
        let Some(own) = self.owns.get(session) else {
            return;
        };
        let number = own.number;
        self.owns.remove(session);
        self.places.remove(number);
    }

    /// Whether the transaction of this number is open, where groups are durable up to this number: it is a session's,
    /// and its end isn't durable.
    pub fn is_open(&self, durable: u32, number: u32) -> bool
        ensures { result ≡ list_any (λ e. is_open_in durable number e.1) (fin.entries self.now.owns) }
    {
        let Some(session) = self.places.get(number) else {
            return false;
        };
        let Some(own) = self.owns.get(u32::from(*session)) else {
            return false;
        };
        !is_over(durable, &own.progress)
    }
}
