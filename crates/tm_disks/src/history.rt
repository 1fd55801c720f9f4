//! The changes that were made of a file in memory, with what they overwrote.
ghost use Rattle.std.specs.Prelude.{◌≡◌, ◌+◌, ◌-◌, ◌<◌, ◌≤◌, ◌++◌, [], ◌∷◌, length, OnOk, OnErr};
ghost use Rattle.std.specs.Vec.{vec_capacity, vec_len};
ghost use Rattle.tm_disks.specs.Disk.{HasRoom};
ghost use Rattle.tm_disks.specs.History.{newest_mark, newest_kept, older, span_of};

use std::alloc::Global;
use std::marker::Model;
use tm_base::{Mem, NoMemory};

/// One change: where it wrote and how many bytes, and the file's size before it.
#[derive(Clone, Copy, Debug)]
pub(crate) struct Mark {
    pub(crate) at: usize,
    pub(crate) span: usize,
    pub(crate) size: usize,
    pub(crate) is_sync: bool,
}

/// The changes of a file, with the bytes that each overwrote, and room for more of them.
///
/// Contracts see the list of the changes, the newest first, and the room.
#[derive(Debug, Drop)]
pub(crate) struct History {
    marks: Vec<Mark>,
    kept: Vec<u8>,
    most: usize,
    changes: u32,
}

impl Model for History {
    ghost use Rattle.std.specs.Prelude.{[]};
    ghost use Rattle.tm_disks.specs.MemoryDisk.{Past, newest_first};
    ghost use Rattle.tm_disks.specs.History.{IsRoomy};

    ghost Value = { Past };

    ghost view = { λ h. record { changes = newest_first [] h.marks.items h.kept.items; room = record { size = h.most; changes = h.changes } } };

    ghost invariant = { λ h. IsRoomy h.marks h.kept h.most h.changes };
}

impl History {
    /// No change, and no room for one.
    pub(crate) fn new(alloc: Global) -> History
        ensures { result ≡ record { changes = []; room = record { size = 0; changes = 0 } } }
    {
        History {
            marks: Vec::new(alloc),
            kept: Vec::new(alloc),
            most: 0,
            changes: 0,
        }
    }

    /// Makes room for so many changes, none of which overwrites more bytes than `size`.
    pub(crate) fn reserve(&mut self, size: usize, changes: u32) -> Mem<()>
        ensures ok { OnOk result (self.new ≡ record self.old { room = record { size = size; changes = changes } }) }
        ensures err { OnErr result (self.new ≡ self.old) }
    {
        let count = changes as usize;
        let bytes = count.checked_mul(size).ok_or(NoMemory)?;
        self.marks.reserve(count)?;
        self.kept.reserve(bytes)?;
        self.most = size;
        self.changes = changes;
        Ok(())
    }

    /// Adds a change that overwrote these bytes.
    pub(crate) fn note(&mut self, at: usize, kept: &[u8], size: usize, is_sync: bool)
        requires { HasRoom (length kept.now) 1 self.old.room }
        ensures { self.new ≡ record {
          changes = record { at = at; kept = kept.now; size = size; is_sync = is_sync } ∷ self.old.changes;
          room = record { size = self.old.room.size; changes = self.old.room.changes - 1 };
        } }
    {
        let mark = Mark {
            at,
            span: kept.len(),
            size,
            is_sync,
        };
        push_within(&mut self.marks, mark);
        extend_within(&mut self.kept, kept);
        self.changes -= 1;
    }

    /// The newest change, if there is one.
    pub(crate) fn newest(&self) -> Option<Mark>
        ensures { result ≡ newest_mark self.now.changes }
    {
        let count = self.marks.len();
        if count == 0 {
            return None;
        }
        Some(self.marks[count - 1])
    }

    /// How many bytes the newest change overwrote: none where there is no change.
    fn newest_span(&self) -> usize
        ensures { result ≡ span_of (newest_mark self.now.changes) }
    {
        match self.newest() {
            Some(mark) => mark.span,
            None => 0,
        }
    }

    /// The bytes that the newest change overwrote.
    pub(crate) fn overwritten(&self) -> &[u8]
        ensures { result.now ≡ newest_kept self.now.changes }
    {
        let span = self.newest_span();
        let (_, bytes) = self.kept.split_at(self.kept.len().saturating_sub(span));
        bytes
    }

    /// Forgets the newest change. The room stays.
    pub(crate) fn forget(&mut self)
        ensures { self.new ≡ record self.old { changes = older self.old.changes } }
    {
        let span = self.newest_span();
        self.marks.truncate(self.marks.len().saturating_sub(1));
        self.kept.truncate(self.kept.len().saturating_sub(span));
    }

    /// Forgets all changes. The room stays.
    pub(crate) fn clear(&mut self)
        ensures { self.new ≡ record self.old { changes = [] } }
    {
        self.marks.clear();
        self.kept.clear();
    }
}

// Adds a mark where there is memory for it.
fn push_within(marks: &mut Vec<Mark>, mark: Mark)
    requires { vec_len marks.old < vec_capacity marks.old }
    ensures items { marks.new.items ≡ marks.old.items ++ mark ∷ [] }
    ensures len { vec_len marks.new ≡ vec_len marks.old + 1 }
    ensures capacity { vec_capacity marks.old ≤ vec_capacity marks.new }
{
    let _ = marks.push(mark);
}

// Adds bytes where there is memory for them.
fn extend_within(kept: &mut Vec<u8>, bytes: &[u8])
    requires { vec_len kept.old + length bytes.now ≤ vec_capacity kept.old }
    ensures items { kept.new.items ≡ kept.old.items ++ bytes.now }
    ensures len { vec_len kept.new ≡ vec_len kept.old + length bytes.now }
    ensures capacity { vec_capacity kept.old ≤ vec_capacity kept.new }
{
    let _ = kept.extend_from_slice(bytes);
}
