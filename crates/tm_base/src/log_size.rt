//! How many bytes groups have when they are stored.
ghost use Rattle.std.specs.Prelude.{◌≡◌, ◌+◌, ◌*◌, ◌≤◌, min, length, sum_by};
ghost use Rattle.tm_base.specs.Sizes.{MOST};
ghost use Rattle.tm_base.specs.GroupSizes.{record_size, group_size};

use crate::page_size::body_size;
use crate::{Group, Record, row_size};

fn record_size(change: &Record) -> usize
    ensures { result ≡ min (record_size change.now) MOST }
{
    match change {
        Record::RowSet { row, .. } => 15 + row_size(row),
        Record::Cut { at, .. } => 14 + at.as_slice().len(),
        Record::Format { body, .. } => body_size(body).saturating_add(1),
        Record::NodeAdd { key, .. } => 18 + key.as_slice().len(),
        Record::End { .. } => 10,
        Record::Beat => 1,
    }
}

fn records_size(records: &[Record]) -> usize
    ensures { result ≡ min (sum_by record_size records.now) MOST }
{
    let mut total: usize = 0;
    for change in records {
        total = total.saturating_add(record_size(change));
    }
    total
}

/// How many bytes a group has when it is stored. The sum stops at the greatest `usize`.
pub fn group_size(group: &Group) -> usize
    ensures { result ≡ min (group_size group.now) MOST }
{
    let learnt = group.learnt.as_slice().len().saturating_mul(12);
    records_size(group.records.as_slice()).saturating_add(learnt.saturating_add(20))
}
