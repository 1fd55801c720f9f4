//! The walk of a scan.
ghost use Rattle.std.specs.Prelude.{◌≡◌, ◌++◌, ◌+◌, ◌≤◌, ℕ, List, [], Option, None, OnOk, IfOk, drop, filter, is_some, length, take};
ghost use Rattle.std.specs.Option.{option_copied};
ghost use Rattle.tm_data.specs.declared.transaction.Page.{Page};
ghost use Rattle.tm_data.specs.declared.row.Row.{Row};
ghost use Rattle.tm_lists.specs.Kept.{Ascend};
ghost use Rattle.key_fences.specs.Fences.{is_from};
ghost use Rattle.page_model.specs.Tree.{children, level_of};
ghost use Rattle.replica_model.specs.Reads.{body_at, from_on, paired, pairs_in, value_at, walk, walk_body, walk_places};
ghost use Rattle.replica_model.specs.Reads as model;
ghost use Rattle.replica_view.specs.Answers.{Adds, Sees, listed, pairs_of, places};

use crate::ViewError;
use crate::reads::is_table;
use crate::state::State;
use key_fences::{fence_bytes, is_below};
use row_tree::{Place, child_at, entries_up_to};
use tm_base::{
    Body, ChildList, Key, KeyPlace, Mem, Page, Pair, PairList, Row, RowList, TryCopy, Vector,
};

/// What a scan looks for: the keys of a table at a cut, from one on or all.
#[derive(Clone, Copy)]
struct Scan<'a> {
    cut: &'a Vector,
    table: u16,
    from: Option<&'a [u8]>,
}

impl State {
    /// The first so many pairs of a table at a point, ascending.
    pub(crate) fn scan(
        &self,
        point: u32,
        table: u16,
        from: Option<&Key>,
        count: usize,
    ) -> Result<PairList, ViewError>
        ensures { Sees (listed result) (model.scan self.now point table (option_copied from.entry) count) }
    {
        let Some(cut) = self.point(point) else {
            return Err(ViewError::NoPoint);
        };
        if !is_table(table) {
            return Err(ViewError::NoTable);
        }
        let from = key_bytes(from);
        let pairs = self.walk(&Scan { cut, table, from }, count)?;
        Ok(pairs)
    }

    /// The first so many pairs at a cut, ascending. It looks at the pages alone that the walk needs.
    fn walk(&self, scan: &Scan<'_>, count: usize) -> Result<PairList, ViewError>
        ensures { Sees (listed result) (walk self.now scan.now.cut.now scan.now.table (option_copied scan.now.from) count) }
    {
        let root = Place {
            page: Page(u32::from(scan.table)),
            low: None,
            high: None,
        };
        let body = self.body_at(scan.cut, scan.table, &root, None)?;
        let mut pairs = PairList::new(self.allocator());
        self.walk_below(scan, 5, &body, count, &mut pairs)?;
        Ok(pairs)
    }

    /// Adds the first so many pairs of a page, which has leaves at most so many levels below.
    #[cycle(walk)]
    fn walk_below(
        &self,
        scan: &Scan<'_>,
        levels: u8,
        body: &Body,
        count: usize,
        pairs: &mut PairList,
    ) -> Result<(), ViewError>
        ensures { Adds result pairs.old pairs.new (walk_body self.now scan.now.cut.now scan.now.table (option_copied scan.now.from) levels (Ok body.now) count) }
    {
        match body {
            Body::Blank => Ok(()),
            Body::Leaf { rows, .. } => {
                self.add_rows(scan, rows, count, pairs)?;
                Ok(())
            }
            Body::Inner { .. } => {
                if levels == 0 {
                    return Ok(());
                }
                self.walk_children(scan, levels - 1, body, count, pairs)?;
                Ok(())
            }
        }
    }

    /// Adds the first so many pairs of the children of an inner page, from the one to which the first key leads.
    #[cycle(walk)]
    fn walk_children(
        &self,
        scan: &Scan<'_>,
        levels: u8,
        body: &Body,
        count: usize,
        pairs: &mut PairList,
    ) -> Result<(), ViewError>
        ensures { Adds result pairs.old pairs.new (walk_places (λ place. walk_body self.now scan.now.cut.now scan.now.table (option_copied scan.now.from) levels (body_at self.now scan.now.cut.now scan.now.table place (Some (level_of body.now)))) (from_on (option_copied scan.now.from) (children body.now)) count) }
    {
        let Body::Inner {
            level,
            low,
            high,
            first,
            entries,
            ..
        } = body
        else {
            return Ok(());
        };
        let mut left = count;
        let end = entries.as_slice().len() + 1;
        for number in first_reached(scan.from, high, entries)..end {
            let place = child_at(low, high, *first, entries, number);
            let child = self.body_at(scan.cut, scan.table, &place, Some(*level))?;
            let before = pairs.len();
            self.walk_below(scan, levels, &child, left, pairs)?;
            let found = pairs.len() - before;
            if left <= found {
                return Ok(());
            }
            left -= found;
        }
        Ok(())
    }

    /// Adds the first so many pairs of a leaf's rows, from the first key on, which is found by halving.
    fn add_rows(
        &self,
        scan: &Scan<'_>,
        rows: &RowList,
        count: usize,
        pairs: &mut PairList,
    ) -> Mem<()>
        ensures { OnOk result (pairs_of pairs.new ≡ pairs_of pairs.old ++ take count (pairs_in self.now scan.now.cut.now (option_copied scan.now.from) rows.now)) }
    {
        let (_, rows) = rows.as_slice().split_at(first_row(scan.from, rows));
        self.add_all(scan.cut, rows, count, pairs)
    }

    /// Adds the first so many pairs of some rows.
    fn add_all(&self, cut: &Vector, rows: &[Row], count: usize, pairs: &mut PairList) -> Mem<()>
        ensures { OnOk result (pairs_of pairs.new ≡ pairs_of pairs.old ++ take count (pairs_in self.now cut.now None rows.now)) }
    {
        let mut left = count;
        for row in rows {
            if left == 0 {
                return Ok(());
            }
            if self.add_row(cut, row, pairs)? {
                left -= 1;
            }
        }
        Ok(())
    }

    /// Adds a row with its value at the cut, and tells whether it has one.
    fn add_row(&self, cut: &Vector, row: &Row, pairs: &mut PairList) -> Mem<bool>
        ensures some { IfOk result (λ some. some ≡ is_some (value_at self.now cut.now row.entry.now)) }
        ensures ok { OnOk result (pairs_of pairs.new ≡ pairs_of pairs.old ++ paired row.entry.now.key (value_at self.now cut.now row.entry.now) []) }
    {
        let Some(value) = self.value_at(cut, row)? else {
            return Ok(false);
        };
        let key = row.key.copy()?;
        pairs.push(Pair { key, value })?;
        Ok(true)
    }
}

/// The bytes of a key, if there is one.
fn key_bytes(key: Option<&Key>) -> Option<&[u8]>
    ensures { option_copied result ≡ option_copied key.entry }
{
    match key {
        Some(key) => Some(key.as_slice()),
        None => None,
    }
}

/// The number of the first child that may have keys from this one on. It looks at a few entries by halving.
fn first_reached(from: Option<&[u8]>, high: &Option<Key>, entries: &ChildList) -> usize
    ensures bound { result ≤ length entries.now + 1 }
    ensures from { (low : Option (List ℕ)) (first : Page) →
        from_on (option_copied from.entry) (places low high.now first entries.now) ≡ drop result (places low high.now first entries.now) }
{
    let Some(key) = from else {
        return 0;
    };
    let count = entries_up_to(entries, key);
    let all = entries.as_slice().len();
    if count == all && !is_below(fence_bytes(high), key) {
        return all + 1;
    }
    count
}

/// The number of the first row that has a key from this one on. It looks at a few by halving.
fn first_row(from: Option<&[u8]>, rows: &RowList) -> usize
    ensures bound { result ≤ length rows.now }
    ensures from { Ascend (λ (r : Row). r.key) rows.now →
        filter (λ (r : Row). is_from (option_copied from.entry) r.key) rows.now ≡ drop result rows.now }
{
    let Some(key) = from else {
        return 0;
    };
    match rows.place(key) {
        KeyPlace::At(at) => at,
        KeyPlace::Before(at) => at,
    }
}
