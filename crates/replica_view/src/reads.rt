//! What is read at a point.
ghost use Rattle.std.specs.Prelude.{◌≡◌, IfOk, None, Ok, Result, false};
ghost use Rattle.std.specs.FinMap.{get};
ghost use Rattle.tm_data.specs.declared.image.Image.{Image};
ghost use Rattle.version_chain.specs.Answers.{Tells};
ghost use Rattle.page_model.specs.Tree.{root};
ghost use Rattle.page_model.specs.Versions.{Fault};
ghost use Rattle.row_tree.specs.Inside.{place_of};
ghost use Rattle.replica_model.specs.Reads.{body_at, find_in, has_end, is_expected, is_table, row_value, unless_ended, usable_image, value_at};
ghost use Rattle.replica_model.specs.Reads as model;
ghost use Rattle.replica_view.specs.Answers.{Sees, SeesImage};

use crate::ViewError;
use crate::state::State;
use row_tree::{Place, child_for, is_at, level_of};
use tm_base::{
    Before, Body, Image, Key, KeyPlace, Mem, Page, Row, RowList, TryCopy, Txn, Value, Vector,
};
use version_chain::VersionError;

impl State {
    /// The value of a key of a table at a point.
    pub(crate) fn get(&self, point: u32, table: u16, key: &Key) -> Result<Option<Value>, ViewError>
        ensures { Sees result (model.get self.now point table key.now) }
    {
        let Some(cut) = self.point(point) else {
            return Err(ViewError::NoPoint);
        };
        if !is_table(table) {
            return Err(ViewError::NoTable);
        }
        let value = self.find(cut, table, key)?;
        Ok(value)
    }

    /// The value of a key of a table at a cut. It looks at the pages of the key's path alone.
    fn find(&self, cut: &Vector, table: u16, key: &Key) -> Result<Option<Value>, ViewError>
        ensures { Sees result (find_in self.now cut.now table key.now 5 (body_at self.now cut.now table (root table) None)) }
    {
        let root = Place {
            page: Page(u32::from(table)),
            low: None,
            high: None,
        };
        let body = self.body_at(cut, table, &root, None)?;
        let value = self.find_below(cut, table, key, 5, &body)?;
        Ok(value)
    }

    /// The value of a key in a page or below it, at most so many levels.
    fn find_below(
        &self,
        cut: &Vector,
        table: u16,
        key: &Key,
        levels: u8,
        body: &Body,
    ) -> Result<Option<Value>, ViewError>
        ensures { Sees result (find_in self.now cut.now table key.now levels (Ok body.now)) }
    {
        match body {
            Body::Blank => Ok(None),
            Body::Leaf { rows, .. } => {
                let value = self.row_value(cut, key, rows)?;
                Ok(value)
            }
            Body::Inner {
                level,
                low,
                high,
                first,
                entries,
                ..
            } => {
                if levels == 0 {
                    return Ok(None);
                }
                let place = child_for(key.as_slice(), low, high, *first, entries);
                let child = self.body_at(cut, table, &place, Some(*level))?;
                let value = self.find_below(cut, table, key, levels - 1, &child)?;
                Ok(value)
            }
        }
    }

    /// What is at a place at a cut.
    pub(crate) fn body_at(
        &self,
        cut: &Vector,
        table: u16,
        place: &Place<'_>,
        above: Option<u8>,
    ) -> Result<Body, ViewError>
        ensures { Sees result (body_at self.now cut.now table (place_of place.now) above) }
    {
        let version = self.pages().page_at_cut(place.page, cut);
        usable(table, place, above, version)
    }

    /// The value of a key among the rows of its leaf, which is found by halving.
    fn row_value(&self, cut: &Vector, key: &Key, rows: &RowList) -> Mem<Option<Value>>
        ensures { IfOk result (λ value. value ≡ row_value self.now cut.now key.now rows.now) }
    {
        let KeyPlace::At(at) = rows.place(key.as_slice()) else {
            return Ok(None);
        };
        let Some(row) = rows.get(at) else {
            return Ok(None);
        };
        let value = self.value_at(cut, row)?;
        Ok(value)
    }

    /// The value of a row at a cut: what its transaction wrote, if that has ended there, or else what was there before.
    pub(crate) fn value_at(&self, cut: &Vector, row: &Row) -> Mem<Option<Value>>
        ensures { IfOk result (λ value. value ≡ value_at self.now cut.now row.entry.now) }
    {
        if self.has_ended(cut, row.txn) {
            let value = row.now.copy()?;
            return Ok(value);
        }
        let value = before(row)?;
        Ok(value)
    }

    /// Whether the end of a transaction is in the cut.
    fn has_ended(&self, cut: &Vector, txn: Txn) -> bool
        ensures { result ≡ has_end cut.now (get self.now.ends txn) }
    {
        match self.ends().get(&txn) {
            Some(mark) => mark.stamp.0 <= cut.get(mark.writer).0,
            None => false,
        }
    }
}

/// The value before a row's transaction.
fn before(row: &Row) -> Mem<Option<Value>>
    ensures { IfOk result (λ value. value ≡ unless_ended row.entry.now.now row.entry.now.before false) }
{
    match &row.before {
        Before::Same => {
            let value = row.now.copy()?;
            Ok(value)
        }
        Before::Was(value) => {
            let value = value.copy()?;
            Ok(value)
        }
    }
}

/// What an image holds, if the place's parent expects it there.
fn usable(
    table: u16,
    place: &Place<'_>,
    above: Option<u8>,
    version: Result<Image, VersionError>,
) -> Result<Body, ViewError>
    ensures { (given : Result Image Fault) → Tells version given → Sees result (usable_image table (place_of place.now) above given) }
{
    let image = image_of(version)?;
    let Image { stamp, body, .. } = image;
    if !is_expected(table, place, above, &body) {
        return Err(ViewError::Unfit { stamp });
    }
    Ok(body)
}

fn image_of(version: Result<Image, VersionError>) -> Result<Image, ViewError>
    ensures { (given : Result Image Fault) → Tells version given → SeesImage result given }
{
    match version {
        Ok(image) => Ok(image),
        Err(VersionError::Missing { stamp }) => Err(ViewError::Unfit { stamp }),
        Err(VersionError::Unfit { stamp }) => Err(ViewError::Unfit { stamp }),
        Err(VersionError::NoMemory) => Err(ViewError::NoMemory),
    }
}

/// Whether a page is of the table, with the fences of the place, and exactly one level below its parent's, if that is given.
fn is_expected(table: u16, place: &Place<'_>, above: Option<u8>, body: &Body) -> bool
    ensures { result ≡ is_expected table (place_of place.now) above body.now }
{
    if !is_at(table, place, body) {
        return false;
    }
    match above {
        Some(level) => u16::from(level_of(body)) + 1 == u16::from(level),
        None => true,
    }
}

/// Whether there is such a table.
pub(crate) fn is_table(table: u16) -> bool
    ensures { result ≡ is_table table }
{
    1 <= table && table <= 1024
}
