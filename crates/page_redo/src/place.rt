//! Where a key has its place in a page.
ghost use Rattle.std.specs.Prelude.{◌≡◌};
ghost use Rattle.page_redo.specs.Places.{row_place_in, child_place_in, place_of};

use tm_base::{Body, Key, KeyPlace, Record};

fn row_place_in(body: &Body, key: &Key) -> KeyPlace
    ensures { result ≡ row_place_in body.now key.now }
{
    match body {
        Body::Leaf { rows, .. } => rows.place(key.as_slice()),
        _ => KeyPlace::Before(0),
    }
}

fn child_place_in(body: &Body, key: &Key) -> KeyPlace
    ensures { result ≡ child_place_in body.now key.now }
{
    match body {
        Body::Inner { entries, .. } => entries.place(key.as_slice()),
        _ => KeyPlace::Before(0),
    }
}

/// The place in a page of the key that a record sets or adds; the first place where it does neither.
pub(crate) fn place_of(body: &Body, change: &Record) -> KeyPlace
    ensures { result ≡ place_of body.now change.now }
{
    match change {
        Record::RowSet { row, .. } => row_place_in(body, &row.key),
        Record::NodeAdd { key, .. } => child_place_in(body, key),
        _ => KeyPlace::Before(0),
    }
}
