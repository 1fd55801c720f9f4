//! What records change in pages, in place.
ghost use Rattle.std.specs.Prelude.{◌≡◌, OnOk, OnErr, IsSome, Some};
ghost use Rattle.page_model.specs.Effects.{redone};
ghost use Rattle.page_redo.specs.Places.{row_place_in, child_place_in, place_of, row_put, child_put, cut_below};

use std::mem;
use tm_base::{Body, Child, Key, KeyPlace, Mem, Record, Row, TryCopy};

/// Makes the change of a record that suits, whose key has this place. With want of memory nothing changes.
pub(crate) fn redo(body: &mut Body, change: &Record, place: KeyPlace) -> Mem<()>
    requires suits { IsSome (redone body.old change.now) }
    requires at { place ≡ place_of body.old change.now }
    ensures ok { OnOk result (redone body.old change.now ≡ Some body.new) }
    ensures err { OnErr result (body.new ≡ body.old) }
{
    match change {
        Record::RowSet { row, .. } => {
            let new = row.copy()?;
            put_row(body, new, place)?;
        }
        Record::Cut { at, .. } => {
            let at = at.copy()?;
            cut(body, at);
        }
        Record::Format { body: new, .. } => {
            let new = new.copy()?;
            *body = new;
        }
        Record::NodeAdd { key, child, .. } => {
            let key = key.copy()?;
            put_child(body, Child { key, page: *child }, place)?;
        }
        _ => {}
    }
    Ok(())
}

/// Sets a row in a leaf, in the place of its key.
#[tactic(auto, using(page_model::proofs::PlacedLemmas::put_is_set))]
fn put_row(body: &mut Body, new: Row, place: KeyPlace) -> Mem<()>
    requires { place ≡ row_place_in body.old new.key }
    ensures ok { OnOk result (body.new ≡ row_put body.old new) }
    ensures err { OnErr result (body.new ≡ body.old) }
{
    match mem::replace(body, Body::Blank) {
        Body::Leaf {
            table,
            low,
            high,
            mut rows,
        } => {
            let outcome = rows.set(new, place);
            *body = Body::Leaf {
                table,
                low,
                high,
                rows,
            };
            outcome
        }
        other => {
            *body = other;
            Ok(())
        }
    }
}

/// Adds a child to an inner page that has none with its key, in the place of its key.
fn put_child(body: &mut Body, new: Child, place: KeyPlace) -> Mem<()>
    requires { place ≡ child_place_in body.old new.key }
    ensures ok { OnOk result (body.new ≡ child_put body.old new) }
    ensures err { OnErr result (body.new ≡ body.old) }
{
    match mem::replace(body, Body::Blank) {
        Body::Inner {
            table,
            level,
            low,
            high,
            first,
            mut entries,
        } => {
            let outcome = entries.set(new, place);
            *body = Body::Inner {
                table,
                level,
                low,
                high,
                first,
                entries,
            };
            outcome
        }
        other => {
            *body = other;
            Ok(())
        }
    }
}

/// Drops what has keys from `at` on, which becomes the high fence. It takes no memory.
fn cut(body: &mut Body, at: Key)
    ensures { body.new ≡ cut_below body.old at }
{
    match mem::replace(body, Body::Blank) {
        Body::Leaf {
            table,
            low,
            high: _,
            mut rows,
        } => {
            rows.cut(at.as_slice());
            *body = Body::Leaf {
                table,
                low,
                high: Some(at),
                rows,
            };
        }
        Body::Inner {
            table,
            level,
            low,
            high: _,
            first,
            mut entries,
        } => {
            entries.cut(at.as_slice());
            *body = Body::Inner {
                table,
                level,
                low,
                high: Some(at),
                first,
                entries,
            };
        }
        Body::Blank => {}
    }
}
