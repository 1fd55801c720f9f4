//! Records applied to images.
ghost use Rattle.std.specs.Prelude.{◌≡◌, Some};
ghost use Rattle.page_model.specs.Effects.{page_of, prev_of};
ghost use Rattle.page_redo.specs.Redo.{redo_of, Answers};

use crate::RedoError;
use crate::edits::redo;
use crate::place::place_of;
use crate::suits::suits;
use tm_base::{Image, Record, Stamp};

/// Applies a record to the image of its page, which becomes the version of that stamp.
///
/// Refuses `WrongPrev` exactly where the record was made on another version than the image, then `Unfit`
/// exactly where it doesn't suit what the page holds. The image is as it was then, and with want of
/// memory, which comes only where neither of these does.
pub fn apply(image: &mut Image, change: &Record, stamp: Stamp) -> Result<(), RedoError>
    requires { page_of change.now ≡ Some image.old.page.0 }
    ensures { Answers result image.old image.new (redo_of image.old change.now stamp.0) }
{
    let wants = prev_of(change);
    if wants.0 != image.stamp.0 {
        return Err(RedoError::WrongPrev {
            has: image.stamp,
            wants,
        });
    }
    let place = place_of(&image.body, change);
    if !suits(image, change, place) {
        return Err(RedoError::Unfit);
    }
    redo(&mut image.body, change, place)?;
    image.stamp = stamp;
    Ok(())
}

/// The stamp of the version that a record was made on, 0 for one that changes no page.
pub fn prev_of(change: &Record) -> Stamp
    ensures { result.0 ≡ prev_of change.now }
{
    match change {
        Record::RowSet { prev, .. } => *prev,
        Record::Cut { prev, .. } => *prev,
        Record::Format { prev, .. } => *prev,
        Record::NodeAdd { prev, .. } => *prev,
        Record::End { .. } => Stamp(0),
        Record::Beat => Stamp(0),
    }
}
