//! What a cut of a history has.
ghost use Rattle.history_laws.specs.CutRows.{CutsHaveTheirRows, CutsHaveTheRowsAtThem};

/// The images of a cut that is whole for pages tile every table from its root, its rows are those of the
/// cut's puts, and every leaf image, reached or not, has exactly those between its fences. The premises are
/// that each group fits the images after those before it, and each put the rows.
///
/// It refuses a cut that leaves out a group on whose version of a page another one of its groups stands, and
/// images at a cut that pass over a record that doesn't suit.
pub fn cuts_have_their_rows()
    ensures { CutsHaveTheirRows }
{}

/// The same with the rows at the cut as the event list gives them: the row of a key is that of its last put
/// in the cut, with the value before that put's transaction. It wants besides that each transaction's puts on
/// a key stand together: else a row knows of its last transaction alone, and not of that one's earlier puts.
pub fn cuts_have_the_rows_at_them()
    ensures { CutsHaveTheRowsAtThem }
{}
