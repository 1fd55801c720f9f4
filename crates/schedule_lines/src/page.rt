//! Commands of page stores, and their lines.
ghost use Rattle.std.specs.Prelude.{◌≡◌, ◌≤◌, [], ◌∷◌, decimal, IfSome, IfNone};
ghost use Rattle.tm_base.specs.declared.message.Node.TheVariants as node;
ghost use Rattle.schedule_lines.specs.Lines.{IsIn};
ghost use Rattle.schedule_lines.specs.Inside.{IsLineOf, IsCommandOf, IsNoPage, IsNoStoreCommand, NoneBehind};

use crate::verb::Verb;
use crate::words::Words;
use tm_base::{Line, MAX_STAMP, Page, Stamp, Step};

/// A line of this verb, `page` or `version`, whose other words these are.
pub(crate) fn store_line(verb: Verb, mut words: Words) -> Option<Line>
    ensures some { IfSome result (IsLineOf verb words.entry) }
    ensures none { IfNone result (NoneBehind node.PageStore (IsNoStoreCommand verb) words.entry) }
{
    let store = words.numbered(b'p')?;
    let step = store_command(store, verb, words)?;
    Some(Line::Step(step))
}

/// The command of a page store: a verb, and the words behind the store.
pub(crate) fn store_command(store: u8, verb: Verb, words: Words) -> Option<Step>
    requires { 1 ≤ store }
    ensures some { IfSome result (IsCommandOf (node.PageStore store) verb words.entry) }
    ensures none { IfNone result (IsNoStoreCommand verb words.entry) }
{
    match verb {
        Verb::Page => {
            let (page, stamp) = page_in(words)?;
            Some(Step::Page { store, page, stamp })
        }
        Verb::Version => {
            let (page, stamp) = page_in(words)?;
            Some(Step::Version { store, page, stamp })
        }
        _ => None,
    }
}

// A page and a stamp.
fn page_in(mut words: Words) -> Option<(Page, Stamp)>
    ensures some { IfSome result (λ it. (words.entry ≡ decimal it.0.0 ∷ decimal it.1.0 ∷ []) × IsIn 1 4294967295 it.0.0 × IsIn 0 9223372036854775807 it.1.0) }
    ensures none { IfNone result (IsNoPage words.entry) }
{
    let page = words.u32(1, u32::MAX)?;
    let stamp = words.u64(0, MAX_STAMP)?;
    words.end()?;
    Some((Page(page), Stamp(stamp)))
}
