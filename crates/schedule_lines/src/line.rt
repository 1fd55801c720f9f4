//! Lines of a schedule.
ghost use Rattle.std.specs.Prelude.{◌≡◌, ◌∷◌, ℕ, List, IfOk, IfSome, IfNone, IsErrOf};
ghost use Rattle.tm_base.specs.declared.step.Line.{Line as AnyLine};
ghost use Rattle.schedule_lines.specs.declared.line.LineError.TheVariants as error;
ghost use Rattle.schedule_lines.specs.Lines.{IsLine, HasText, line_words, text_of};
ghost use Rattle.schedule_lines.specs.Inside.{IsLineOf, IsNoLine};

use crate::command::{do_in, try_in};
use crate::page::store_line;
use crate::replica::replica_line;
use crate::verb::{Verb, verb_of};
use crate::words::Words;
use crate::world::{deliver_in, drain_in, fail_in, lose_in, start_in, stop_in, tick_in, world_in};
use std::alloc::Global;
use tm_base::{Line, Mem, NoMemory};

/// The most bytes of a line, without its line feed.
pub const MAX_LINE: usize = 8192;

/// Why a text is no line or no command.
#[derive(Clone, Copy, Debug, PartialEq, Eq)]
pub enum LineError {
    /// It spells none.
    Bad,
    /// Want of memory.
    NoMemory,
}

impl From<NoMemory> for LineError {
    ghost use Rattle.schedule_lines.specs.declared.line.LineError.TheVariants.{NoMemory};

    ghost from_gives = { λ _ e. e ≡ NoMemory };

    fn from(_: NoMemory) -> Self {
        LineError::NoMemory
    }
}

/// The line of a schedule that the bytes spell, without its line feed. `Bad` exactly where they spell
/// none.
pub fn read_line(alloc: Global, line: &[u8]) -> Result<Line, LineError>
    ensures ok { IfOk result (λ l. (line.now ≡ text_of l) × HasText l) }
    ensures bad { IsErrOf result error.Bad → (l : AnyLine) → HasText l → line.now ≡ text_of l → ⊥ }
{
    if line.len() > MAX_LINE {
        return Err(LineError::Bad);
    }
    let Some(found) = line_in(alloc, Words::new(line))? else {
        return Err(LineError::Bad);
    };
    Ok(found)
}

// The line that the words are.
fn line_in(alloc: Global, mut words: Words) -> Mem<Option<Line>>
    ensures some { IfOk result (λ found. IfSome found (λ l. (line_words l ≡ words.entry) × IsLine l)) }
    ensures none { IfOk result (λ found. IfNone found ((l : AnyLine) → IsLine l → line_words l ≡ words.entry → ⊥)) }
{
    let Some(word) = words.word() else {
        return Ok(None);
    };
    let Some(verb) = verb_of(word) else {
        return Ok(None);
    };
    let line = line_of(alloc, verb, words)?;
    Ok(line)
}

// The line of this verb whose other words these are.
fn line_of(alloc: Global, verb: Verb, words: Words) -> Mem<Option<Line>>
    ensures some { IfOk result (λ found. IfSome found (IsLineOf verb words.entry)) }
    ensures none { IfOk result (λ found. IfNone found (IsNoLine verb words.entry)) }
{
    match verb {
        Verb::World => Ok(world_in(words)),
        Verb::Do => do_in(alloc, words),
        Verb::Deliver => Ok(deliver_in(words)),
        Verb::Lose => Ok(lose_in(words)),
        Verb::Tick => Ok(tick_in(words)),
        Verb::Stop => Ok(stop_in(words)),
        Verb::Start => Ok(start_in(words)),
        Verb::Fail => Ok(fail_in(words)),
        Verb::Page => Ok(store_line(Verb::Page, words)),
        Verb::Version => Ok(store_line(Verb::Version, words)),
        Verb::Publish => replica_line(alloc, Verb::Publish, words),
        Verb::Lag => replica_line(alloc, Verb::Lag, words),
        Verb::Get => replica_line(alloc, Verb::Get, words),
        Verb::Scan => replica_line(alloc, Verb::Scan, words),
        Verb::Drain => Ok(drain_in(words)),
        Verb::Try => try_in(alloc, words),
    }
}
