//! Commands of sessions, and their lines.
ghost use Rattle.std.specs.Prelude.{◌≡◌, [], ◌∷◌, ℕ, List, decimal, IfOk, IfSome, IfNone};
ghost use Rattle.tm_base.specs.declared.command.Command.{Command as AnyCommand};
ghost use Rattle.text_fields.specs.Fields.{hex_text};
ghost use Rattle.tm_base.specs.declared.message.Node.TheVariants as node;
ghost use Rattle.schedule_lines.specs.declared.verb.Verb.TheVariants as verb;
ghost use Rattle.schedule_lines.specs.Lines.{IsIn, IsKey, IsValue, IsCommand, command_words, node_text};
ghost use Rattle.schedule_lines.specs.Inside.{command_word, IsNoCommand, IsNoSession, IsLineOf, IsNoLine, NoneBehind};

use crate::verb::{CommandVerb, command_verb_of};
use crate::words::Words;
use std::alloc::Global;
use tm_base::{ByteList, Command, Line, Mem, Step, Writer};

/// The greatest number of a session.
const LAST_SESSION: u16 = 4096;

/// The most attempts that a line can ask for.
const MOST_ATTEMPTS: u16 = 1000;

/// `do m s command`.
pub(crate) fn do_in(alloc: Global, words: Words) -> Mem<Option<Line>>
    ensures some { IfOk result (λ found. IfSome found (IsLineOf verb.Do words.entry)) }
    ensures none { IfOk result (λ found. IfNone found (IsNoLine verb.Do words.entry)) }
{
    let Some((master, session, command)) = master_in(alloc, words)? else {
        return Ok(None);
    };
    Ok(Some(Line::Step(Step::Do {
        master,
        session,
        command,
    })))
}

/// `try n m s command`.
pub(crate) fn try_in(alloc: Global, mut words: Words) -> Mem<Option<Line>>
    ensures some { IfOk result (λ found. IfSome found (IsLineOf verb.Try words.entry)) }
    ensures none { IfOk result (λ found. IfNone found (IsNoLine verb.Try words.entry)) }
{
    let Some(attempts) = words.u16(1, MOST_ATTEMPTS) else {
        return Ok(None);
    };
    let Some((master, session, command)) = master_in(alloc, words)? else {
        return Ok(None);
    };
    Ok(Some(Line::Try {
        attempts,
        master,
        session,
        command,
    }))
}

// A master, a session of its and a command.
fn master_in(alloc: Global, mut words: Words) -> Mem<Option<(u8, u16, Command)>>
    ensures some { IfOk result (λ found. IfSome found (λ it.
        (words.entry ≡ node_text (node.Master it.0) ∷ decimal it.1 ∷ command_words it.2) × IsIn 1 255 it.0 × IsIn 1 4096 it.1 × IsCommand it.2)) }
    ensures none { IfOk result (λ found. IfNone found (NoneBehind node.Master IsNoSession words.entry)) }
{
    let Some(master) = words.numbered(b'm') else {
        return Ok(None);
    };
    let Some((session, command)) = session_in(alloc, words)? else {
        return Ok(None);
    };
    Ok(Some((master, session, command)))
}

/// A session and a command.
pub(crate) fn session_in(alloc: Global, mut words: Words) -> Mem<Option<(u16, Command)>>
    ensures some { IfOk result (λ found. IfSome found (λ it. (words.entry ≡ decimal it.0 ∷ command_words it.1) × IsIn 1 4096 it.0 × IsCommand it.1)) }
    ensures none { IfOk result (λ found. IfNone found (IsNoSession words.entry)) }
{
    let Some(session) = words.u16(1, LAST_SESSION) else {
        return Ok(None);
    };
    let Some(command) = command_in(alloc, words)? else {
        return Ok(None);
    };
    Ok(Some((session, command)))
}

// The command that the words are.
fn command_in(alloc: Global, mut words: Words) -> Mem<Option<Command>>
    ensures some { IfOk result (λ found. IfSome found (λ c. (words.entry ≡ command_words c) × IsCommand c)) }
    ensures none { IfOk result (λ found. IfNone found ((c : AnyCommand) → IsCommand c → words.entry ≡ command_words c → ⊥)) }
{
    let Some(word) = words.word() else {
        return Ok(None);
    };
    let Some(verb) = command_verb_of(word) else {
        return Ok(None);
    };
    let command = command_of(alloc, verb, words)?;
    Ok(command)
}

// The command of this verb whose other words these are.
fn command_of(alloc: Global, verb: CommandVerb, words: Words) -> Mem<Option<Command>>
    ensures some { IfOk result (λ found. IfSome found (λ c. (command_word verb ∷ words.entry ≡ command_words c) × IsCommand c)) }
    ensures none { IfOk result (λ found. IfNone found (IsNoCommand verb words.entry)) }
{
    match verb {
        CommandVerb::Begin => Ok(alone(words, Command::Begin)),
        CommandVerb::Get => {
            let Some((table, key)) = place_in(alloc, words)? else {
                return Ok(None);
            };
            Ok(Some(Command::Get { table, key }))
        }
        CommandVerb::Put => {
            let Some((table, key, value)) = row_in(alloc, words)? else {
                return Ok(None);
            };
            Ok(Some(Command::Put { table, key, value }))
        }
        CommandVerb::Del => {
            let Some((table, key)) = place_in(alloc, words)? else {
                return Ok(None);
            };
            Ok(Some(Command::Del { table, key }))
        }
        CommandVerb::Commit => Ok(alone(words, Command::Commit)),
        CommandVerb::Abort => Ok(alone(words, Command::Abort)),
        CommandVerb::Recover => Ok(recover_in(words)),
    }
}

// The command, where no word is left.
fn alone(words: Words, command: Command) -> Option<Command>
    ensures some { IfSome result (λ c. (c ≡ command) × (words.entry ≡ [])) }
    ensures none { IfNone result (words.entry ≡ [] → ⊥) }
{
    words.end()?;
    Some(command)
}

// The command to recover the writer that the word names.
fn recover_in(mut words: Words) -> Option<Command>
    ensures some { IfSome result (λ c. (command_word CommandVerb.Recover ∷ words.entry ≡ command_words c) × IsCommand c) }
    ensures none { IfNone result (IsNoCommand CommandVerb.Recover words.entry) }
{
    let writer = words.u32(1, u32::MAX)?;
    words.end()?;
    Some(Command::Recover {
        writer: Writer(writer),
    })
}

// A table and a key.
fn place_in(alloc: Global, mut words: Words) -> Mem<Option<(u16, ByteList)>>
    ensures some { IfOk result (λ found. IfSome found (λ place. (words.entry ≡ decimal place.0 ∷ hex_text place.1 ∷ []) × IsIn 0 65535 place.0 × IsKey place.1)) }
    ensures none { IfOk result (λ found. IfNone found ((table : ℕ) (key : List ℕ) → IsIn 0 65535 table → IsKey key → words.entry ≡ decimal table ∷ hex_text key ∷ [] → ⊥)) }
{
    let Some(table) = words.u16(0, u16::MAX) else {
        return Ok(None);
    };
    let Some(key) = words.key(alloc)? else {
        return Ok(None);
    };
    let Some(()) = words.end() else {
        return Ok(None);
    };
    Ok(Some((table, key)))
}

// A table, a key and a value.
fn row_in(alloc: Global, mut words: Words) -> Mem<Option<(u16, ByteList, ByteList)>>
    ensures some { IfOk result (λ found. IfSome found (λ it. (words.entry ≡ decimal it.0 ∷ hex_text it.1 ∷ hex_text it.2 ∷ []) × IsIn 0 65535 it.0 × IsKey it.1 × IsValue it.2)) }
    ensures none { IfOk result (λ found. IfNone found ((table : ℕ) (key value : List ℕ) → IsIn 0 65535 table → IsKey key → IsValue value → words.entry ≡ decimal table ∷ hex_text key ∷ hex_text value ∷ [] → ⊥)) }
{
    let Some(table) = words.u16(0, u16::MAX) else {
        return Ok(None);
    };
    let Some(key) = words.key(alloc)? else {
        return Ok(None);
    };
    let Some(value) = words.value(alloc)? else {
        return Ok(None);
    };
    let Some(()) = words.end() else {
        return Ok(None);
    };
    Ok(Some((table, key, value)))
}
