//! The lines of a schedule that spell a step.
ghost use Rattle.std.specs.Prelude.{◌≡◌, ◌<◌, ◌≤◌, ◌^◌, ◌++◌, ◌∷◌, List, ℕ, decimal, length, IfOk, IfSome, IfNone};
ghost use Rattle.hex.specs.Hex.{IsBytes};
ghost use Rattle.net_world.specs.declared.step.PlainStep.{PlainStep};
ghost use Rattle.net_world.specs.declared.step.PlainStep.TheVariants as step;
ghost use Rattle.text_fields.specs.Fields.{hex_text};
ghost use Rattle.taurus.specs.Lines.{step_line, IsFit, IsRow};

use net_world::PlainStep;
use std::alloc::Global;
use text_fields::{read_hex, read_u16, read_u32, split_word};
use tm_base::{ByteList, Mem};

/// The longest key and the longest value that a line can name, in bytes. The master refuses most of
/// them by name.
const LONGEST_FIELD: usize = 1024;

/// The step that the line spells, without its line feed. None exactly where it spells none.
pub fn read_step(alloc: Global, line: &[u8]) -> Mem<Option<PlainStep>>
    ensures some { IfOk result (λ found. IfSome found (λ step. (line.now ≡ step_line step) × IsFit step)) }
    ensures none { IfOk result (λ found. IfNone found ((step : PlainStep) → IsFit step → line.now ≡ step_line step → ⊥)) }
{
    if line == b"do m1 1 begin".as_slice() {
        return Ok(Some(PlainStep::Begin));
    }
    if line == b"do m1 1 commit".as_slice() {
        return Ok(Some(PlainStep::Commit));
    }
    let get = read_get(alloc, line)?;
    if get.is_some() {
        return Ok(get);
    }
    let put = read_put(alloc, line)?;
    if put.is_some() {
        return Ok(put);
    }
    Ok(read_deliver(line))
}

// The get that the line spells, if it spells one.
fn read_get(alloc: Global, line: &[u8]) -> Mem<Option<PlainStep>>
    ensures some { IfOk result (λ found. IfSome found (λ step. (line.now ≡ step_line step) × IsFit step)) }
    ensures none { IfOk result (λ found. IfNone found ((table : ℕ) (key : List ℕ) → IsFit (step.Get table key) → line.now ≡ step_line (step.Get table key) → ⊥)) }
{
    let Some(fields) = line.strip_prefix(b"do m1 1 get ".as_slice()) else {
        return Ok(None);
    };
    let Some((table, key)) = read_table(fields) else {
        return Ok(None);
    };
    let found = read_hex(alloc, key, 1, LONGEST_FIELD)?;
    let Some(key) = found else {
        return Ok(None);
    };
    Ok(Some(PlainStep::Get { table, key }))
}

// The put that the line spells, if it spells one.
fn read_put(alloc: Global, line: &[u8]) -> Mem<Option<PlainStep>>
    ensures some { IfOk result (λ found. IfSome found (λ step. (line.now ≡ step_line step) × IsFit step)) }
    ensures none { IfOk result (λ found. IfNone found ((table : ℕ) (key value : List ℕ) → IsFit (step.Put table key value) → line.now ≡ step_line (step.Put table key value) → ⊥)) }
{
    let Some(fields) = line.strip_prefix(b"do m1 1 put ".as_slice()) else {
        return Ok(None);
    };
    let Some((table, fields)) = read_table(fields) else {
        return Ok(None);
    };
    let found = read_row(alloc, fields)?;
    let Some((key, value)) = found else {
        return Ok(None);
    };
    Ok(Some(PlainStep::Put { table, key, value }))
}

// The delivery that the line spells, if it spells one.
fn read_deliver(line: &[u8]) -> Option<PlainStep>
    ensures some { IfSome result (λ step. (line.now ≡ step_line step) × IsFit step) }
    ensures none { IfNone result ((number : ℕ) → IsFit (step.Deliver number) → line.now ≡ step_line (step.Deliver number) → ⊥) }
{
    let Some(number) = line.strip_prefix(b"deliver ".as_slice()) else {
        return None;
    };
    let Some(number) = read_u32(number, 1, u32::MAX) else {
        return None;
    };
    Some(PlainStep::Deliver { number })
}

// The table that the first of the fields spells, and the fields behind it.
fn read_table(fields: &[u8]) -> Option<(u16, &[u8])>
    ensures some { IfSome result (λ found. (fields.now ≡ decimal found.0 ++ 32 ∷ found.1.now) × (found.0 < 2 ^ 16)) }
    ensures none { IfNone result ((table : ℕ) (rest : List ℕ) → table < 2 ^ 16 → fields.now ≡ decimal table ++ 32 ∷ rest → ⊥) }
{
    let Some((word, rest)) = split_word(fields) else {
        return None;
    };
    let Some(table) = read_u16(word, 0, u16::MAX) else {
        return None;
    };
    Some((table, rest))
}

// The key and the value that the two fields spell.
fn read_row(alloc: Global, fields: &[u8]) -> Mem<Option<(ByteList, ByteList)>>
    ensures some { IfOk result (λ found. IfSome found (λ pair. (fields.now ≡ hex_text pair.0 ++ 32 ∷ hex_text pair.1) × IsRow pair.0 pair.1)) }
    ensures none { IfOk result (λ found. IfNone found ((key value : List ℕ) → IsRow key value → fields.now ≡ hex_text key ++ 32 ∷ hex_text value → ⊥)) }
{
    let Some((key, value)) = split_word(fields) else {
        return Ok(None);
    };
    let found = read_hex(alloc, key, 1, LONGEST_FIELD)?;
    let Some(key) = found else {
        return Ok(None);
    };
    let found = read_hex(alloc, value, 0, LONGEST_FIELD)?;
    let Some(value) = found else {
        return Ok(None);
    };
    Ok(Some((key, value)))
}
