//! One line of a schedule.
ghost use Rattle.std.specs.Prelude.{◌≡◌, ◌≤◌, Some, None, IfOk, IfErr, OnOk, string_bytes};
ghost use Rattle.taurus.specs.Inside.{DoesStep, Does, ExecuteCause, Performs, PerformCause};

use crate::line::read_step;
use crate::stop::Stop;
use crate::text::print_step;
use net_world::{PlainWorld, WorldError};
use std::alloc::Global;
use tm_ports::{Sink, SinkError, write_all};

// Does the step that the line spells: what it writes.
fn execute_step(alloc: Global, world: &mut PlainWorld, line: &[u8]) -> Result<String, Stop>
    ensures ok { IfOk result (λ text. DoesStep world.old line.now world.new (string_bytes text)) }
    ensures cause { IfErr result (λ e. ExecuteCause e (Some world.old) line.now) }
{
    let Ok(found) = read_step(alloc, line) else {
        return Err(Stop::NoMemory);
    };
    let Some(step) = found else {
        return Err(Stop::Bad);
    };
    if !world.allows(&step) {
        return Err(Stop::Bad);
    }
    let before = world.messages().len();
    let outcome = match world.step(&step) {
        Ok((outcome, _)) => outcome,
        Err(WorldError::Full) => return Err(Stop::Full),
        Err(WorldError::NoMemory) => return Err(Stop::NoMemory),
    };
    match print_step(alloc, &outcome, world.messages(), before) {
        Ok(text) => Ok(text),
        Err(_) => Err(Stop::NoMemory),
    }
}

// Makes the world, as the first line asks: what that writes.
fn start(alloc: Global, world: &mut Option<PlainWorld>, line: &[u8]) -> Result<String, Stop>
    requires { world.old ≡ None }
    ensures ok { IfOk result (λ text. Does None line.now world.new (string_bytes text)) }
    ensures cause { IfErr result (λ e. ExecuteCause e None line.now) }
{
    if line != b"plain".as_slice() {
        return Err(Stop::Bad);
    }
    let Ok(text) = format!(in alloc; "ok\n") else {
        return Err(Stop::NoMemory);
    };
    *world = Some(PlainWorld::new(alloc));
    Ok(text)
}

// Does a line: what it writes.
fn execute(alloc: Global, world: &mut Option<PlainWorld>, line: &[u8]) -> Result<String, Stop>
    ensures ok { IfOk result (λ text. Does world.old line.now world.new (string_bytes text)) }
    ensures cause { IfErr result (λ e. ExecuteCause e world.old line.now) }
{
    let Some(world) = world else {
        return start(alloc, world, line);
    };
    execute_step(alloc, world, line)
}

/// Does a line, and writes what it writes in one piece.
pub fn perform<K: Sink>(
    alloc: Global,
    world: &mut Option<PlainWorld>,
    line: &[u8],
    sink: &mut K,
) -> Result<(), Stop>
    ensures ok { OnOk result (Performs world.old line.now world.new (K.taken sink.old) (K.taken sink.new)) }
    ensures cause { IfErr result (λ e. PerformCause e world.old line.now (K.taken sink.old) (K.taken sink.new) (K.count sink.old) (K.count sink.new)) }
    ensures later { K.count sink.old ≤ K.count sink.new }
{
    let text = match execute(alloc, world, line) {
        Ok(text) => text,
        Err(stop) => return Err(stop),
    };
    match write_all(sink, text.as_bytes()) {
        Ok(()) => Ok(()),
        Err(SinkError::Failed) => Err(Stop::WriteFault),
        Err(SinkError::NoMemory) => Err(Stop::NoMemory),
    }
}
