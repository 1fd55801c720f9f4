//! A whole schedule.
ghost use Rattle.std.specs.Prelude.{◌≡◌, ◌≤◌, ◌<◌, List, Bool, IfOk, IfErr, OnOk};
ghost use Rattle.net_world.specs.declared.step.PlainStep.{PlainStep};
ghost use Rattle.taurus.specs.Schedules.{IsTrueRun};
ghost use Rattle.taurus.specs.Statuses.{Replays};
ghost use Rattle.taurus.specs.Inside.{Advances, AdvanceCause, Spends, status_of};

use crate::execute::perform;
use crate::stop::Stop;
use net_world::PlainWorld;
use net_world::laws::{
    committed_stands, own_value_is_seen, put_stands, replies_are_the_machines,
    replies_have_their_causes,
};
use std::alloc::Global;
use tm_ports::{Found, LineError, LineReader, Sink, Source, Status};

// What holds of every run of the plain world.
fn runs_are_true()
    ensures { (steps : List PlainStep) → IsTrueRun steps }
{
    replies_are_the_machines();
    replies_have_their_causes();
    committed_stands();
    put_stands();
    own_value_is_seen();
}

// Takes the next line and performs it. False where the input has ended.
fn advance<R: Source, K: Sink>(
    alloc: Global,
    reader: &mut LineReader,
    world: &mut Option<PlainWorld>,
    source: &mut R,
    sink: &mut K,
) -> Result<bool, Stop>
    ensures ok { IfOk result (λ more. Advances more (R.left source.old) (R.left source.new) reader.old reader.new world.old world.new (K.taken sink.old) (K.taken sink.new)) }
    ensures cause { IfErr result (λ e. AdvanceCause e (R.left source.old) (R.left source.new) reader.old reader.new world.old (K.taken sink.old) (K.taken sink.new) (R.count source.old) (R.count source.new) (K.count sink.old) (K.count sink.new)) }
    ensures reads { R.count source.old ≤ R.count source.new }
    ensures writes { K.count sink.old ≤ K.count sink.new }
{
    let found = match reader.next_line(source) {
        Ok(found) => found,
        Err(LineError::Failed) => return Err(Stop::ReadFault),
        Err(LineError::TooLong) => return Err(Stop::Bad),
        Err(LineError::NoMemory) => return Err(Stop::NoMemory),
    };
    match found {
        Found::Line(line) => match perform(alloc, world, line.as_slice(), sink) {
            Ok(()) => Ok(true),
            Err(stop) => Err(stop),
        },
        Found::Last(line) => match perform(alloc, world, line.as_slice(), sink) {
            Ok(()) => Ok(false),
            Err(stop) => Err(stop),
        },
        Found::End => Ok(false),
    }
}

// The status where no number is left for a further line.
fn spent<R: Source>(reader: &mut LineReader, source: &mut R) -> Status
    ensures status { Spends result (R.left source.old) (R.left source.new) reader.old reader.new (R.count source.old) (R.count source.new) }
    ensures reads { R.count source.old ≤ R.count source.new }
{
    let found = match reader.next_line(source) {
        Ok(found) => found,
        Err(LineError::Failed) => return Status::ReadFault,
        Err(LineError::TooLong) => return Status::Full,
        Err(LineError::NoMemory) => return Status::NoMemory,
    };
    match found {
        Found::Line(_) => Status::Full,
        Found::Last(_) => Status::Full,
        Found::End => Status::Done,
    }
}

fn end_status(stop: Stop, line: u32) -> Status
    ensures { result ≡ status_of stop line }
{
    match stop {
        Stop::Bad => Status::BadSchedule { line },
        Stop::ReadFault => Status::ReadFault,
        Stop::WriteFault => Status::WriteFault,
        Stop::NoMemory => Status::NoMemory,
        Stop::Full => Status::Full,
    }
}

/// Runs the lines of the source, and writes the transcript.
pub fn replay<R: Source, K: Sink>(alloc: Global, source: &mut R, sink: &mut K) -> Status
    ensures { Replays result (R.left source.old) (R.left source.new) (K.taken sink.old) (K.taken sink.new) (R.count source.old) (R.count source.new) (K.count sink.old) (K.count sink.new) }
{
    runs_are_true();
    let Ok(mut reader) = LineReader::new(alloc) else {
        return Status::NoMemory;
    };
    let mut world = None;
    for number in 1..u32::MAX {
        match advance(alloc, &mut reader, &mut world, source, sink) {
            Ok(true) => {}
            Ok(false) => return Status::Done,
            Err(stop) => return end_status(stop, number),
        }
    }
    spent(&mut reader, source)
}
