//! Whole writes.
ghost use Rattle.std.specs.Prelude.{OnOk, OnErr};
ghost use Rattle.std.specs.Io.KnownBytes.{Appends};
ghost use Rattle.tm_ports.specs.Faults.{HasSinkCause};
ghost use Rattle.tm_ports.specs.Writes.{TakesFront};

use crate::{Sink, SinkError};

/// Writes all of the bytes, piece by piece.
///
/// An error has written a front of them: the bytes that the sink took before the write that failed.
pub fn write_all<K: Sink>(sink: &mut K, bytes: &[u8]) -> Result<(), SinkError>
    ensures ok { OnOk result (Appends (K.taken sink.old) (K.taken sink.new) bytes.now) }
    ensures err { OnErr result (TakesFront (K.taken sink.old) (K.taken sink.new) bytes.now) }
    ensures cause { HasSinkCause (K.count sink.old) (K.count sink.new) result }
{
    let mut rest = bytes;
    while !rest.is_empty() {
        match sink.write(rest) {
            Ok(count) => {
                let (_, after) = rest.split_at(count);
                rest = after;
            }
            Err(error) => return Err(error),
        }
    }
    Ok(())
}
