//! How a run of the program ended.
ghost use Rattle.std.specs.Prelude.{◌≡◌};
ghost use Rattle.tm_ports.specs.Statuses.{status_number};

use std::fmt;
use tm_base::ByteList;

/// One word of the command line.
pub type Word = ByteList;

/// How a run ended. The first event that ends a run gives its status.
///
/// It prints as the program's line on standard error, without its line feed; `Done` prints nothing.
#[derive(Clone, Copy, Debug, PartialEq, Eq)]
pub enum Status {
    /// The input was read to its end, or all rounds or sessions are over.
    Done,
    /// The words of the command line are in no form that the program knows.
    Words,
    /// This line, counted from 1, is the first that is outside the grammar of schedules.
    BadSchedule { line: u32 },
    /// A read of the input failed: the source's count of faults rose.
    ReadFault,
    /// A write of the output failed: the sink's count of faults rose.
    WriteFault,
    /// The memory that was needed was not there.
    NoMemory,
    /// A connection, or the making of one, failed.
    LinkFault,
    /// A call of the disk failed: its count of faults rose.
    DiskFault,
    /// The bytes of a connection from this offset on, in bytes from 0, begin no frame that may stand there.
    BadFrame { at: u64 },
    /// All frames that were granted to a connection were taken, and a further byte came.
    Budget,
    /// The bytes that the disk was opened with have no reading at this offset, in bytes from 0.
    Damaged { at: u64 },
    /// Line, step or message number `2^32 - 1` would be used.
    Full,
}

impl Status {
    /// The exit number of the program.
    pub fn code(&self) -> u8
        ensures { result ≡ status_number self.now }
    {
        match self {
            Status::Done => 0,
            Status::Words => 2,
            Status::BadSchedule { .. } => 3,
            Status::ReadFault => 4,
            Status::WriteFault => 5,
            Status::NoMemory => 6,
            Status::LinkFault => 7,
            Status::DiskFault => 8,
            Status::BadFrame { .. } => 9,
            Status::Budget => 10,
            Status::Damaged { .. } => 11,
            Status::Full => 12,
        }
    }
}

impl fmt::Display for Status {
    ghost use Rattle.std.specs.Prelude.{Some};
    ghost use Rattle.tm_ports.specs.Statuses.{status_text};

    ghost output = { λ status. Some (status_text status) };

    fn fmt<W: fmt::Write>(&self, f: &mut fmt::Formatter<W>) -> fmt::Result {
        match self {
            Status::Done => Ok(()),
            Status::Words => f.write_str("taurus: words"),
            Status::BadSchedule { line } => write!(f, "taurus: bad schedule at line {line}"),
            Status::ReadFault => f.write_str("taurus: read fault"),
            Status::WriteFault => f.write_str("taurus: write fault"),
            Status::NoMemory => f.write_str("taurus: no memory"),
            Status::LinkFault => f.write_str("taurus: link fault"),
            Status::DiskFault => f.write_str("taurus: disk fault"),
            Status::BadFrame { at } => write!(f, "taurus: bad frame at {at}"),
            Status::Budget => f.write_str("taurus: budget"),
            Status::Damaged { at } => write!(f, "taurus: damaged at {at}"),
            Status::Full => f.write_str("taurus: full"),
        }
    }
}
