//! Why a replay goes no further.

/// What ended a replay before the end of its schedule.
#[derive(Clone, Copy, Debug, PartialEq, Eq)]
pub enum Stop {
    /// The next line is outside the grammar of schedules.
    Bad,
    /// The source failed.
    ReadFault,
    /// The sink failed.
    WriteFault,
    /// Want of memory.
    NoMemory,
    /// A line, step or message would have number `2^32 - 1`.
    Full,
}
