//! The plain data that every part of the system speaks of.
//!
//! Nothing here acts: the types say what is stored, logged, sent, asked and answered, and the crates
//! above say what is done with it. What is stored and logged stands in `tm_data` and is passed on from
//! here, so that a crate above names `tm_base` alone. Each type that owns memory has a `copy` by the
//! trait [`TryCopy`], and each list is an [`ItemList`], or a [`KeyedList`] where the items
//! ascend by key, which contracts see as the list of its items.
#![tactic(auto)]

mod command;
mod log_size;
mod message;
mod page_size;
mod reply;
mod step;
mod steps;

pub use command::Command;
pub use log_size::group_size;
pub use message::{
    Message, MessageList, Node, Note, PageStamp, PageStampList, RosterEntry, RosterEntryList, Tag,
    TagList, WriterState,
};
pub use page_size::{room, size};
pub use reply::{RecoveryWait, Reply};
pub use step::{Line, Outcome, Pair, PairList, Step};
pub use steps::Steps;
pub use tm_data::{
    Before, Body, ByteList, Child, ChildList, Group, GroupList, Image, ItemList, Key, KeyPlace,
    Keyed, KeyedList, LengthError, MAX_IMAGE, MAX_KEY, MAX_STAMP, MAX_VALUE, Mem, NoMemory, Page,
    Record, RecordList, Row, RowKey, RowList, RowMap, RowSet, Stamp, TryCopy, Txn, TxnMap, Value,
    Vector, VectorEntry, VectorEntryList, Writer, child_size, fence_size, row_size,
};
