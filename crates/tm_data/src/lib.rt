//! The plain data that is stored and logged: bytes and lists, keys and values, rows, images of pages,
//! records and groups of a writer's log, and vectors of stamps.
//!
//! `tm_base` passes all of it on, beside the data that is sent, asked and answered.
#![tactic(auto)]

mod bytes;
mod image;
mod log;
mod row;
mod row_map;
mod row_set;
mod short_bytes;
mod sizes;
mod transaction;
mod txn_map;
mod vector;

pub use bytes::ByteList;
pub use image::{Body, Child, ChildList, Image};
pub use log::{Group, GroupList, Record, RecordList};
pub use row::{Before, Key, LengthError, MAX_KEY, MAX_VALUE, Row, RowList, Value};
pub use row_map::{RowKey, RowMap};
pub use row_set::RowSet;
pub use sizes::{MAX_IMAGE, child_size, fence_size, row_size};
pub use tm_lists::{ItemList, KeyPlace, Keyed, KeyedList, Mem, NoMemory, TryCopy, is_less};
pub use transaction::{MAX_STAMP, Page, Stamp, Txn, Writer};
pub use txn_map::TxnMap;
pub use vector::{Vector, VectorEntry, VectorEntryList};
