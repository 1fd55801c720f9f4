//! Rows: keys, values, and what was there before.
ghost use Rattle.std.specs.Prelude.{◌≡◌, ◌≢◌, ◌+◌, ◌<◌, ◌≤◌, ◌↔◌, ◌⊎◌, List, ℕ, [], length, IfOk, IfErr, IsErrOf, MatchResult};

use crate::short_bytes::ShortBytes;
use crate::sizes::row_size;
use crate::{Keyed, KeyedList, Mem, NoMemory, TryCopy, Txn};
use std::alloc::Global;
use std::marker::Model;

/// A key has 1 to 64 bytes.
pub const MAX_KEY: usize = 64;

/// A value has 0 to 512 bytes.
pub const MAX_VALUE: usize = 512;

/// Why bytes are no key or no value.
#[derive(Clone, Copy, Debug, PartialEq, Eq)]
pub enum LengthError {
    /// The number of bytes, which is out of range.
    Length { length: usize },
    /// Want of memory.
    NoMemory,
}

impl From<NoMemory> for LengthError {
    ghost use Rattle.tm_data.specs.declared.row.LengthError.TheVariants.{NoMemory};

    ghost from_gives = { λ _ e. e ≡ NoMemory };

    fn from(_: NoMemory) -> Self {
        LengthError::NoMemory
    }
}

/// A row's key: 1 to 64 bytes, ordered byte by byte. Contracts see the list of its bytes.
#[derive(Debug, Drop, PartialEq, Eq, PartialOrd, Ord)]
pub struct Key {
    bytes: ShortBytes,
}

impl Model for Key {
    ghost Value = { List ℕ };

    ghost view = { λ k. k.bytes };

    ghost inverse = { λ k. record { bytes = k } };

    ghost invariant = { λ k. (1 ≤ length k.bytes) × (length k.bytes ≤ 64) };
}

impl Key {
    /// The key of these bytes. Refuses `Length` exactly where there are none or more than 64.
    pub fn new(alloc: Global, bytes: &[u8]) -> Result<Key, LengthError>
        ensures ok { IfOk result (λ key. (key ≡ bytes.now) × (1 ≤ length bytes.now) × (length bytes.now ≤ 64)) }
        ensures refused { (l : ℕ) → IsErrOf result (LengthError.Length l) →
            (l ≡ length bytes.now) × ((length bytes.now < 1) ⊎ (64 < length bytes.now)) }
        ensures exactly { (length bytes.now < 1) ⊎ (64 < length bytes.now) →
            IsErrOf result (LengthError.Length (length bytes.now)) }
    {
        let length = bytes.len();
        if length < 1 || length > MAX_KEY {
            return Err(LengthError::Length { length });
        }
        Ok(Key {
            bytes: ShortBytes::from_slice(alloc, bytes)?,
        })
    }

    /// The bytes of the key.
    pub fn as_slice(&self) -> &[u8]
        ensures same { result.now ≡ self.now }
        ensures least { 1 ≤ length result.now }
        ensures most { length result.now ≤ 64 }
    {
        self.bytes.as_slice()
    }
}

impl TryCopy for Key {
    fn copy(&self) -> Mem<Key> {
        Ok(Key {
            bytes: self.bytes.copy()?,
        })
    }
}

/// A row's value: 0 to 512 bytes. Contracts see the list of its bytes.
#[derive(Debug, Drop, PartialEq, Eq)]
pub struct Value {
    bytes: ShortBytes,
}

impl Model for Value {
    ghost Value = { List ℕ };

    ghost view = { λ v. v.bytes };

    ghost inverse = { λ v. record { bytes = v } };

    ghost invariant = { λ v. length v.bytes ≤ 512 };
}

impl Value {
    /// The value of these bytes. Refuses `Length` exactly where there are more than 512.
    pub fn new(alloc: Global, bytes: &[u8]) -> Result<Value, LengthError>
        ensures ok { IfOk result (λ value. (value ≡ bytes.now) × (length bytes.now ≤ 512)) }
        ensures refused { (l : ℕ) → IsErrOf result (LengthError.Length l) →
            (l ≡ length bytes.now) × (512 < length bytes.now) }
        ensures exactly { 512 < length bytes.now → IsErrOf result (LengthError.Length (length bytes.now)) }
    {
        let length = bytes.len();
        if length > MAX_VALUE {
            return Err(LengthError::Length { length });
        }
        Ok(Value {
            bytes: ShortBytes::from_slice(alloc, bytes)?,
        })
    }

    /// The bytes of the value.
    pub fn as_slice(&self) -> &[u8]
        ensures same { result.now ≡ self.now }
        ensures most { length result.now ≤ 512 }
    {
        self.bytes.as_slice()
    }
}

impl TryCopy for Value {
    fn copy(&self) -> Mem<Value> {
        Ok(Value {
            bytes: self.bytes.copy()?,
        })
    }
}

/// What a row had before its last transaction's first write.
#[derive(Debug, Drop, PartialEq, Eq)]
pub enum Before {
    /// The same as now.
    Same,
    /// Another value, or none.
    Was(Option<Value>),
}

impl TryCopy for Before {
    fn copy(&self) -> Mem<Before> {
        match self {
            Before::Same => Ok(Before::Same),
            Before::Was(value) => Ok(Before::Was(value.copy()?)),
        }
    }
}

/// A row of a table.
#[derive(Debug, Drop, PartialEq, Eq)]
pub struct Row {
    pub key: Key,
    /// The last transaction that wrote it, which has it locked while it is open.
    pub txn: Txn,
    /// Its value, none where it is deleted.
    pub now: Option<Value>,
    /// What an undo of that transaction would put back.
    pub before: Before,
}

impl TryCopy for Row {
    fn copy(&self) -> Mem<Row> {
        Ok(Row {
            key: self.key.copy()?,
            txn: self.txn,
            now: self.now.copy()?,
            before: self.before.copy()?,
        })
    }
}

impl Keyed for Row {
    ghost use Rattle.tm_data.specs.Sizes.{row_size};

    ghost key = { λ r. r.key };

    ghost size = { row_size };

    fn key(&self) -> &[u8] {
        self.key.as_slice()
    }

    fn size(&self) -> usize {
        row_size(self)
    }
}

/// Rows that ascend by key, and the sum of their sizes.
pub type RowList = KeyedList<Row>;
