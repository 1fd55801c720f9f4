//! Rows of a table's tree.
ghost use Rattle.std.specs.Prelude.{◌≡◌, IfOk, OnOk, All, length, vec_len};
ghost use Rattle.round_works.specs.Shelves.{on_shelf, HasKey};

use crate::Failure;
use crate::shelf::Shelf;
use std::alloc::Global;
use tm_base::{Before, Key, Row, TryCopy, Txn, Value, Writer};

/// The order of the keys of rows that are put one after the other.
#[derive(Clone, Copy)]
pub enum Order {
    /// Each key is above the one before.
    Rising,
    /// The keys lie anywhere.
    Random,
}

// The same number under another name: no two numbers have one (SplitMix64's last step).
fn mixed(number: u64) -> u64 {
    let first = (number ^ (number >> 30)).wrapping_mul(0xbf58_476d_1ce4_e5b9);
    let second = (first ^ (first >> 27)).wrapping_mul(0x94d0_49bb_1331_11eb);
    second ^ (second >> 31)
}

// The key of the row of this number: 8 bytes.
fn key(alloc: Global, order: Order, number: u32) -> Result<Key, Failure> {
    let number = u64::from(number);
    let placed = match order {
        Order::Rising => number,
        Order::Random => mixed(number),
    };
    Ok(Key::new(alloc, &placed.to_be_bytes())?)
}

// A row of this key, with a value of 16 bytes, that is new.
fn row(alloc: Global, key: Key) -> Result<Row, Failure> {
    let writer = Writer(1);
    Ok(Row {
        key,
        txn: Txn { writer, number: 1 },
        now: Some(Value::new(alloc, b"sixteen bytes ..")?),
        before: Before::Was(None),
    })
}

// The keys of so many rows, after those of so many.
fn keys_after(alloc: Global, order: Order, rows: u32, count: u32) -> Result<Vec<Key>, Failure>
    ensures { IfOk result (λ keys. vec_len keys ≡ count) }
{
    let mut keys = Vec::new(alloc);
    for at in 0..count {
        keys.push(key(alloc, order, rows.saturating_add(at))?)?;
    }
    Ok(keys)
}

// So many keys, each the next of so many rows'.
fn keys_among(alloc: Global, order: Order, rows: u32, count: u32) -> Result<Vec<Key>, Failure>
    ensures { IfOk result (λ keys. vec_len keys ≡ count) }
{
    let mut keys = Vec::new(alloc);
    for at in 0..count {
        keys.push(key(alloc, order, at % rows.max(1))?)?;
    }
    Ok(keys)
}

// Puts rows with these keys.
fn put_all(alloc: Global, shelf: &mut Shelf, keys: &[Key]) -> Result<(), Failure> {
    for key in keys {
        shelf.put(alloc, &row(alloc, key.copy()?)?)?;
    }
    Ok(())
}

/// Looks for the rows with these keys, and refuses where one isn't there. Gives their number.
fn find_all(alloc: Global, shelf: &Shelf, keys: &[Key]) -> Result<usize, Failure>
    ensures there { OnOk result (All (HasKey (on_shelf shelf.now) 1) keys.now) }
    ensures sum { IfOk result (λ sum. sum ≡ length keys.now) }
{
    let mut sum: usize = 0;
    for key in keys {
        if !shelf.has(alloc, key)? {
            return Err(Failure::Refused);
        }
        sum += 1;
    }
    Ok(sum)
}

/// Puts a row in each round, after so many, and looks for each of them at the end. Gives how many there are.
pub fn put(alloc: Global, order: Order, rows: u32, rounds: u32) -> Result<usize, Failure>
    ensures { IfOk result (λ sum. sum ≡ rounds) }
{
    let mut shelf = Shelf::new(alloc);
    put_all(alloc, &mut shelf, &keys_after(alloc, order, 0, rows)?)?;
    let keys = keys_after(alloc, order, rows, rounds)?;
    put_all(alloc, &mut shelf, &keys)?;
    find_all(alloc, &shelf, &keys)
}

/// Looks for a row in each round, of so many. Gives how many there are.
pub fn look(alloc: Global, order: Order, rows: u32, rounds: u32) -> Result<usize, Failure>
    ensures { IfOk result (λ sum. sum ≡ rounds) }
{
    let mut shelf = Shelf::new(alloc);
    put_all(alloc, &mut shelf, &keys_after(alloc, order, 0, rows)?)?;
    find_all(alloc, &shelf, &keys_among(alloc, order, rows, rounds)?)
}
