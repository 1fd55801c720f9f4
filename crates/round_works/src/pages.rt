//! The records that are held of a page.
ghost use Rattle.std.specs.Prelude.{◌≡◌, ◌+◌, ◌-◌, ◌^◌, min, IfOk, Some};
ghost use Rattle.page_model.specs.Effects.{page_of, prev_of};

use crate::Failure;
use std::alloc::Global;
use tm_base::{Before, Key, Page, Record, Row, Stamp, Txn, Writer};
use version_chain::Chains;

const PAGE: Page = Page(1);

const TXN: Txn = Txn {
    writer: Writer(1),
    number: 1,
};

// A record that deletes the same row of the page on the version of this stamp.
fn change(alloc: Global, prev: Stamp) -> Result<Record, Failure>
    ensures page { IfOk result (λ r. page_of r ≡ Some 1) }
    ensures prev { IfOk result (λ r. prev_of r ≡ prev.0) }
{
    let row = Row {
        key: Key::new(alloc, b"k")?,
        txn: TXN,
        now: None,
        before: Before::Same,
    };
    Ok(Record::RowSet {
        page: PAGE,
        prev,
        table: 1,
        row,
    })
}

// Adds a record on the version of this stamp, with the next stamp.
fn add_one(chains: &mut Chains, alloc: Global, prev: u32) -> Result<(), Failure> {
    let before = Stamp(u64::from(prev));
    let change = change(alloc, before)?;
    chains.add(Writer(1), Stamp(before.0 + 1), &change)?;
    Ok(())
}

// A page of which so many records are held.
fn filled(alloc: Global, length: u32) -> Result<Chains, Failure> {
    let mut chains = Chains::new(alloc);
    for prev in 0..length {
        add_one(&mut chains, alloc, prev)?;
    }
    Ok(chains)
}

/// Adds a record in each round, after so many. Gives the stamp of the version of the last one.
pub fn add(alloc: Global, length: u32, rounds: u32) -> Result<u64, Failure>
    ensures { IfOk result (λ stamp. stamp ≡ min (length + rounds) (2 ^ 32 - 1)) }
{
    let mut chains = filled(alloc, length)?;
    let end = length.saturating_add(rounds);
    for prev in length..end {
        add_one(&mut chains, alloc, prev)?;
    }
    Ok(u64::from(end))
}

// Reads the version of the page at a stamp so many times. Gives the stamp of the last one, 0 if none was read.
fn read_all(chains: &Chains, stamp: Stamp, rounds: u32) -> Result<u64, Failure> {
    let mut last = 0;
    for _ in 0..rounds {
        last = chains.page_version(PAGE, stamp)?.stamp.0;
    }
    Ok(last)
}

/// Reads the newest version in each round, which so many records make. Gives its stamp.
pub fn read(alloc: Global, length: u32, rounds: u32) -> Result<u64, Failure> {
    let chains = filled(alloc, length)?;
    read_all(&chains, Stamp(u64::from(length)), rounds)
}
