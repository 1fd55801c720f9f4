//! A master's tags.
ghost use Rattle.std.specs.Prelude.{◌≡◌, ◌≤◌, IfOk};

use lock_table::Tags;
use round_works::Failure;
use std::alloc::Global;
use std::marker::Brand;
use std::sync::ledger::{Blank, Ledger};
use tm_base::{Key, Page, Steps, Txn, Writer};

/// A transaction has this many tags, and so has a page of a table of many pages.
const TEN: u32 = 10;

// The transaction of this number, of the writer that ends its transactions here.
fn own(number: u32) -> Txn {
    Txn {
        writer: Writer(1),
        number,
    }
}

// The key of this number: 4 bytes.
fn key(alloc: Global, number: u32) -> Result<Key, Failure> {
    Ok(Key::new(alloc, &number.to_be_bytes())?)
}

// The tags of a transaction in a table of so many tags: ten, each on another page. The table has ten on each page.
fn add_ten(alloc: Global, tags: &mut Tags, count: u32, number: u32) -> Result<(), Failure> {
    let pages = (count / TEN).max(1);
    for at in 0..TEN {
        let page = number.wrapping_add(at) % pages;
        let key = key(alloc, number)?;
        tags.add(Page(page.saturating_add(1)), &key, own(number))?;
    }
    Ok(())
}

// A table of so many tags, ten of each transaction.
fn table(alloc: Global, count: u32) -> Result<Tags, Failure> {
    let mut tags = Tags::new(alloc);
    for number in 0..count / TEN {
        add_ten(alloc, &mut tags, count, number)?;
    }
    Ok(tags)
}

// So many times the ten tags of a transaction are taken out, and added again. Gives how often.
fn ended<L: Ledger>(alloc: Global, blank: Blank, count: u32, rounds: u32) -> Result<usize, Failure>
    requires { (blank.name ≡ L.name) × (blank.parts ≡ L.parts) × (1 ≤ blank.parts) }
    ensures { IfOk result (λ sum. sum ≡ rounds) }
{
    let mut steps = Steps::<L>::new(blank);
    let mut tags = table(alloc, count)?;
    let number = count / TEN / 2;
    let mut sum: usize = 0;
    for _ in 0..rounds {
        tags.end_of(own(number), &mut steps);
        add_ten(alloc, &mut tags, count, number)?;
        sum += 1;
    }
    Ok(sum)
}

/// Ends in each round a transaction with ten tags, of so many, and adds its tags again. Gives how often.
pub fn end(alloc: Global, count: u32, rounds: u32) -> Result<usize, Failure>
    ensures { IfOk result (λ sum. sum ≡ rounds) }
{
    ended::<Brand>(alloc, Blank::new(1), count, rounds)
}

// A page with so many tags, each on a key and of a transaction of its own.
fn full_page(alloc: Global, count: u32) -> Result<Tags, Failure> {
    let mut tags = Tags::new(alloc);
    for number in 0..count {
        let key = key(alloc, number)?;
        tags.add(Page(1), &key, own(number))?;
    }
    Ok(tags)
}

/// Asks in each round whether the key in the middle of a page with so many tags has another transaction's. Gives how
/// often it has.
pub fn ask(alloc: Global, count: u32, rounds: u32) -> Result<usize, Failure> {
    let tags = full_page(alloc, count)?;
    let key = key(alloc, count / 2)?;
    let mut sum: usize = 0;
    for at in 0..rounds {
        if tags
            .conflict(Page(1), &key, own(count.saturating_add(at)))
            .is_some()
        {
            sum += 1;
        }
    }
    Ok(sum)
}

// A transaction adds so many times a tag in the middle of a page, and ends.
fn added<L: Ledger>(alloc: Global, blank: Blank, count: u32, rounds: u32) -> Result<usize, Failure>
    requires { (blank.name ≡ L.name) × (blank.parts ≡ L.parts) × (1 ≤ blank.parts) }
    ensures { IfOk result (λ sum. sum ≡ rounds) }
{
    let mut steps = Steps::<L>::new(blank);
    let mut tags = full_page(alloc, count.saturating_sub(1))?;
    let key = key(alloc, count / 2)?;
    let mut sum: usize = 0;
    for _ in 0..rounds {
        tags.add(Page(1), &key, own(count))?;
        tags.end_of(own(count), &mut steps);
        sum += 1;
    }
    Ok(sum)
}

/// Adds in each round a tag in the middle of a page, which has so many with it, and takes it out. Gives how often.
pub fn add(alloc: Global, count: u32, rounds: u32) -> Result<usize, Failure>
    ensures { IfOk result (λ sum. sum ≡ rounds) }
{
    added::<Brand>(alloc, Blank::new(1), count, rounds)
}

/// Asks in each round for the first tag of another writer on a page with so many tags, of which the last alone is
/// another writer's. Gives how often there is one.
pub fn seek_foreign(alloc: Global, count: u32, rounds: u32) -> Result<usize, Failure> {
    let mut tags = full_page(alloc, count.saturating_sub(1))?;
    let key = key(alloc, count)?;
    let other = Txn {
        writer: Writer(2),
        number: 1,
    };
    tags.add(Page(1), &key, other)?;
    let mut sum: usize = 0;
    for _ in 0..rounds {
        if tags.foreign(Page(1), Writer(1)).is_some() {
            sum += 1;
        }
    }
    Ok(sum)
}
