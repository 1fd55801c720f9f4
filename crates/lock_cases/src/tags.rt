//! Tags come, a transaction ends, tags move to another page, and pages leave.
ghost use Rattle.std.specs.Prelude.{◌≡◌, ◌≤◌};

use lock_table::{TagError, Tags};
use std::alloc::Global;
use std::marker::Brand;
use std::sync::ledger::{Blank, Ledger};
use std::test::Fail;
use tm_base::{Key, Mem, Page, Steps, TagList, Txn, Writer};

fn txn(number: u32) -> Txn {
    Txn {
        writer: Writer(1),
        number,
    }
}

// The page, the key's byte and the transaction of each tag.
fn row(number: u32) -> (u32, u8, u32) {
    match number {
        0 => (1, 0x6b, 1),
        1 => (1, 0x6b, 2),
        2 => (1, 0x6c, 2),
        3 => (2, 0x6c, 1),
        _ => (3, 0x6c, 2),
    }
}

fn table(alloc: Global) -> Result<Tags, Fail> {
    let mut tags = Tags::new(alloc);
    for number in 0..5 {
        let (page, byte, number) = row(number);
        let key = Key::new(alloc, &[byte])?;
        tags.add(Page(page), &key, txn(number))?;
    }
    Ok(tags)
}

fn leaves_in<L: Ledger>(tags: &mut Tags, blank: Blank) -> Mem<TagList>
    requires { (blank.name ≡ L.name) × (blank.parts ≡ L.parts) × (1 ≤ blank.parts) }
{
    let mut steps = Steps::<L>::new(blank);
    tags.end_of(txn(1), &mut steps);
    tags.drop_page(Page(3), &mut steps);
    tags.take_page(Page(1), &mut steps)
}

// The first transaction ends, and two pages leave.
fn leaves(tags: &mut Tags) -> Mem<TagList> {
    leaves_in::<Brand>(tags, Blank::new(1))
}

#[test]
fn a_transaction_ends(rt: HostRuntime) -> Result<(), Fail> {
    let mut tags = table(rt.alloc())?;
    let first = leaves(&mut tags)?;
    assert_eq!(rt; first.len(), 2);
    tags.put_page(Page(4), &first)?;
    let copy = tags.copy_page(Page(4))?;
    assert_eq!(rt; copy.len(), 2);
    Ok(())
}

#[test]
fn tags_move(rt: HostRuntime) -> Result<(), Fail> {
    let mut tags = table(rt.alloc())?;
    let key = Key::new(rt.alloc(), &[0x6c])?;
    tags.move_from(Page(1), &key, Page(2))?;
    assert_eq!(rt; tags.conflict(Page(2), &key, txn(1)), Some(txn(2)));
    Ok(())
}

/// A page takes 4,096 tags, and no new one beyond.
#[test]
fn a_page_is_full(rt: HostRuntime) -> Result<(), Fail> {
    let mut tags = Tags::new(rt.alloc());
    let key = Key::new(rt.alloc(), &[0x6b])?;
    for number in 1..=4096 {
        tags.add(Page(1), &key, txn(number))?;
    }
    assert_eq!(rt; tags.add(Page(1), &key, txn(4097)), Err(TagError::Full));
    Ok(())
}
