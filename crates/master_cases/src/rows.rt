//! A transaction begins and reads keys of tables whose pages are here, aren't, or can't be.
use master_leases::on_grant;
use master_rows::{begin, get};
use master_work::{Answer, WorkState};
use std::test::Fail;
use tm_base::{Mem, Page, Reply, Stamp, TagList, Vector, Writer};

const SESSION: u16 = 7;

/// The front of so many bytes of it is a key.
const KEY: [u8; 65] = [0x6b; 65];

enum Deed {
    Begin,
    /// The table, and how many bytes the key has.
    Get(u16, u8),
}

#[derive(Clone, Copy, PartialEq, Eq)]
enum Said {
    Begun(u32),
    NoTransaction,
    NoTable(u16),
    TooLong(usize),
    AgainPage(u32),
    NoValue,
    Other,
}

fn what_is_said(answer: &Answer) -> Said {
    match &answer.reply {
        Reply::Begun { txn } => Said::Begun(txn.number),
        Reply::NoTransaction => Said::NoTransaction,
        Reply::NoTable { table } => Said::NoTable(*table),
        Reply::TooLongKey { length } => Said::TooLong(*length),
        Reply::AgainPage { page } => Said::AgainPage(page.0),
        Reply::Value { value: None } => Said::NoValue,
        _ => Said::Other,
    }
}

fn reads(work: &mut WorkState, table: u16, length: u8) -> Mem<Said> {
    let Some(key) = KEY.get(..usize::from(length)) else {
        return Ok(Said::Other);
    };
    if key.is_empty() {
        return Ok(Said::Other);
    }
    let answer = get(work, SESSION, table, key)?;
    Ok(what_is_said(&answer))
}

fn happens(work: &mut WorkState, deed: Deed) -> Mem<Said> {
    match deed {
        Deed::Begin => {
            let answer = begin(work, SESSION)?;
            Ok(what_is_said(&answer))
        }
        Deed::Get(table, length) => reads(work, table, length),
    }
}

fn row(number: u32) -> (Deed, Said) {
    match number {
        0 => (Deed::Get(1, 1), Said::NoTransaction),
        1 => (Deed::Begin, Said::Begun(1)),
        2 => (Deed::Get(0, 1), Said::NoTable(0)),
        3 => (Deed::Get(1, 65), Said::TooLong(65)),
        4 => (Deed::Get(2, 1), Said::AgainPage(2)),
        5 => (Deed::Get(1, 1), Said::NoValue),
        _ => (Deed::Get(1, 64), Said::NoValue),
    }
}

// The first version of the page of table 1 is here.
fn with_page(work: &mut WorkState) -> Mem<()> {
    let tags = TagList::new(work.alloc);
    let vector = Vector::new(work.alloc);
    on_grant(work, Page(1), 1, Stamp(0), &tags, &vector)?;
    Ok(())
}

#[test]
fn a_key_is_read_where_its_page_is_here(rt: HostRuntime) -> Result<(), Fail> {
    let mut work = WorkState::new(rt.alloc(), 1, 2, Writer(3), Stamp(40))?;
    with_page(&mut work)?;
    for number in 0..7 {
        let (deed, wanted) = row(number);
        if happens(&mut work, deed)? != wanted {
            return Err(Fail::from("another answer"));
        }
    }
    assert!(rt; work.tags.copy_page(Page(1))?.len() == 2);
    Ok(())
}
