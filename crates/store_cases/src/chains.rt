//! Chains with gaps, out of order, at scalars and at cuts.
ghost use Rattle.std.specs.Prelude.{◌≡◌, IfOk, Some};
ghost use Rattle.page_model.specs.Effects.{page_of, prev_of};

use std::alloc::Global;
use std::test::Fail;
use tm_base::{Before, Image, Key, Page, Record, Row, Stamp, Txn, Value, Vector, Writer, size};
use version_chain::{AddError, Chains, VersionError};

/// The size of the first image of page 1, and of a row with a key of one byte and one before.
const EMPTY: usize = 20;

const ROW: usize = 15;

fn row(alloc: Global, byte: u8) -> Result<Row, Fail> {
    let key = Key::new(alloc, &[byte])?;
    let value = Value::new(alloc, &[byte])?;
    Ok(Row {
        key,
        txn: Txn {
            writer: Writer(1),
            number: 1,
        },
        now: Some(value),
        before: Before::Same,
    })
}

/// A record that sets the row of a key on page 1, for a table.
fn set(alloc: Global, prev: u64, table: u16, byte: u8) -> Result<Record, Fail>
    ensures named { IfOk result (λ made. page_of made ≡ Some 1) }
    ensures made { IfOk result (λ made. prev_of made ≡ prev) }
{
    let row = row(alloc, byte)?;
    Ok(Record::RowSet {
        page: Page(1),
        prev: Stamp(prev),
        table,
        row,
    })
}

/// A writer's record.
#[derive(Clone, Copy)]
struct Held {
    writer: u32,
    stamp: u64,
    prev: u64,
    table: u16,
    byte: u8,
}

/// Adds a record, and tells why it isn't added.
fn hold(alloc: Global, chains: &mut Chains, it: Held) -> Result<Option<AddError>, Fail> {
    if it.prev >= it.stamp {
        return Err(Fail::from("a later version"));
    }
    let change = set(alloc, it.prev, it.table, it.byte)?;
    Ok(
        chains
            .add(Writer(it.writer), Stamp(it.stamp), &change)
            .err(),
    )
}

/// The stamp and the size of a version.
fn told(version: Result<Image, VersionError>) -> Result<(u64, usize), VersionError> {
    match version {
        Ok(image) => Ok((image.stamp.0, size(&image))),
        Err(error) => Err(error),
    }
}

fn missing(stamp: u64) -> Result<(u64, usize), VersionError> {
    Err(VersionError::Missing {
        stamp: Stamp(stamp),
    })
}

/// The record of stamp 2 was made on that of stamp 1; so was another one of stamp 2. That of stamp 4 is of
/// another table, and that of stamp 6 was made on it.
const SECOND: Held = Held {
    writer: 2,
    stamp: 2,
    prev: 1,
    table: 1,
    byte: 108,
};

const FIRST: Held = Held {
    writer: 1,
    stamp: 1,
    prev: 0,
    table: 1,
    byte: 107,
};

const FOREIGN: Held = Held {
    writer: 1,
    stamp: 4,
    prev: 2,
    table: 2,
    byte: 109,
};

const BEHIND: Held = Held {
    writer: 2,
    stamp: 6,
    prev: 4,
    table: 1,
    byte: 110,
};

#[test]
fn a_gap_is_named_until_it_is_filled(rt: HostRuntime) -> Result<(), Fail> {
    let mut chains = Chains::new(rt.alloc());
    assert_eq!(rt; hold(rt.alloc(), &mut chains, SECOND)?, None);
    assert_eq!(rt; told(chains.page_version(Page(1), Stamp(2))), missing(1));
    assert_eq!(rt; told(chains.page_version(Page(1), Stamp(3))), missing(3));
    assert_eq!(rt; hold(rt.alloc(), &mut chains, FIRST)?, None);
    let both = Ok((2, EMPTY + 2 * ROW));
    assert_eq!(rt; told(chains.page_version(Page(1), Stamp(2))), both);
    assert_eq!(rt;
        told(chains.page_version(Page(1), Stamp(0))),
        Ok((0, EMPTY))
    );
    assert_eq!(rt; told(chains.page_version(Page(2), Stamp(2))), missing(2));
    assert_eq!(rt; told(chains.page_upto(Page(1), Stamp(9))), both);
    Ok(())
}

#[test]
fn a_stamp_has_one_record(rt: HostRuntime) -> Result<(), Fail> {
    let differs = Some(AddError::Differs { stamp: Stamp(2) });
    let mut chains = Chains::new(rt.alloc());
    let adds: [(Held, Option<AddError>); 5] = [
        (SECOND, None),
        (SECOND, None),
        (
            Held {
                writer: 1,
                ..SECOND
            },
            differs,
        ),
        (
            Held {
                byte: 107,
                ..SECOND
            },
            differs,
        ),
        (Held { prev: 0, ..SECOND }, differs),
    ];
    for (held, answer) in adds.iter() {
        assert_eq!(rt; hold(rt.alloc(), &mut chains, *held)?, *answer);
    }
    Ok(())
}

#[test]
fn an_unfit_record_is_named(rt: HostRuntime) -> Result<(), Fail> {
    let mut chains = Chains::new(rt.alloc());
    let held: [Held; 4] = [BEHIND, FIRST, FOREIGN, SECOND];
    for it in held.iter() {
        assert_eq!(rt; hold(rt.alloc(), &mut chains, *it)?, None);
    }
    let unfit = Err(VersionError::Unfit { stamp: Stamp(4) });
    assert_eq!(rt; told(chains.page_version(Page(1), Stamp(6))), unfit);
    let uptos: [(u64, Result<(u64, usize), VersionError>); 5] = [
        (0, Ok((0, EMPTY))),
        (1, Ok((1, EMPTY + ROW))),
        (3, Ok((2, EMPTY + 2 * ROW))),
        (5, unfit),
        (9, unfit),
    ];
    for (stamp, version) in uptos.iter() {
        assert_eq!(rt; told(chains.page_upto(Page(1), Stamp(*stamp))), *version);
    }
    Ok(())
}

#[test]
fn a_cut_covers_by_the_writer(rt: HostRuntime) -> Result<(), Fail> {
    let mut chains = Chains::new(rt.alloc());
    assert_eq!(rt; hold(rt.alloc(), &mut chains, FIRST)?, None);
    assert_eq!(rt; hold(rt.alloc(), &mut chains, SECOND)?, None);
    let cuts: [(u32, u64, u64, usize); 5] = [
        (1, 1, 1, EMPTY + ROW),
        (1, 9, 1, EMPTY + ROW),
        (2, 1, 0, EMPTY),
        (2, 2, 2, EMPTY + 2 * ROW),
        (3, 9, 0, EMPTY),
    ];
    for (writer, upto, stamp, bytes) in cuts.iter() {
        if *writer == 0 {
            return Err(Fail::from("writers are counted from 1"));
        }
        let Ok(cut) = Vector::single(rt.alloc(), Writer(*writer), Stamp(*upto)) else {
            return Err(Fail::from("no memory"));
        };
        let version = chains.page_at_cut(Page(1), &cut);
        assert_eq!(rt; told(version), Ok((*stamp, *bytes)));
    }
    Ok(())
}
