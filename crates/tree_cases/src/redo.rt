//! Each kind of record applied once, and refused once for each reason.
ghost use Rattle.std.specs.Prelude.{◌≡◌, IfOk, Some};
ghost use Rattle.page_model.specs.Effects.{page_of};

use page_redo::{RedoError, apply, initial};
use std::alloc::Global;
use std::test::Fail;
use tm_base::{
    Before, Body, ChildList, Image, Key, Page, Record, Row, Stamp, Txn, Value, Writer, size,
};

/// A record of a page, with keys of one byte.
#[derive(Clone, Copy)]
enum Change {
    /// A row of this table and key, whose value has so many bytes, and so many before.
    Set(u16, u8, usize),
    Cut(u8),
    FormatBlank,
    FormatInner,
    Add(u8),
}

fn key(alloc: Global, byte: u8) -> Result<Key, Fail> {
    let key = Key::new(alloc, &[byte])?;
    Ok(key)
}

fn row(alloc: Global, byte: u8, length: usize) -> Result<Row, Fail> {
    let bytes = [7; 512];
    let length = length.min(512);
    let key = key(alloc, byte)?;
    let now = Value::new(alloc, &bytes[..length])?;
    let before = Value::new(alloc, &bytes[..length])?;
    Ok(Row {
        key,
        txn: Txn {
            writer: Writer(1),
            number: 1,
        },
        now: Some(now),
        before: Before::Was(Some(before)),
    })
}

fn inner(alloc: Global) -> Body {
    Body::Inner {
        table: 1,
        level: 1,
        low: None,
        high: None,
        first: Page(1025),
        entries: ChildList::new(alloc),
    }
}

fn record_of(alloc: Global, page: Page, prev: Stamp, change: Change) -> Result<Record, Fail>
    ensures { IfOk result (λ made. page_of made ≡ Some page.0) }
{
    Ok(match change {
        Change::Set(table, byte, length) => Record::RowSet {
            page,
            prev,
            table,
            row: row(alloc, byte, length)?,
        },
        Change::Cut(byte) => Record::Cut {
            page,
            prev,
            at: key(alloc, byte)?,
        },
        Change::FormatBlank => Record::Format {
            page,
            prev,
            body: Body::Blank,
        },
        Change::FormatInner => Record::Format {
            page,
            prev,
            body: inner(alloc),
        },
        Change::Add(byte) => Record::NodeAdd {
            page,
            prev,
            key: key(alloc, byte)?,
            child: Page(1026),
        },
    })
}

/// Applies a change of the version `prev`, and tells why it isn't applied.
fn play(
    alloc: Global,
    image: &mut Image,
    change: Change,
    prev: u64,
    stamp: u64,
) -> Result<Option<RedoError>, Fail> {
    let change = record_of(alloc, image.page, Stamp(prev), change)?;
    Ok(apply(image, &change, Stamp(stamp)).err())
}

#[test]
fn first_images(rt: HostRuntime) {
    let sizes: [(u32, usize); 4] = [(0, 13), (1, 20), (1024, 20), (1025, 13)];
    for (page, bytes) in sizes.iter() {
        let image = initial(rt.alloc(), Page(*page));
        assert_eq!(rt; (image.page, image.stamp), (Page(*page), Stamp(0)));
        assert_eq!(rt; size(&image), *bytes);
    }
}

#[test]
fn each_kind_and_each_refusal(rt: HostRuntime) -> Result<(), Fail> {
    const UNFIT: Option<RedoError> = Some(RedoError::Unfit);
    let late = Some(RedoError::WrongPrev {
        has: Stamp(1),
        wants: Stamp(0),
    });
    // the change, its `prev`, its stamp, the answer, and the size of the image then
    let changes: [(Change, u64, u64, Option<RedoError>, usize); 15] = [
        (Change::Set(1, 107, 1), 0, 1, None, 36),
        (Change::Set(1, 107, 1), 0, 2, late, 36),
        (Change::Set(2, 107, 1), 1, 2, UNFIT, 36),
        (Change::Set(1, 108, 1), 1, 3, None, 52),
        (Change::Set(1, 107, 3), 3, 4, None, 56),
        (Change::Add(107), 4, 5, UNFIT, 56),
        (Change::Cut(108), 4, 5, None, 41),
        (Change::Set(1, 108, 1), 5, 6, UNFIT, 41),
        (Change::Cut(108), 5, 6, UNFIT, 41),
        (Change::FormatBlank, 5, 6, UNFIT, 41),
        (Change::FormatInner, 5, 6, None, 24),
        (Change::Add(107), 6, 7, None, 30),
        (Change::Add(107), 7, 8, UNFIT, 30),
        (Change::Set(1, 107, 1), 7, 8, UNFIT, 30),
        (Change::Cut(107), 7, 8, None, 25),
    ];
    let mut image = initial(rt.alloc(), Page(1));
    for (change, prev, stamp, answer, bytes) in changes.iter() {
        let refused = play(rt.alloc(), &mut image, *change, *prev, *stamp)?;
        assert_eq!(rt; refused, *answer);
        assert_eq!(rt; size(&image), *bytes);
        if refused.is_none() {
            assert_eq!(rt; image.stamp, Stamp(*stamp));
        }
    }
    let refused = play(rt.alloc(), &mut image, Change::FormatBlank, 9, 9)?;
    assert!(rt; refused.is_some());
    Ok(())
}

#[test]
fn rows_up_to_the_greatest_size(rt: HostRuntime) -> Result<(), Fail> {
    let mut image = initial(rt.alloc(), Page(1));
    for n in 0..7 {
        let stamp = u64::from(n);
        let refused = play(
            rt.alloc(),
            &mut image,
            Change::Set(1, n, 512),
            stamp,
            stamp + 1,
        )?;
        assert_eq!(rt; refused, None);
    }
    assert_eq!(rt; size(&image), 20 + 7 * 1038);
    // 906 bytes are left, and a row has 14 bytes beside its two values
    let refused = play(rt.alloc(), &mut image, Change::Set(1, 7, 447), 7, 8)?;
    assert_eq!(rt; refused, Some(RedoError::Unfit));
    let refused = play(rt.alloc(), &mut image, Change::Set(1, 7, 446), 7, 8)?;
    assert_eq!(rt; refused, None);
    assert_eq!(rt; size(&image), 8192);
    Ok(())
}
