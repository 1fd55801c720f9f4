//! What no clause says: that the calls answer with ample memory, and the edges by example.
use std::alloc::Global;
use std::test::Fail;
use tm_data::{
    Before, Body, ByteList, Group, Image, ItemList, Key, KeyPlace, LengthError, Page, Record, Row,
    RowList, Stamp, TryCopy, Txn, Value, Vector, VectorEntry, Writer,
};

#[test]
fn keys_by_their_length(rt: HostRuntime) -> Result<(), Fail> {
    let bytes = [97; 65];
    let key = Key::new(rt.alloc(), &bytes[..64])?;
    assert_eq!(rt; key.as_slice(), &bytes[..64]);
    assert_eq!(rt;
        Key::new(rt.alloc(), &[]),
        Err(LengthError::Length { length: 0 })
    );
    assert_eq!(rt;
        Key::new(rt.alloc(), &bytes),
        Err(LengthError::Length { length: 65 })
    );
    Ok(())
}

/// Up to 22 bytes stand in the value itself, more in memory of their own: both are copied and compared alike.
#[test]
fn short_and_long_bytes(rt: HostRuntime) -> Result<(), Fail> {
    let bytes = [97; 64];
    let mut last = Key::new(rt.alloc(), b"a")?;
    for length in [2, 21, 22, 23, 64] {
        let key = Key::new(rt.alloc(), &bytes[..length])?;
        let copy = key.copy()?;
        assert_eq!(rt; copy.as_slice(), &bytes[..length]);
        assert!(rt; copy == key && last < key);
        last = key;
    }
    Ok(())
}

#[test]
fn values_by_their_length(rt: HostRuntime) -> Result<(), Fail> {
    let bytes = [97; 513];
    let value = Value::new(rt.alloc(), &bytes[..512])?;
    assert_eq!(rt; value.as_slice(), &bytes[..512]);
    assert!(rt; Value::new(rt.alloc(), &[]).is_ok());
    assert_eq!(rt;
        Value::new(rt.alloc(), &bytes),
        Err(LengthError::Length { length: 513 })
    );
    Ok(())
}

fn row(alloc: Global) -> Result<Row, Fail> {
    let txn = Txn {
        writer: Writer(1),
        number: 2,
    };
    let key = Key::new(alloc, b"k")?;
    let value = Value::new(alloc, b"v")?;
    Ok(Row {
        key,
        txn,
        now: Some(value),
        before: Before::Was(None),
    })
}

fn leaf(alloc: Global) -> Result<Body, Fail> {
    let mut rows = RowList::new(alloc);
    let row = row(alloc)?;
    let place = rows.place(row.key.as_slice());
    rows.set(row, place)?;
    let high = Key::new(alloc, b"z")?;
    Ok(Body::Leaf {
        table: 1,
        low: None,
        high: Some(high),
        rows,
    })
}

/// A row of this key and no value, which has 14 bytes.
fn bare(alloc: Global, key: &[u8]) -> Result<Row, Fail> {
    let txn = Txn {
        writer: Writer(1),
        number: 2,
    };
    let key = Key::new(alloc, key)?;
    Ok(Row {
        key,
        txn,
        now: None,
        before: Before::Same,
    })
}

#[test]
fn rows_keep_their_order_and_their_size(rt: HostRuntime) -> Result<(), Fail> {
    let mut rows = RowList::with_capacity(rt.alloc(), 2)?;
    rows.push(bare(rt.alloc(), b"m")?)?;
    for key in [b"c", b"x", b"m"] {
        let row = bare(rt.alloc(), key)?;
        let place = rows.place(row.key.as_slice());
        rows.set(row, place)?;
    }
    assert_eq!(rt; rows.len(), 3);
    assert_eq!(rt; rows.size(), 42);
    assert_eq!(rt; rows.size_below(b"x"), 28);
    assert_eq!(rt; rows.place(b"c"), KeyPlace::At(0));
    assert_eq!(rt; rows.place(b"d"), KeyPlace::Before(1));
    assert_eq!(rt; rows.place(b"z"), KeyPlace::Before(3));
    let front = rows.copy_front(1)?;
    let back = rows.copy_back(1)?;
    rows.cut(b"d");
    assert!(rt; rows == front);
    assert_eq!(rt; back.size(), 28);
    Ok(())
}

#[test]
fn a_copied_change_is_the_same(rt: HostRuntime) -> Result<(), Fail> {
    let change = Record::Format {
        page: Page(7),
        prev: Stamp(3),
        body: leaf(rt.alloc())?,
    };
    let copy = change.copy()?;
    assert!(rt; copy == change);
    Ok(())
}

#[test]
fn a_copied_group_is_the_same(rt: HostRuntime) -> Result<(), Fail> {
    let mut records = ItemList::new(rt.alloc());
    records.push(Record::Beat)?;
    let group = Group {
        writer: Writer(1),
        seq: 5,
        stamp: Stamp(9),
        learnt: Vector::new(rt.alloc()),
        records,
    };
    let copy = group.copy()?;
    assert!(rt; copy == group);
    let image = Image {
        page: Page(7),
        stamp: Stamp(9),
        body: Body::Blank,
    };
    let copy = image.copy()?;
    assert!(rt; copy == image);
    Ok(())
}

#[test]
fn lists_of_bytes_and_of_items(rt: HostRuntime) -> Result<(), Fail> {
    let mut bytes = ByteList::from_slice(rt.alloc(), b"ab")?;
    bytes.push(99)?;
    bytes.extend(b"de")?;
    assert_eq!(rt; bytes.as_slice(), b"abcde".as_slice());
    let mut pages = ItemList::new(rt.alloc());
    pages.push(Page(1))?;
    let more = pages.copy()?;
    pages.append(more)?;
    assert_eq!(rt; pages.as_slice(), [Page(1), Page(1)].as_slice());
    Ok(())
}

#[test]
fn vectors_are_read_covered_and_joined(rt: HostRuntime) -> Result<(), Fail> {
    let mut a = Vector::single(rt.alloc(), Writer(2), Stamp(12))?;
    let b = Vector::single(rt.alloc(), Writer(1), Stamp(10))?;
    assert!(rt; !a.covers(&b));
    a.join(&b)?;
    assert!(rt; a.covers(&b));
    let entries = [
        VectorEntry {
            writer: Writer(1),
            stamp: Stamp(10),
        },
        VectorEntry {
            writer: Writer(2),
            stamp: Stamp(12),
        },
    ];
    assert_eq!(rt; a.as_slice(), entries.as_slice());
    assert_eq!(rt; a.get(Writer(2)), Stamp(12));
    assert_eq!(rt; a.get(Writer(3)), Stamp(0));
    Ok(())
}
