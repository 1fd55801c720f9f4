use super::*;
use std::alloc::AllocError;
use std::test::*;

/// A key, a fence, the open end, a value, no value, the three kinds of before, and a vector.
const FIELDS: [u8; 46] = [
    1, 107, 2, 1, 2, 0, 0, 1, 118, 255, 255, 255, 254, 255, 255, 0, 0, 0, 2, 0, 0, 0, 1, 0, 0, 0,
    0, 0, 0, 0, 9, 255, 255, 255, 255, 127, 255, 255, 255, 255, 255, 255, 255, 1, 2, 3,
];

fn put_all(out: &mut Vec<u8>) -> Result<(), AllocError> {
    put_key(out, b"k".as_slice())?;
    put_fence(out, Some([1, 2].as_slice()))?;
    put_fence(out, None)?;
    put_value(out, Some(b"v".as_slice()))?;
    put_value(out, None)?;
    put_before(out, None)?;
    put_before(out, Some(None))?;
    put_before(out, Some(Some([].as_slice())))?;
    put_vector(
        out,
        [(1, 9), (u32::MAX, 9_223_372_036_854_775_807)].as_slice(),
    )?;
    put_u8(out, 1)?;
    put_u16(out, 0x0203)?;
    Ok(())
}

#[test]
fn fields_are_written(rt: HostRuntime) -> Result<(), Fail> {
    let mut out = Vec::new(rt.alloc());
    put_all(&mut out)?;
    assert_eq!(rt; out.as_slice(), FIELDS.as_slice());
    Ok(())
}

#[test]
fn fields_are_read(rt: HostRuntime) -> Result<(), Fail> {
    let total = FIELDS.len();
    let (key, rest) = read_key(total, &FIELDS)?;
    assert_eq!(rt; key, b"k".as_slice());
    let (fence, rest) = read_fence(total, rest)?;
    assert_eq!(rt; fence, Some([1, 2].as_slice()));
    let (open, rest) = read_fence(total, rest)?;
    assert_eq!(rt; open, None);
    let (value, rest) = read_value(total, rest)?;
    assert_eq!(rt; value, Some(b"v".as_slice()));
    let (none, rest) = read_value(total, rest)?;
    assert_eq!(rt; none, None);
    let (same, rest) = read_before(total, value, rest)?;
    assert_eq!(rt; same.is_none(), true);
    let (_, rest) = read_before(total, value, rest)?;
    let (_, rest) = read_before(total, value, rest)?;
    let (vector, rest) = read_vector(rt.alloc(), total, 2, rest)?;
    assert_eq!(rt;
        vector.as_slice(),
        [(1, 9), (u32::MAX, 9_223_372_036_854_775_807)].as_slice()
    );
    assert_eq!(rt; offset(total, rest), 43);
    Ok(())
}

#[test]
fn faults_are_named(rt: HostRuntime) {
    assert_eq!(rt; read_key(9, &[65]).err(), Some(ReadError::Range { at: 8 }));
    assert_eq!(rt;
        read_key(9, &[2, 1]).err(),
        Some(ReadError::Truncated { at: 7 })
    );
    assert_eq!(rt;
        read_value(3, &[2, 1, 0]).err(),
        Some(ReadError::Range { at: 0 })
    );
    assert_eq!(rt;
        read_before(2, None, &[255, 255]).err(),
        Some(ReadError::NotCanonical { at: 0 })
    );
    assert_eq!(rt;
        read_kind(1, 1, 6, &[7]).err(),
        Some(ReadError::Kind { at: 0 })
    );
    assert_eq!(rt;
        check_end(5, &[0]).err(),
        Some(ReadError::NotCanonical { at: 4 })
    );
}
