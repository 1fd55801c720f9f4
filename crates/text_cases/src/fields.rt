//! Numbers and bytes, read and printed.
use std::test::Fail;
use text_fields::{print_hex, push_decimal, read_hex, read_u8, read_u16, read_u32};

#[test]
fn fields_are_read_and_printed(rt: HostRuntime) -> Result<(), Fail> {
    let alloc = rt.alloc();
    let numbers: [(&[u8], Option<u32>); 8] = [
        (b"1", Some(1)),
        (b"4294967295", Some(4294967295)),
        (b"4294967296", None),
        (b"0", None),
        (b"01", None),
        (b"+1", None),
        (b"", None),
        (b"1 ", None),
    ];
    for (word, number) in numbers.iter() {
        assert_eq!(rt; read_u32(word, 1, u32::MAX), *number);
    }
    assert_eq!(rt; read_u8(b"4", 1, 4), Some(4));
    assert_eq!(rt; read_u16(b"65535", 0, u16::MAX), Some(65535));
    let mut text = format!(in alloc; "#")?;
    let Ok(()) = push_decimal(&mut text, 18446744073709551615) else {
        return Err(Fail::from("no memory"));
    };
    assert_eq!(rt; text.as_str(), "#18446744073709551615");
    Ok(())
}

#[test]
fn bytes_are_read_and_printed(rt: HostRuntime) -> Result<(), Fail> {
    let alloc = rt.alloc();
    let words: [(&[u8], bool); 7] = [
        (b"6b00ff", true),
        (b"-", false),
        (b"6B00ff", false),
        (b"6b0", false),
        (b"", false),
        (b"6g", false),
        (b"00112233", false),
    ];
    for (word, spells) in words.iter() {
        let Ok(found) = read_hex(alloc, word, 1, 3) else {
            return Err(Fail::from("no memory"));
        };
        assert_eq!(rt; found.is_some(), *spells);
    }
    let Ok(Some(none)) = read_hex(alloc, b"-", 0, 3) else {
        return Err(Fail::from("the empty list isn't read"));
    };
    assert!(rt; none.is_empty());
    let Ok(text) = print_hex(alloc, b"k\xff") else {
        return Err(Fail::from("no memory"));
    };
    assert_eq!(rt; text.as_str(), "6bff");
    Ok(())
}
