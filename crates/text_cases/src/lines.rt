//! Lines and commands, and whether each is one.
use schedule_lines::{read_command, read_line};
use std::alloc::{AllocError, Global};
use std::test::*;
use tm_base::Node;

/// Lines, and whether each is one.
const LINES: [(&[u8], bool); 113] = [
    (b"world 1 1 0", true),
    (b"world 16 4 8", true),
    (b"do m1 1 begin", true),
    (b"do m255 4096 commit", true),
    (b"do m2 1 begin", true),
    (b"do m1 1 abort", true),
    (b"do m1 1 get 0 6b", true),
    (b"do m1 1 get 65535 00ff", true),
    (b"do m1 1 put 1 6b -", true),
    (b"do m1 1 put 65535 6b 76", true),
    (b"do m1 1 del 1 6b", true),
    (b"do m1 1 recover 1", true),
    (b"do m1 1 recover 4294967295", true),
    (b"deliver 1", true),
    (b"deliver 9", true),
    (b"deliver 4294967295", true),
    (b"lose 1", true),
    (b"lose 4294967295", true),
    (b"lose all", true),
    (b"tick m1", true),
    (b"tick l3", true),
    (b"tick p4", true),
    (b"tick g", true),
    (b"tick r8", true),
    (b"tick all", true),
    (b"stop g 0", true),
    (b"stop m1 2", true),
    (b"start p1", true),
    (b"fail l1 1 0", true),
    (b"fail g 1000000 2", true),
    (b"fail p1 1 1", true),
    (b"page p1 1 0", true),
    (b"page p1 4294967295 9223372036854775807", true),
    (b"version p1 1 0", true),
    (b"version p255 4294967295 9223372036854775807", true),
    (b"publish r1", true),
    (b"publish r1 1:1 2:9223372036854775807", true),
    (b"publish r1 4294967295:1", true),
    (b"lag r1", true),
    (b"get r1 0 0 6b", true),
    (b"get r1 4294967295 65535 00", true),
    (b"scan r1 0 0 - 1", true),
    (b"scan r1 4294967295 65535 6b 100", true),
    (b"drain 1", true),
    (b"drain 5", true),
    (b"drain 1000000", true),
    (b"try 1 m1 1 begin", true),
    (b"try 1000 m1 4096 commit", true),
    (b"", false),
    (b"world 1 1 0 ", false),
    (b" world 1 1 0", false),
    (b"world  1 1 0", false),
    (b"world 01 1 0", false),
    (b"world 0 1 0", false),
    (b"world 1 0 0", false),
    (b"world 17 4 8", false),
    (b"world 16 5 8", false),
    (b"world 16 4 9", false),
    (b"world 1 1", false),
    (b"world 1 1 0 0", false),
    (b"hello", false),
    (b"Drain 5", false),
    (b"do m1 1", false),
    (b"do m0 1 begin", false),
    (b"do m256 1 begin", false),
    (b"do m1 0 begin", false),
    (b"do m1 4097 begin", false),
    (b"do m1 1 get 1 6B", false),
    (b"do m1 1 get 1 -", false),
    (b"do m1 1 get 65536 6b", false),
    (b"do m1 1 put 1 6b", false),
    (b"do m1 1 put 1 - 76", false),
    (b"do m1 1 del 1 6b0", false),
    (b"do m1 1 recover 0", false),
    (b"do m1 1 recover 4294967296", false),
    (b"do m1 1 begin now", false),
    (b"deliver 0", false),
    (b"deliver 4294967296", false),
    (b"deliver 09", false),
    (b"deliver +9", false),
    (b"lose 0", false),
    (b"lose 4294967296", false),
    (b"tick g1", false),
    (b"tick x1", false),
    (b"tick 1", false),
    (b"stop m1 3", false),
    (b"stop m1", false),
    (b"start all", false),
    (b"fail m1 1 0", false),
    (b"fail r1 1 0", false),
    (b"fail l1 0 0", false),
    (b"fail l1 1000001 0", false),
    (b"fail l1 1 3", false),
    (b"page p1 0 0", false),
    (b"page p1 4294967296 0", false),
    (b"page p1 1 9223372036854775808", false),
    (b"page m1 1 0", false),
    (b"version p0 1 0", false),
    (b"publish", false),
    (b"publish r1 2:1 1:1", false),
    (b"publish r1 1:1 1:2", false),
    (b"publish r1 1:0", false),
    (b"publish r1 0:1", false),
    (b"publish r1 1:", false),
    (b"publish r1 4294967296:1", false),
    (b"lag p1", false),
    (b"get r1 4294967296 1 6b", false),
    (b"scan r1 1 1 - 0", false),
    (b"scan r1 1 1 - 101", false),
    (b"drain 0", false),
    (b"drain 1000001", false),
    (b"try 0 m1 1 begin", false),
    (b"try 1001 m1 1 begin", false),
];

#[test]
fn lines_are_read(rt: HostRuntime) -> Result<(), Fail> {
    for (line, is_line) in LINES {
        assert_eq!(rt; read_line(rt.alloc(), line).is_ok(), is_line);
    }
    Ok(())
}

/// A line of 8,174 bytes, and an entry of one more writer in 12 bytes and the digits of its stamp.
fn long_line(alloc: Global, stamp: u64) -> Result<String, AllocError> {
    let mut line = format!(in alloc; "publish r1")?;
    for writer in 1_000_000_000..1_000_000_628u32 {
        line.push_str(format!(in alloc; " {writer}:1")?.as_str())?;
    }
    line.push_str(format!(in alloc; " 2000000000:{stamp}")?.as_str())?;
    Ok(line)
}

#[test]
fn a_line_has_8192_bytes_at_most(rt: HostRuntime) -> Result<(), Fail> {
    let longest = long_line(rt.alloc(), 100_000)?;
    assert_eq!(rt; longest.len(), 8192);
    assert!(rt; read_line(rt.alloc(), longest.as_bytes()).is_ok());
    let longer = long_line(rt.alloc(), 1_000_000)?;
    assert_eq!(rt; longer.len(), 8193);
    assert!(rt; read_line(rt.alloc(), longer.as_bytes()).is_err());
    Ok(())
}

const MASTER: Node = Node::Master { number: 1 };

const STORE: Node = Node::PageStore { number: 1 };

const REPLICA: Node = Node::Replica { number: 1 };

/// Commands at a node, and whether each is one there.
const COMMANDS: [(Node, &[u8], bool); 20] = [
    (MASTER, b"1 begin", true),
    (MASTER, b"4096 put 1 6b -", true),
    (MASTER, b"4097 begin", false),
    (MASTER, b"do m1 1 begin", false),
    (MASTER, b"lag", false),
    (MASTER, b"", false),
    (Node::Master { number: 0 }, b"1 begin", false),
    (STORE, b"page 1 0", true),
    (STORE, b"version 1 9223372036854775807", true),
    (STORE, b"page p1 1 0", false),
    (STORE, b"1 begin", false),
    (STORE, b"lag", false),
    (REPLICA, b"publish", true),
    (REPLICA, b"publish 1:1", true),
    (REPLICA, b"lag", true),
    (REPLICA, b"get 1 1 6b", true),
    (REPLICA, b"scan 1 1 - 100", true),
    (REPLICA, b"page 1 0", false),
    (Node::LogStore { number: 1 }, b"lag", false),
    (Node::LockManager, b"lag", false),
];

#[test]
fn commands_are_read(rt: HostRuntime) -> Result<(), Fail> {
    for (node, text, is_command) in COMMANDS {
        assert_eq!(rt; read_command(rt.alloc(), node, text).is_ok(), is_command);
    }
    Ok(())
}
