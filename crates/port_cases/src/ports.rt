//! What no clause says: the texts, and each call once where all goes well.
use std::alloc::Global;
use std::io::Read;
use std::test::Fail;
use tm_base::ByteList;
use tm_ports::{
    FailList, Failed, Found, LineError, LineReader, MemorySink, MemorySource, Sink, SinkError,
    Source, Status, StdSink, StdSource, SureSink, SureSource, write_all,
};

#[test]
fn statuses_have_their_numbers_and_texts(rt: HostRuntime) -> Result<(), Fail> {
    let table = [
        (Status::Done, 0, ""),
        (Status::Words, 2, "taurus: words"),
        (
            Status::BadSchedule { line: 7 },
            3,
            "taurus: bad schedule at line 7",
        ),
        (Status::ReadFault, 4, "taurus: read fault"),
        (Status::WriteFault, 5, "taurus: write fault"),
        (Status::NoMemory, 6, "taurus: no memory"),
        (Status::LinkFault, 7, "taurus: link fault"),
        (Status::DiskFault, 8, "taurus: disk fault"),
        (
            Status::BadFrame { at: 8192 },
            9,
            "taurus: bad frame at 8192",
        ),
        (Status::Budget, 10, "taurus: budget"),
        (Status::Damaged { at: 0 }, 11, "taurus: damaged at 0"),
        (Status::Full, 12, "taurus: full"),
    ];
    for (status, code, text) in table {
        assert_eq!(rt; status.code(), code);
        assert_eq!(rt; status.to_string(rt.alloc())?.as_str(), text);
    }
    Ok(())
}

#[test]
fn named_calls_fail(rt: HostRuntime) -> Result<(), Fail> {
    let alloc = rt.alloc();
    let bytes = ByteList::from_slice(alloc, b"ab")?;
    let mut source = MemorySource::new(bytes, FailList::from_vec(vec![in alloc; 3, 1]?));
    let mut sink = MemorySink::new(alloc, FailList::from_vec(vec![in alloc; 3, 1]?));
    let mut sure = SureSink::new(alloc);
    let mut piece = [0; 1];
    for fails in [true, false, true, false] {
        assert_eq!(rt;
            source.read(&mut piece),
            if fails { Err(Failed) } else { Ok(1) }
        );
        assert_eq!(rt;
            sink.write(&piece),
            if fails { Err(SinkError::Failed) } else { Ok(1) }
        );
        assert_eq!(rt; sure.write(&piece), Ok(1));
    }
    assert_eq!(rt; source.read(&mut piece), Ok(0));
    assert_eq!(rt; (source.faults(), sink.faults(), sure.faults()), (2, 2, 0));
    assert_eq!(rt; sink.bytes(), b"ab".as_slice());
    assert_eq!(rt; sure.bytes(), b"\0aab".as_slice());
    Ok(())
}

#[test]
fn streams_of_the_library_are_sources_and_sinks(rt: HostRuntime) -> Result<(), Fail> {
    let alloc = rt.alloc();
    let mut source = StdSource::new(b"ab".as_slice());
    let mut sink = StdSink::new(Vec::new(alloc));
    let mut piece = [0; 2];
    assert_eq!(rt; source.read(&mut piece), Ok(2));
    assert_eq!(rt; sink.write(&piece), Ok(2));
    assert_eq!(rt; source.read(&mut piece), Ok(0));
    assert_eq!(rt; (source.faults(), sink.faults()), (0, 0));

    let mut room = [0; 2];
    let mut full = StdSink::new(room.as_mut_slice());
    assert_eq!(rt; write_all(&mut full, b"abc"), Err(SinkError::Failed));
    assert_eq!(rt; full.faults(), 1);
    Ok(())
}

#[test]
fn lines_come_whole_from_any_pieces(rt: HostRuntime) -> Result<(), Fail> {
    let alloc = rt.alloc();
    let pieces = b"on"
        .chain(b"e\n\ntw".as_slice())
        .chain(b"o\nthr".as_slice())
        .chain(b"ee".as_slice());
    let mut source = StdSource::new(pieces);
    let mut reader = LineReader::new(alloc)?;
    for line in ["one", "", "two"] {
        let Ok(Found::Line(found)) = reader.next_line(&mut source) else {
            return Err(Fail::from("no line"));
        };
        assert_eq!(rt; found.as_slice(), line.as_bytes());
    }
    let Ok(Found::Last(last)) = reader.next_line(&mut source) else {
        return Err(Fail::from("no last line"));
    };
    assert_eq!(rt; last.as_slice(), b"three".as_slice());
    assert!(rt; matches!(reader.next_line(&mut source), Ok(Found::End)));
    Ok(())
}

// The length of the first line, where it isn't too long.
fn first_length<R: Source>(alloc: Global, source: &mut R) -> Result<Option<usize>, Fail> {
    let mut reader = LineReader::new(alloc)?;
    match reader.next_line(source) {
        Ok(Found::Line(line)) => Ok(Some(line.len())),
        Ok(Found::Last(line)) => Ok(Some(line.len())),
        Err(LineError::TooLong) => Ok(None),
        _ => Err(Fail::from("neither a line nor too long")),
    }
}

#[test]
fn a_line_has_at_most_8192_bytes(rt: HostRuntime) -> Result<(), Fail> {
    let alloc = rt.alloc();
    let table = [
        (8192, "\n", Some(8192)),
        (8193, "\n", None),
        (8192, "", Some(8192)),
        (8193, "", None),
    ];
    for (count, end, length) in table {
        let mut bytes = ByteList::new(alloc);
        for _ in 0..count {
            bytes.push(b'a')?;
        }
        bytes.extend(end.as_bytes())?;
        let mut source = SureSource::new(bytes);
        assert_eq!(rt; first_length(alloc, &mut source)?, length);
    }
    Ok(())
}

#[test]
fn a_fault_in_a_line_loses_nothing(rt: HostRuntime) -> Result<(), Fail> {
    let alloc = rt.alloc();
    let bytes = ByteList::from_slice(alloc, b"one\ntwo")?;
    let mut source = MemorySource::new(bytes, FailList::from_vec(vec![in alloc; 1, 3]?));
    let mut reader = LineReader::new(alloc)?;
    assert!(rt; matches!(reader.next_line(&mut source), Err(LineError::Failed)));
    let Ok(Found::Line(first)) = reader.next_line(&mut source) else {
        return Err(Fail::from("no line"));
    };
    assert_eq!(rt; first.as_slice(), b"one".as_slice());
    assert!(rt; matches!(reader.next_line(&mut source), Err(LineError::Failed)));
    assert_eq!(rt; source.faults(), 2);
    let Ok(Found::Last(last)) = reader.next_line(&mut source) else {
        return Err(Fail::from("no last line"));
    };
    assert_eq!(rt; last.as_slice(), b"two".as_slice());
    Ok(())
}
