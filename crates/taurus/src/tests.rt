//! Faults of the source and the sink at the n-th call, which no file of the system gives: each leaves a front of the
//! transcript. Transcripts, statuses and refused lines are tried on the built program, by the scripts in `tools`.
use crate::run::run;
use std::alloc::Global;
use std::test::Fail;
use tm_base::ByteList;
use tm_ports::{FailList, MemorySink, MemorySource, Status, Word};

// The status of a run over these bytes with these words, and what the sink took. The read and the
// write of the numbers given fail, counted from 1; none has number 0.
fn outcome(
    alloc: Global,
    words: &[Word],
    schedule: &[u8],
    read: u64,
    write: u64,
) -> Result<(Status, ByteList), Fail> {
    let Ok(bytes) = ByteList::from_slice(alloc, schedule) else {
        return Err(Fail::from("no memory"));
    };
    let mut source = MemorySource::new(bytes, FailList::from_vec(vec![in alloc; read]?));
    let mut sink = MemorySink::new(alloc, FailList::from_vec(vec![in alloc; write]?));
    let status = run(alloc, words, &mut source, &mut sink);
    let Ok(taken) = ByteList::from_slice(alloc, sink.bytes()) else {
        return Err(Fail::from("no memory"));
    };
    Ok((status, taken))
}

fn replay_words(alloc: Global) -> Result<Vec<Word>, Fail> {
    let Ok(word) = ByteList::from_slice(alloc, b"replay") else {
        return Err(Fail::from("no memory"));
    };
    Ok(vec![in alloc; word]?)
}

#[test]
fn faults_leave_a_front_of_the_transcript(rt: HostRuntime) -> Result<(), Fail> {
    let alloc = rt.alloc();
    let words = replay_words(alloc)?;
    let schedule = b"plain\ndo m1 1 begin\ndo m1 1 put 1 6b 76\ndo m1 1 commit\n";
    let texts: [&[u8]; 4] = [
        b"ok\n",
        b"m1 1 Begun 1.1\n",
        b"m1 1 Done\n#1 m1>l1 Append 1 row 1 6b 76 1.1\n",
        b"m1 1 Again store 1 2\n#2 m1>l1 Append 2 end 1.1\n",
    ];
    let mut front = Vec::new(alloc);
    for (number, text) in texts.iter().enumerate() {
        let (status, taken) = outcome(alloc, &words, schedule, 0, number as u64 + 1)?;
        assert_eq!(rt; status, Status::WriteFault);
        assert_eq!(rt; taken.as_slice(), front.as_slice());
        front.extend_from_slice(text)?;
    }
    let reads: [(u64, Status, &[u8]); 3] = [
        (1, Status::ReadFault, b""),
        (2, Status::ReadFault, &front),
        (3, Status::Done, &front),
    ];
    for (read, status, transcript) in reads.iter() {
        let (got, taken) = outcome(alloc, &words, schedule, *read, 0)?;
        assert_eq!(rt; got, *status);
        assert_eq!(rt; taken.as_slice(), *transcript);
    }
    Ok(())
}
