//! The program: with the one word `replay` it reads a schedule from standard input and writes the
//! transcript of its run to standard output. The status is its exit number, and prints its line on
//! standard error.
#![tactic(auto)]

mod execute;
mod line;
mod replay;
mod run;
mod stop;
mod text;

use run::run;
use std::alloc::Global;
use std::env::{self, Env};
use std::io::{self, ErrorKind};
use std::process::ExitCode;
use tm_base::ByteList;
use tm_ports::{Status, StdSink, StdSource, Word};

// The words of the command line behind the program's name, or the status where they can't be had: one that
// isn't UTF-8 is a wrong word.
fn words<R: Env + Alloc<A = Global>>(rt: &R) -> Result<Vec<Word>, Status> {
    let given = match env::args(rt) {
        Ok(given) => given,
        Err(error) => return Err(status_of(error.kind())),
    };
    let mut words = Vec::new(rt.alloc());
    for word in given.skip(1) {
        if words.push(ByteList::from_vec(word.into_bytes())).is_err() {
            return Err(Status::NoMemory);
        }
    }
    Ok(words)
}

fn status_of(error: ErrorKind) -> Status {
    match error {
        ErrorKind::OutOfMemory => Status::NoMemory,
        _ => Status::Words,
    }
}

fn main(rt: HostRuntime) -> ExitCode {
    let status = match words(&rt) {
        Ok(words) => {
            let mut source = StdSource::new(rt.reader());
            let mut sink = StdSink::new(io::writer(&rt));
            run(rt.alloc(), &words, &mut source, &mut sink)
        }
        Err(status) => status,
    };
    if status != Status::Done {
        // Where the line can't be written, the number still tells.
        let _ = eprintln!(rt; "{status}");
    }
    ExitCode::from(status.code())
}

#[cfg(test)]
mod tests;
