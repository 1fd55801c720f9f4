//! Does one piece of work so many times and prints a checksum, for the scripts in `bench/`, which time it.
//!
//! The words are the work, what it is done on, and the number of rounds, as `encode full-leaf 1000` or
//! `append 100000 1000`, where 100,000 groups are there before. What is needed for the work is made first;
//! with 0 rounds that is all that is done. The exit number is 0, 2
//! for other words, 1 where what was made can't be worked on, and 6 for want of memory.
#![tactic(auto)]

mod desk;
mod history;
mod locks;
mod log;
mod machine;
mod tags;
mod work;

use round_works::Failure;
use std::alloc::Global;
use std::env::{self, Env};
use std::io;
use std::process::ExitCode;
use work::{Work, done};

// The words of the command line behind the program's name.
fn words<R: Env + Alloc<A = Global>>(rt: &R) -> io::Result<Vec<String>> {
    let mut words = Vec::new(rt.alloc());
    for word in env::args(rt)?.skip(1) {
        words.push(word)?;
    }
    Ok(words)
}

fn main(rt: HostRuntime) -> io::Result<ExitCode> {
    let words = words(&rt)?;
    let Some((work, rounds)) = Work::read(&words) else {
        eprintln!(rt; "rounds: words")?;
        return Ok(ExitCode::from(2));
    };
    match done(rt.alloc(), work, rounds) {
        Ok(sum) => {
            println!(rt; "{sum}")?;
            Ok(ExitCode::from(0))
        }
        Err(Failure::NoMemory) => {
            eprintln!(rt; "rounds: no memory")?;
            Ok(ExitCode::from(6))
        }
        Err(Failure::Refused) => {
            eprintln!(rt; "rounds: refused")?;
            Ok(ExitCode::from(1))
        }
    }
}
