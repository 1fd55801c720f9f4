//! Steps of the plain machine, beside what a long run leaves.
use key_model::{EndList, Machine, MachineStep, PutKey, PutList};
use round_works::Failure;
use std::alloc::Global;
use tm_base::{ByteList, Command, Mem, Reply, Txn, Writer};

/// What stands beside the transactions whose steps are taken.
#[derive(Clone, Copy)]
pub enum Beside {
    /// Transactions that committed.
    Ended,
    /// Open transactions of other writers, each of which has read a key and written one.
    Open,
    /// The rows that such transactions have written, whose writers are closed.
    Locked,
}

/// A writer has at most so many transactions beside.
const OWN: u32 = 1_000;

/// The table of the keys that are put beside, and that of those in the rounds; keys of table 1 are read.
const OTHERS: u16 = 2;

const WRITTEN: u16 = 3;

// The transaction at this place of those beside.
fn placed(at: u32) -> Txn {
    Txn {
        writer: Writer((at / OWN).saturating_add(2)),
        number: (at % OWN).saturating_add(1),
    }
}

// A machine that takes the steps which it is given.
#[derive(Drop)]
struct Run {
    alloc: Global,
    machine: Machine,
}

impl Run {
    fn take(&mut self, step: &MachineStep) -> Result<(), Failure> {
        if !self.machine.step(step)? {
            return Err(Failure::Refused);
        }
        Ok(())
    }

    fn answered(&mut self, txn: Txn, command: Command, reply: Reply) -> Result<(), Failure> {
        self.take(&MachineStep::Answered {
            writer: Some(txn.writer),
            session: (txn.number % OWN) as u16,
            command,
            reply,
        })
    }

    fn key(&self, number: u32) -> Mem<ByteList> {
        ByteList::from_slice(self.alloc, number.to_be_bytes().as_slice())
    }

    // The transaction begins, reads one of a hundred keys that nobody has put, and puts a key.
    fn opens(&mut self, txn: Txn, table: u16, key: u32) -> Result<(), Failure> {
        self.answered(txn, Command::Begin, Reply::Begun { txn })?;
        let read = Command::Get {
            table: 1,
            key: self.key(key % 100)?,
        };
        self.answered(txn, read, Reply::Value { value: None })?;
        let put = Command::Put {
            table,
            key: self.key(key)?,
            value: ByteList::from_slice(self.alloc, b"value")?,
        };
        self.answered(txn, put, Reply::Done)
    }

    // The transaction is settled as committed, and its session is told.
    fn commits(&mut self, txn: Txn) -> Result<(), Failure> {
        let committed = true;
        self.take(&MachineStep::Settle { txn, committed })?;
        self.answered(txn, Command::Commit, Reply::Committed { txn })
    }

    // The writer is closed; each of its open transactions, so many from this place on, has put a key.
    fn closes(&mut self, writer: Writer, table: u16, first: u32, own: u32) -> Result<(), Failure> {
        let mut puts = PutList::new(self.alloc);
        for at in first..first.saturating_add(own) {
            puts.push(PutKey {
                txn: Txn {
                    writer,
                    number: (at % OWN).saturating_add(1),
                },
                table,
                key: self.key(at)?,
            })?;
        }
        let ends = EndList::new(self.alloc);
        self.take(&MachineStep::Close { writer, ends, puts })
    }

    // What stands beside, of so many transactions.
    fn stands(&mut self, kind: Beside, count: u32) -> Result<(), Failure> {
        for at in 0..count {
            let txn = placed(at);
            self.opens(txn, OTHERS, at)?;
            if matches!(kind, Beside::Ended) {
                self.commits(txn)?;
            }
        }
        if matches!(kind, Beside::Locked) {
            for at in 0..count / OWN {
                let first = at.saturating_mul(OWN);
                self.closes(placed(first).writer, OTHERS, first, OWN)?;
            }
        }
        Ok(())
    }
}

// A transaction begins, reads a key and puts one. Either it is settled as committed and its session is told, or its
// writer, which is a new one then, is closed and recovered.
fn turned(run: &mut Run, at: u32, closing: bool) -> Result<(), Failure> {
    if closing {
        let writer = Writer(at.saturating_add(1_000_000));
        run.opens(Txn { writer, number: 1 }, WRITTEN, 0)?;
        run.closes(writer, WRITTEN, 0, 1)?;
        return run.take(&MachineStep::Recover { writer });
    }
    let writer = Writer(1);
    let number = at.saturating_add(1);
    run.opens(Txn { writer, number }, WRITTEN, at % OWN)?;
    run.commits(Txn { writer, number })
}

/// Takes five steps of a transaction in each round, beside so many others. Gives the number of rounds.
pub fn turns(
    alloc: Global,
    kind: Beside,
    closing: bool,
    count: u32,
    rounds: u32,
) -> Result<u32, Failure> {
    let machine = Machine::new(alloc);
    let mut run = Run { alloc, machine };
    run.stands(kind, count)?;
    let mut sum: u32 = 0;
    for at in 0..rounds {
        turned(&mut run, at, closing)?;
        sum = sum.saturating_add(1);
    }
    Ok(sum)
}
