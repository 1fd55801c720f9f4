//! Writers, as those whose logs are closed.
ghost use Rattle.std.specs.Prelude.{◌≡◌, OnOk, OnErr};
ghost use Rattle.std.specs.FinSet as sets;

use std::alloc::Global;
use std::collections::BTreeSet;
use std::marker::Model;
use tm_data::{Mem, Writer};

/// A set of writers. Contracts see the finite set.
#[derive(Drop)]
pub struct WriterSet {
    writers: BTreeSet<Writer>,
}

impl Model for WriterSet {
    ghost use Rattle.std.specs.FinSet as sets;
    ghost use Rattle.tm_data.specs.Maps.{as_set};
    ghost use Rattle.tm_data.specs.Orders.{writer_cmp, coded_writer};

    ghost Value = { sets.FinSet writer_cmp };

    ghost coded = { sets.code coded_writer };

    ghost view = { λ s. as_set s.writers };
}

impl WriterSet {
    /// No writers.
    pub fn new(alloc: Global) -> WriterSet
        ensures { result ≡ sets.empty }
    {
        WriterSet {
            writers: BTreeSet::new(alloc),
        }
    }

    /// Whether the writer is one of these.
    pub fn contains(&self, writer: Writer) -> bool
        ensures { result ≡ sets.contains self.now writer }
    {
        self.writers.contains(&writer)
    }

    /// Adds a writer, unless it is one of these.
    pub fn insert(&mut self, writer: Writer) -> Mem<()>
        ensures ok { OnOk result (self.new ≡ sets.insert self.old writer) }
        ensures err { OnErr result (self.new ≡ self.old) }
    {
        self.writers.insert(writer)?;
        Ok(())
    }
}
