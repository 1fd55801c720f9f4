//! The open transactions: what each has read and written.
ghost use Rattle.std.specs.Prelude.{◌≡◌, ◌&&◌, not, is_none, is_some, true, OnOk, OnErr, IfSome, IfNone};
ghost use Rattle.std.specs.FinMap as fin;
ghost use Rattle.std.specs.Option.{option_copied};
ghost use Rattle.key_index.specs.Touched.{untouched, same_writer, wrote_by_other, read_by_other, reads_in, writes_in, wrote, read, has_at, StillAmong, HasNoneOf};

use crate::KeyIndex;
use std::alloc::Global;
use std::collections::BTreeMap;
use std::marker::Model;
use std::ops::Bound;
use tm_base::{ByteList, Mem, RowKey, RowMap, RowSet, TryCopy, Txn, TxnMap, Writer};

/// What an open transaction has read, and what it has written: none where it has deleted.
#[derive(Drop)]
pub struct Open {
    pub reads: RowSet,
    pub writes: RowMap<Option<ByteList>>,
}

impl Open {
    /// Nothing is read or written.
    fn new(alloc: Global) -> Open
        ensures { result ≡ untouched }
    {
        Open {
            reads: RowSet::new(alloc),
            writes: RowMap::new(alloc),
        }
    }
}

/// What each open transaction has read and written. Contracts see the finite map.
#[derive(Drop)]
pub struct OpenMap {
    alloc: Global,
    opened: BTreeMap<Txn, Open>,
    // For each row, the transactions that may have written it: at least those that have.
    written: KeyIndex,
    // The same of reading.
    readers: KeyIndex,
}

impl Model for OpenMap {
    ghost use Rattle.std.specs.FinMap as fin;
    ghost use Rattle.tm_data.specs.Maps.{as_map};
    ghost use Rattle.tm_data.specs.Orders.{txn_cmp, coded_txn};
    ghost use Rattle.key_index.specs.Touched.{coded_open, wrote, read, Covers};
    ghost use Rattle.key_index.specs.declared.opened.Open.{Open};

    ghost Value = { fin.FinMap txn_cmp Open };

    ghost coded = { fin.code coded_txn coded_open };

    ghost view = { λ m. as_map m.opened };

    ghost invariant = { λ m. Covers wrote (as_map m.opened) m.written × Covers read (as_map m.opened) m.readers };
}

// Takes the transaction from those that may have written these keys.
fn strike(index: &mut KeyIndex, writes: &RowMap<Option<ByteList>>, txn: &Txn)
    ensures { StillAmong index.old index.new txn.now }
{
    for (key, _) in writes.iter() {
        index.remove(key, txn);
    }
}

// Takes the transaction from those that may have read these keys.
fn strike_reads(index: &mut KeyIndex, reads: &RowSet, txn: &Txn)
    ensures { StillAmong index.old index.new txn.now }
{
    for key in reads.iter() {
        index.remove(key, txn);
    }
}

impl OpenMap {
    /// No transaction is open.
    pub fn new(alloc: Global) -> OpenMap
        ensures { result ≡ fin.empty }
    {
        OpenMap {
            alloc,
            opened: BTreeMap::new(alloc),
            written: KeyIndex::new(alloc),
            readers: KeyIndex::new(alloc),
        }
    }

    /// What a transaction has read and written, if it is open.
    pub fn get(&self, txn: &Txn) -> Option<&Open>
        ensures { option_copied result ≡ fin.get self.now txn.now }
    {
        self.opened.get(txn)
    }

    /// Opens a transaction, with nothing read or written.
    pub fn begin(&mut self, txn: Txn) -> Mem<()>
        ensures ok { OnOk result (self.new ≡ fin.insert self.old txn untouched) }
        ensures err { OnErr result (self.new ≡ self.old) }
    {
        self.opened.insert(txn, Open::new(self.alloc))?;
        Ok(())
    }

    /// Adds a key to what an open transaction has read.
    pub fn read(&mut self, txn: &Txn, key: RowKey) -> Mem<()>
        ensures ok { OnOk result (self.new ≡ reads_in self.old txn.now key (fin.get self.old txn.now)) }
        ensures err { OnErr result (self.new ≡ self.old) }
    {
        self.readers.add(key.copy()?, *txn)?;
        let Some(touched) = self.opened.get_mut(txn) else {
            return Ok(());
        };
        touched.reads.insert(key)
    }

    /// Sets what an open transaction has written at a key.
    pub fn write(&mut self, txn: &Txn, key: RowKey, value: Option<ByteList>) -> Mem<()>
        ensures ok { OnOk result (self.new ≡ writes_in self.old txn.now key value (fin.get self.old txn.now)) }
        ensures err { OnErr result (self.new ≡ self.old) }
    {
        self.written.add(key.copy()?, *txn)?;
        let Some(touched) = self.opened.get_mut(txn) else {
            return Ok(());
        };
        touched.writes.insert(key, value)
    }

    /// Takes a transaction out, with what it has read and written.
    pub fn end(&mut self, txn: &Txn) -> Option<Open>
        ensures value { result ≡ fin.get self.old txn.now }
        ensures removed { self.new ≡ fin.remove self.old txn.now }
    {
        let Some(touched) = self.opened.remove(txn) else {
            return None;
        };
        strike(&mut self.written, &touched.writes, txn);
        strike_reads(&mut self.readers, &touched.reads, txn);
        Some(touched)
    }

    /// Takes out the transactions that end, and all of the writer.
    pub fn leave(&mut self, writer: Writer, ends: &TxnMap<bool>)
        ensures { self.new ≡ fin.retain_keys self.old (λ t. not (same_writer t.writer writer) && is_none (fin.get ends.now t)) }
    {
        while let Some(txn) = self.first_of(writer) {
            self.take_out(&txn);
        }
        for (ended, _) in ends.iter() {
            self.take_out(ended);
        }
    }

    fn take_out(&mut self, txn: &Txn)
        ensures { self.new ≡ fin.remove self.old txn.now }
    {
        let _ = self.end(txn);
    }

    // An open transaction of the writer.
    fn first_of(&self, writer: Writer) -> Option<Txn>
        ensures there { IfSome result (λ t. (same_writer t.writer writer ≡ true) × (is_some (fin.get self.now t) ≡ true)) }
        ensures none { IfNone result (HasNoneOf self.now writer) }
    {
        let first = Txn { writer, number: 0 };
        let onwards = (Bound::Included(first), Bound::Unbounded);
        match self.opened.range(onwards).next() {
            Some((txn, _)) if txn.writer == writer => Some(*txn),
            _ => None,
        }
    }

    /// Whether an open transaction other than this one has written the key.
    pub fn other_wrote(&self, txn: &Txn, key: &RowKey) -> bool
        ensures { result ≡ wrote_by_other (fin.entries self.now) txn.now key.now }
    {
        let Some(holders) = self.written.holders(key) else {
            return false;
        };
        for other in holders.iter() {
            if *other != *txn && self.has_written(other, key) {
                return true;
            }
        }
        false
    }

    // Whether the transaction is open and has written the key.
    fn has_written(&self, txn: &Txn, key: &RowKey) -> bool
        ensures { result ≡ has_at wrote (fin.get self.now txn.now) key.now }
    {
        match self.opened.get(txn) {
            Some(touched) => touched.writes.get(key).is_some(),
            None => false,
        }
    }

    /// Whether an open transaction other than this one has read the key.
    pub fn other_read(&self, txn: &Txn, key: &RowKey) -> bool
        ensures { result ≡ read_by_other (fin.entries self.now) txn.now key.now }
    {
        let Some(holders) = self.readers.holders(key) else {
            return false;
        };
        for other in holders.iter() {
            if *other != *txn && self.has_read(other, key) {
                return true;
            }
        }
        false
    }

    // Whether the transaction is open and has read the key.
    fn has_read(&self, txn: &Txn, key: &RowKey) -> bool
        ensures { result ≡ has_at read (fin.get self.now txn.now) key.now }
    {
        match self.opened.get(txn) {
            Some(touched) => touched.reads.contains(key),
            None => false,
        }
    }
}
