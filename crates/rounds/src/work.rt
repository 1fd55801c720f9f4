//! The table of works.
use crate::desk::{seek, turn};
use crate::history::{maps, rows};
use crate::locks::{ask, release, request};
use crate::log::{acknowledge, append, fetch};
use crate::machine::{Beside, turns};
use crate::tags;
use round_works::tree::{Order, look, put};
use round_works::{Failure, Sample, codec, pages, replica};
use std::alloc::Global;

/// What is done in each round.
#[derive(Clone, Copy)]
pub enum Work {
    /// The bytes of a value are made.
    Encode(Sample),
    /// The value of bytes is made.
    Decode(Sample),
    /// The next group is appended at a log store, behind so many.
    Append(u32),
    /// The last group of so many is fetched from a log store.
    Fetch(u32),
    /// A store's acknowledgement of a group is noted, behind so many.
    Acknowledge(u32),
    /// A leased page is requested, of so many.
    Request(u32),
    /// A page is released and leased again, of so many.
    Release(u32),
    /// A transaction's fate is asked for, where so many pages are leased.
    Ask(u32),
    /// The one recalled page is found, of so many that are leased.
    Seek(u32),
    /// A page of so many that are leased is recalled, given back and granted again.
    Turn(u32),
    /// A transaction with ten tags ends, of so many tags, and its tags are added again.
    EndOf(u32),
    /// A key of a page with so many tags is asked for a conflict.
    Conflict(u32),
    /// A tag is added to a page that has so many with it, and taken out.
    AddTag(u32),
    /// The one tag of another writer is found on a page with so many.
    Foreign(u32),
    /// A record of a page is added, after so many.
    AddRecord(u32),
    /// The newest version of a page is read, which so many records make.
    ReadPage(u32),
    /// The next row of an order is put into a table, after so many.
    Put(Order, u32),
    /// A row of a table with so many is looked for.
    Look(Order, u32),
    /// The map at the cut of all of so many events is made.
    MapAt(u32),
    /// The rows at that cut are made.
    RowsAt(u32),
    /// A transaction of the plain machine begins, reads, puts and commits, beside so many.
    Steps(Beside, u32),
    /// A writer of the plain machine is closed and recovered, beside so many transactions.
    Close(Beside, u32),
    /// A replica's order receives a group and applies it, after so many.
    ApplyGroup(u32),
    /// A replica reads a row at a point from a page that so many records make.
    GetAt(u32),
}

fn number(word: &str) -> Option<u32> {
    match word.parse::<u32>() {
        Ok(number) => Some(number),
        Err(_) => None,
    }
}

impl Work {
    // The work that two words name.
    fn named(verb: &str, what: &str) -> Option<Work> {
        match verb {
            "encode" => Some(Work::Encode(Sample::named(what)?)),
            "decode" => Some(Work::Decode(Sample::named(what)?)),
            "append" => Some(Work::Append(number(what)?)),
            "fetch" => Some(Work::Fetch(number(what)?)),
            "acknowledge" => Some(Work::Acknowledge(number(what)?)),
            "request" => Some(Work::Request(number(what)?)),
            "release" => Some(Work::Release(number(what)?)),
            "ask" => Some(Work::Ask(number(what)?)),
            "seek" => Some(Work::Seek(number(what)?)),
            "turn" => Some(Work::Turn(number(what)?)),
            "end-of" => Some(Work::EndOf(number(what)?)),
            "conflict" => Some(Work::Conflict(number(what)?)),
            "add-tag" => Some(Work::AddTag(number(what)?)),
            "foreign" => Some(Work::Foreign(number(what)?)),
            "add-record" => Some(Work::AddRecord(number(what)?)),
            "read-page" => Some(Work::ReadPage(number(what)?)),
            "put-rising" => Some(Work::Put(Order::Rising, number(what)?)),
            "put-random" => Some(Work::Put(Order::Random, number(what)?)),
            "find-rising" => Some(Work::Look(Order::Rising, number(what)?)),
            "find-random" => Some(Work::Look(Order::Random, number(what)?)),
            "map-at" => Some(Work::MapAt(number(what)?)),
            "rows-at" => Some(Work::RowsAt(number(what)?)),
            "steps-ended" => Some(Work::Steps(Beside::Ended, number(what)?)),
            "steps-open" => Some(Work::Steps(Beside::Open, number(what)?)),
            "steps-locked" => Some(Work::Steps(Beside::Locked, number(what)?)),
            "close-open" => Some(Work::Close(Beside::Open, number(what)?)),
            "close-locked" => Some(Work::Close(Beside::Locked, number(what)?)),
            "apply-group" => Some(Work::ApplyGroup(number(what)?)),
            "get-at" => Some(Work::GetAt(number(what)?)),
            _ => None,
        }
    }

    /// The work and the number of rounds that the words of a command line name.
    pub fn read(words: &[String]) -> Option<(Work, u32)> {
        if words.len() != 3 {
            return None;
        }
        let work = Work::named(words[0].as_str(), words[1].as_str())?;
        Some((work, number(words[2].as_str())?))
    }
}

/// Does the work so many times. Gives the checksum.
pub fn done(alloc: Global, work: Work, rounds: u32) -> Result<u64, Failure> {
    match work {
        Work::Encode(sample) => codec::write(alloc, sample, rounds),
        Work::Decode(sample) => codec::read(alloc, sample, rounds),
        Work::Append(groups) => Ok(append(alloc, groups, rounds)? as u64),
        Work::Fetch(groups) => Ok(fetch(alloc, groups, rounds)? as u64),
        Work::Acknowledge(groups) => Ok(acknowledge(alloc, groups, rounds)? as u64),
        Work::Request(pages) => Ok(request(alloc, pages, rounds)? as u64),
        Work::Release(pages) => Ok(release(alloc, pages, rounds)? as u64),
        Work::Ask(pages) => Ok(ask(alloc, pages, rounds)? as u64),
        Work::Seek(leases) => Ok(seek(alloc, leases, rounds)? as u64),
        Work::Turn(leases) => Ok(turn(alloc, leases, rounds)? as u64),
        Work::EndOf(count) => Ok(tags::end(alloc, count, rounds)? as u64),
        Work::Conflict(count) => Ok(tags::ask(alloc, count, rounds)? as u64),
        Work::AddTag(count) => Ok(tags::add(alloc, count, rounds)? as u64),
        Work::Foreign(count) => Ok(tags::seek_foreign(alloc, count, rounds)? as u64),
        Work::AddRecord(length) => pages::add(alloc, length, rounds),
        Work::ReadPage(length) => pages::read(alloc, length, rounds),
        Work::Put(order, rows) => Ok(put(alloc, order, rows, rounds)? as u64),
        Work::Look(order, rows) => Ok(look(alloc, order, rows, rounds)? as u64),
        Work::MapAt(events) => maps(alloc, events, rounds),
        Work::RowsAt(events) => rows(alloc, events, rounds),
        Work::Steps(kind, count) => Ok(turns(alloc, kind, false, count, rounds)? as u64),
        Work::Close(kind, count) => Ok(turns(alloc, kind, true, count, rounds)? as u64),
        Work::ApplyGroup(groups) => Ok(replica::apply(alloc, groups, rounds)? as u64),
        Work::GetAt(records) => Ok(replica::read(alloc, records, rounds)? as u64),
    }
}
