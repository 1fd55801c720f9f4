//! Where each writer has records.
ghost use Rattle.std.specs.Prelude.{◌≡◌, ◌&&◌, nat_le, OnOk, OnErr, IfOk};
ghost use Rattle.std.specs.BTreeSet.{IsOrdered};
ghost use Rattle.std.specs.FinMap as fin;
ghost use Rattle.version_chain.specs.declared.places.Place.{Place};
ghost use Rattle.version_chain.specs.Content.{Ascend, is_in};
ghost use Rattle.version_chain.specs.Inside.{places_from};
ghost use Rattle.version_chain.specs.Places.{place_at, written_at, written_cmp};

use crate::places::{Place, PlaceList, Written};
use std::alloc::Global;
use std::collections::BTreeSet;
use std::marker::Model;
use std::ops::Bound;
use tm_base::{Mem, Page, Stamp, Writer};

/// The places of records with their writers, ascending by writer, stamp and page. Contracts see the finite map from
/// each of them to nothing, whose keys are listed in their order.
#[derive(Drop)]
pub(crate) struct WrittenSet {
    alloc: Global,
    written: BTreeSet<Written>,
}

impl Model for WrittenSet {
    ghost use Rattle.tm_data.specs.Maps.{as_keys};
    ghost use Rattle.version_chain.specs.Inside.{Writings, coded_writings};

    ghost Value = { Writings };

    ghost coded = { coded_writings };

    ghost view = { λ s. as_keys s.written };
}

impl WrittenSet {
    /// None.
    pub(crate) fn new(alloc: Global) -> WrittenSet
        ensures { result ≡ fin.empty }
    {
        WrittenSet {
            alloc,
            written: BTreeSet::new(alloc),
        }
    }

    /// Whether it is one of these.
    pub(crate) fn contains(&self, written: &Written) -> bool
        ensures { result ≡ fin.contains_key self.now written.now }
    {
        self.written.contains(written)
    }

    /// Adds one, unless it is there.
    pub(crate) fn insert(&mut self, written: Written) -> Mem<()>
        ensures ok { OnOk result (self.new ≡ fin.insert self.old written tt) }
        ensures err { OnErr result (self.new ≡ self.old) }
    {
        self.written.insert(written)?;
        Ok(())
    }

    /// Takes one out, if it is there. It takes no memory.
    pub(crate) fn remove(&mut self, written: &Written)
        ensures { self.new ≡ fin.remove self.old written.now }
    {
        self.written.remove(written);
    }

    /// A writer's places from a stamp on, ascending.
    pub(crate) fn places(&self, writer: Writer, from: Stamp) -> Mem<PlaceList>
        ensures ascend { IfOk result Ascend }
        ensures each { IfOk result (λ places. (p : Place) → is_in p places ≡ (fin.contains_key self.now (written_at writer.0 p) && nat_le from.0 p.stamp.0)) }
    {
        let places = places_from(self.alloc, &self.written, writer, from)?;
        Ok(places)
    }
}

/// The places of a writer from a stamp on. It looks at these alone.
#[tactic(auto, using(crate::proofs::WrittenLemmas::walk_stops, crate::proofs::WrittenLemmas::walk_goes, crate::proofs::WrittenLemmas::walk_done))]
fn places_from(
    alloc: Global,
    written: &BTreeSet<Written>,
    writer: Writer,
    from: Stamp,
) -> Mem<PlaceList>
    ensures places { IfOk result (λ places. places ≡ places_from written.now.keys writer.0 from.0) }
    ensures ordered { IsOrdered written_cmp written.now }
{
    let mut places = PlaceList::new(alloc);
    let first = first_of(writer, from);
    for it in written.range((Bound::Included(first), Bound::Unbounded)) {
        if it.writer != writer {
            return Ok(places);
        }
        places.push(it.at)?;
    }
    Ok(places)
}

/// The first place that a record of the writer may have from a stamp on.
fn first_of(writer: Writer, from: Stamp) -> Written
    ensures { result ≡ written_at writer.0 (place_at 0 from.0) }
{
    Written {
        writer,
        at: Place {
            stamp: from,
            page: Page(0),
        },
    }
}
