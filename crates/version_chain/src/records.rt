//! The records of all pages.
ghost use Rattle.std.specs.Prelude.{◌≡◌, ◌<◌, IsSome, is_some, not, reverse};
ghost use Rattle.std.specs.FinMap.{empty};
ghost use Rattle.page_model.specs.Effects.{page_of, prev_of};
ghost use Rattle.page_model.specs.Versions.{links_of, link_of, same_link, taken};
ghost use Rattle.version_chain.specs.Answers.{Adds};
ghost use Rattle.version_chain.specs.Order.{IsChain, IsHeld};

use crate::AddError;
use crate::chain_map::ChainMap;
use crate::chains::changed_page;
use crate::spot::{Spot, place_of};
use page_model::Link;
use std::alloc::Global;
use std::marker::Model;
use tm_base::{Page, Record, Stamp, TryCopy, Writer};

/// The records that are held of all pages. Contracts see for each page its links: the records with the
/// writers and the stamps of their groups, the newest first.
#[derive(Drop)]
pub(crate) struct Records {
    pages: ChainMap,
}

impl Model for Records {
    ghost use Rattle.page_model.specs.Versions.{Held, coded_held};
    ghost use Rattle.version_chain.specs.Order.{IsHeld};

    ghost Value = { Held };

    ghost coded = { coded_held };

    ghost view = { λ r. r.pages };

    ghost invariant = { λ r. IsHeld r.pages };
}

impl Records {
    /// No records.
    pub(crate) fn new(alloc: Global) -> Records
        ensures { result ≡ empty }
    {
        Records {
            pages: ChainMap::new(alloc),
        }
    }

    /// The links of a page, ascending by stamp.
    pub(crate) fn links(&self, page: Page) -> &[Link]
        ensures links { reverse result.now ≡ links_of self.now page.0 }
        ensures chain { IsChain page.0 (reverse result.now) }
        ensures order { IsHeld self.now }
    {
        self.pages.links(page.0)
    }

    /// Whether another record than this one is held of its page and stamp.
    pub(crate) fn differs(&self, writer: Writer, stamp: Stamp, change: &Record) -> bool
        ensures { result ≡ not (is_some (taken self.now (link_of writer.0 stamp.0 change.now))) }
    {
        let links = self.pages.links(changed_page(change));
        match place_of(links, stamp) {
            Spot::At(at) => !is_same(&links[at], writer, change),
            Spot::Before(_) => false,
        }
    }

    /// Holds a record of this writer's group of this stamp. The same record of the same writer may come
    /// again, which changes nothing. Refuses `Differs` exactly where another one of that stamp is held of
    /// the page.
    pub(crate) fn add(
        &mut self,
        writer: Writer,
        stamp: Stamp,
        change: &Record,
    ) -> Result<(), AddError>
        requires names { IsSome (page_of change.now) }
        requires later { prev_of change.now < stamp.0 }
        ensures { Adds result self.old self.new (link_of writer.0 stamp.0 change.now) }
    {
        let page = changed_page(change);
        let links = self.pages.links(page);
        match place_of(links, stamp) {
            Spot::At(at) => {
                if is_same(&links[at], writer, change) {
                    return Ok(());
                }
                Err(AddError::Differs { stamp })
            }
            Spot::Before(at) => {
                let change = change.copy()?;
                let link = Link {
                    stamp,
                    writer,
                    change,
                };
                self.pages.put(page, at, link)?;
                Ok(())
            }
        }
    }
}

/// Whether a link is this writer's and has this record.
fn is_same(link: &Link, writer: Writer, change: &Record) -> bool
    ensures { result ≡ same_link link.now (link_of writer.0 link.now.stamp.0 change.now) }
{
    link.writer == writer && link.change == *change
}
