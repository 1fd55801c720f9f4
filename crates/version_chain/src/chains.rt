//! The chains of all pages.
ghost use Rattle.std.specs.Prelude.{◌≡◌, ◌<◌, IfOk, IfSome, IsSome};
ghost use Rattle.std.specs.Option.{option_copied};
ghost use Rattle.page_model.specs.Effects.{page_of, prev_of};
ghost use Rattle.page_model.specs.Versions.{changed_page, links_of, link_of, version, version_upto, version_at_cut};
ghost use Rattle.version_chain.specs.Answers.{Tells, Adds, Keeps};
ghost use Rattle.version_chain.specs.Content.{no_content, image_at, same_image, IsKept, AreOfWriter};
ghost use Rattle.version_chain.specs.Order.{IsHeld};

use crate::images::ImageMap;
use crate::places::Written;
use crate::records::Records;
use crate::spot::{last_covered, last_upto};
use crate::version::version_of;
use crate::written::WrittenSet;
use crate::{AddError, KeepError, Place, PlaceList, VersionError};
use std::alloc::Global;
use std::marker::Model;
use tm_base::{Image, Mem, Page, Record, Stamp, Vector, Writer};

/// The records that are held of all pages, and the images of pages that are kept. Contracts see for each page its
/// links: the records with the writers and the stamps of their groups, the newest first; and the kept images by page
/// and stamp.
#[derive(Drop)]
pub struct Chains {
    alloc: Global,
    records: Records,
    images: ImageMap,
    written: WrittenSet,
}

impl Model for Chains {
    ghost use Rattle.version_chain.specs.Content.{Content, coded_content};
    ghost use Rattle.version_chain.specs.Inside.{IsSound};

    ghost Value = { Content };

    ghost coded = { coded_content };

    ghost view = { λ c. record { records = c.records; kept = c.images } };

    ghost invariant = { λ c. IsSound c.records c.images c.written };
}

impl Chains {
    /// No records.
    pub fn new(alloc: Global) -> Chains
        ensures { result ≡ no_content }
    {
        Chains {
            alloc,
            records: Records::new(alloc),
            images: ImageMap::new(alloc),
            written: WrittenSet::new(alloc),
        }
    }

    /// Holds a record of this writer's group of this stamp. The same record of the same writer may come
    /// again, which changes nothing. Refuses `Differs` exactly where another one of that stamp is held of
    /// the page.
    pub fn add(&mut self, writer: Writer, stamp: Stamp, change: &Record) -> Result<(), AddError>
        requires names { IsSome (page_of change.now) }
        requires later { prev_of change.now < stamp.0 }
        ensures records { Adds result self.old.records self.new.records (link_of writer.0 stamp.0 change.now) }
        ensures kept { self.new.kept ≡ self.old.kept }
    {
        if self.records.differs(writer, stamp, change) {
            return Err(AddError::Differs { stamp });
        }
        let page = Page(changed_page(change));
        let written = Written {
            writer,
            at: Place { stamp, page },
        };
        let had = self.written.contains(&written);
        self.written.insert(written)?;
        if let Err(error) = self.records.add(writer, stamp, change) {
            if !had {
                self.written.remove(&written);
            }
            return Err(error);
        }
        Ok(())
    }

    /// The version of a page at a stamp: the first image at 0, else what the record of that stamp makes of
    /// the version at its `prev`.
    ///
    /// `Missing` names the first stamp on that way down of which no record is held. Else `Unfit` names the
    /// first record on the way up that doesn't suit. The links of each page are its own, their stamps fall, and
    /// each record was made on an older version.
    pub fn page_version(&self, page: Page, stamp: Stamp) -> Result<Image, VersionError>
        ensures order { IsHeld self.now.records }
        ensures value { Tells result (version page (links_of self.now.records page.0) stamp.0) }
    {
        let links = self.records.links(page);
        version_of(self.alloc, &self.images, page, links, stamp)
    }

    /// The version at the page's greatest held stamp up to this one, the first image where there is none.
    pub fn page_upto(&self, page: Page, stamp: Stamp) -> Result<Image, VersionError>
        ensures { Tells result (version_upto page (links_of self.now.records page.0) stamp.0) }
    {
        let links = self.records.links(page);
        version_of(
            self.alloc,
            &self.images,
            page,
            links,
            last_upto(links, stamp),
        )
    }

    /// The version at the page's greatest held stamp that the cut covers as its writer's, the first image
    /// where there is none.
    pub fn page_at_cut(&self, page: Page, cut: &Vector) -> Result<Image, VersionError>
        ensures { Tells result (version_at_cut page (links_of self.now.records page.0) cut.now) }
    {
        let links = self.records.links(page);
        version_of(
            self.alloc,
            &self.images,
            page,
            links,
            last_covered(links, cut),
        )
    }

    /// Keeps the version of a page, so that later ones are made from it. To keep one again changes nothing.
    ///
    /// Refuses `Missing` and `Unfit` exactly where there is no such version, and `Differs` exactly where the
    /// version is another image.
    pub fn keep(&mut self, image: &Image) -> Result<(), KeepError>
        ensures { Keeps result self.old self.new image.now (version image.now.page (links_of self.old.records image.now.page.0) image.now.stamp.0) }
    {
        let made = match self.page_version(image.page, image.stamp) {
            Ok(made) => made,
            Err(VersionError::Missing { stamp }) => return Err(KeepError::Missing { stamp }),
            Err(VersionError::Unfit { stamp }) => return Err(KeepError::Unfit { stamp }),
            Err(VersionError::NoMemory) => return Err(KeepError::NoMemory),
        };
        if !is_same_image(&made, image) {
            let stamp = image.stamp;
            return Err(KeepError::Differs { stamp });
        }
        self.images.insert(made)?;
        Ok(())
    }

    /// The image of a page at a stamp that was kept, or none. It is the version there.
    pub fn kept(&self, page: Page, stamp: Stamp) -> Option<&Image>
        ensures kept { option_copied result ≡ image_at self.now.kept page.0 stamp.0 }
        ensures version { IfSome (option_copied result) (IsKept page (links_of self.now.records page.0) stamp.0) }
    {
        self.images.get(page, stamp)
    }

    /// Where the writer has records from a stamp on, ascending by stamp and page.
    pub fn of_writer(&self, writer: Writer, from: Stamp) -> Mem<PlaceList>
        ensures { IfOk result (AreOfWriter self.now.records writer.0 from.0) }
    {
        self.written.places(writer, from)
    }
}

/// Whether two images are the same.
fn is_same_image(made: &Image, image: &Image) -> bool
    ensures { result ≡ same_image made.now image.now }
{
    made.page == image.page && made.stamp == image.stamp && made.body == image.body
}

/// The number of the page that a record changes, 0 where it changes none.
pub(crate) fn changed_page(change: &Record) -> u32
    ensures { result ≡ changed_page change.now }
{
    match change.page() {
        Some(page) => page.0,
        None => 0,
    }
}
