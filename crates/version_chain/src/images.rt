//! Images of pages at stamps.
ghost use Rattle.std.specs.Prelude.{◌≡◌, OnOk, OnErr};
ghost use Rattle.std.specs.FinMap.{empty};
ghost use Rattle.std.specs.Option.{option_copied};
ghost use Rattle.version_chain.specs.Content.{image_at, with_image};

use crate::Place;
use std::alloc::Global;
use std::collections::BTreeMap;
use std::marker::Model;
use tm_base::{Image, Mem, NoMemory, Page, Stamp};

/// Images by page and stamp. Contracts see the finite map.
#[derive(Drop)]
pub(crate) struct ImageMap {
    images: BTreeMap<Place, Image>,
}

impl Model for ImageMap {
    ghost use Rattle.tm_data.specs.Maps.{as_map};
    ghost use Rattle.version_chain.specs.Content.{Images, coded_images};

    ghost Value = { Images };

    ghost coded = { coded_images };

    ghost view = { λ m. as_map m.images };
}

impl ImageMap {
    /// No images.
    pub(crate) fn new(alloc: Global) -> ImageMap
        ensures { result ≡ empty }
    {
        ImageMap {
            images: BTreeMap::new(alloc),
        }
    }

    /// The image of a page at a stamp.
    pub(crate) fn get(&self, page: Page, stamp: Stamp) -> Option<&Image>
        ensures { option_copied result ≡ image_at self.now page.0 stamp.0 }
    {
        self.images.get(&Place { stamp, page })
    }

    /// Sets the image of its page at its stamp. With want of memory nothing changes.
    pub(crate) fn insert(&mut self, image: Image) -> Mem<()>
        ensures ok { OnOk result (self.new ≡ with_image self.old image) }
        ensures err { OnErr result (self.new ≡ self.old) }
    {
        let place = Place {
            stamp: image.stamp,
            page: image.page,
        };
        let Ok(_) = self.images.insert(place, image) else {
            return Err(NoMemory);
        };
        Ok(())
    }
}
