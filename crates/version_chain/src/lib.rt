//! Version chains: the records that are held of each page, and the versions of the pages that they make.
//!
//! A record says on which older version it was made, so the records of a page are a chain down to its
//! first image. A version is made by walking down from its stamp to the nearest image that is kept, or to the
//! first one, and applying the records on the way up again.
#![tactic(auto)]

mod chain;
mod chain_map;
mod chains;
mod error;
mod images;
mod places;
mod records;
mod spot;
mod version;
mod written;

pub use chains::Chains;
pub use error::{AddError, KeepError, VersionError};
pub use places::{Place, PlaceList};
