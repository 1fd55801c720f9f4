//! Pages, as definitions: the first version of a page, what each record of a log does to it, and which of its
//! versions is the page at a scalar and at a cut; and the tree of pages that a table is: the path of a key, the
//! groups of records that put a row, and when images tile a table.

#![tactic(auto)]

mod link;

pub use link::Link;
