//! A table's tree of pages: the path of a key, and the groups of records that put a row.
//!
//! The tree is a B+ tree (Bayer and McCreight 1972) whose pages name the keys that they may have by two
//! fences (as Lehman and Yao 1981 name a high key). A put that finds no room splits pages from the top
//! down, one group of records for each split, so that the pages tile the table after every group.
//!
//! Nothing here changes a page or keeps one: a path is found over any [`Pages`], and a plan is a list of
//! records.
#![tactic(auto)]

mod fence;
mod full;
mod groups;
mod halves;
mod pages;
mod path;
mod place;
mod plan;

pub use fence::level_of;
pub use full::is_full;
pub use pages::Pages;
pub use path::{FindError, Path, find};
pub use place::{Place, child_at, child_for, entries_up_to, is_at};
pub use plan::{Plan, PlanError, plan_put};
