//! The plan of a put.
ghost use Rattle.std.specs.Prelude.{◌≡◌, ◌<◌, ◌≤◌, ◌+◌, ◌-◌, ◌^◌, ◌++◌, length, reverse, IfOk, OnOk, Some, None, if◌then◌else◌};
ghost use Rattle.key_fences.specs.Fences.{key_less};
ghost use Rattle.page_model.specs.Tree.{level_of};
ghost use Rattle.page_model.specs.Splits.{groups_below, groups_of_root, plan_of, plan_with};
ghost use Rattle.row_tree.specs.Plans.{Fitting, FittingFromRoot};
ghost use Rattle.row_tree.specs.Inside.{spot_in, images_at, GivesPlan, IsEnough};

use crate::fence::{level_of, table_of};
use crate::full::{FullPages, full_pages};
use crate::groups::{Spot, root_group, row_group, split_group, spot_of};
use crate::halves::{left_half, right_half};
use crate::{Pages, Path};
use key_fences::is_less;
use std::alloc::Global;
use tm_base::{Image, ItemList, Key, Mem, NoMemory, Page, RecordList, Row, Stamp};

/// A tree has the levels 0 to 5.
const MAX_LEVEL: u8 = 5;

/// The records of a put's groups, one list for each group, in order.
pub type Plan = ItemList<RecordList>;

/// Why there is no plan.
#[derive(Clone, Copy, Debug, PartialEq, Eq)]
pub enum PlanError {
    /// The root would split at level 5.
    Height,
    /// More fresh pages are needed; so many are wanting.
    Fresh { wanting: u32 },
    /// Want of memory.
    NoMemory,
}

impl From<NoMemory> for PlanError {
    ghost use Rattle.row_tree.specs.declared.plan.PlanError.TheVariants.{NoMemory};

    ghost from_gives = { λ _ e. e ≡ NoMemory };

    fn from(_: NoMemory) -> Self {
        PlanError::NoMemory
    }
}

/// Whether there are as many fresh pages as are needed.
fn enough(needed: usize, fresh: &[Page]) -> Result<(), PlanError>
    ensures { needed < 2 ^ 32 → IsEnough needed fresh.now result }
{
    let Some(wanting) = needed.checked_sub(fresh.len()) else {
        return Ok(());
    };
    if wanting == 0 {
        return Ok(());
    }
    Err(PlanError::Fresh {
        wanting: u32::try_from(wanting).unwrap_or(u32::MAX),
    })
}

/// Of the halves of a page, the one that has the row's key.
fn half_for(row: &Row, separator: &Key, left: Page, right: Page) -> Page
    ensures { result ≡
        (if key_less row.entry.now.key separator.now then left else right) }
{
    if is_less(row.key.as_slice(), separator.as_slice()) {
        left
    } else {
        right
    }
}

/// Adds the groups of pages that split, each below the one before, the first of them below a spot, and
/// the row's own. The pages are those from the leaf up.
fn add_groups(
    alloc: Global,
    plan: &mut Plan,
    row: &Row,
    spot: Spot,
    full: &[&Image],
    fresh: &[Page],
    stamp: Stamp,
) -> Mem<()>
    ensures { stamp.0 + length full.now < 2 ^ 64 → OnOk result (plan.new ≡
        plan.old ++ groups_below row.entry.now (spot_in spot) (reverse (images_at full.now)) fresh.now stamp.0) }
{
    let Some((image, below)) = full.split_last() else {
        plan.push(row_group(alloc, row, spot)?)?;
        return Ok(());
    };
    let Some((page, fresh)) = fresh.split_first() else {
        return Ok(());
    };
    let Some(half) = right_half(&image.body)? else {
        return Ok(());
    };
    let next = Spot {
        page: half_for(row, &half.separator, image.page, *page),
        stamp,
        table: table_of(&image.body),
    };
    plan.push(split_group(alloc, spot, spot_of(image), half, *page)?)?;
    let stamp = Stamp(stamp.0.saturating_add(1));
    add_groups(alloc, plan, row, next, below, fresh, stamp)
}

/// Adds the groups of a root that splits with all pages below it.
fn add_root_groups(
    alloc: Global,
    plan: &mut Plan,
    row: &Row,
    image: &Image,
    below: &[&Image],
    fresh: &[Page],
    stamp: Stamp,
) -> Mem<()>
    requires { level_of image.now.body < 5 }
    ensures { stamp.0 + 1 + length below.now < 2 ^ 64 →
        OnOk result (plan.new ≡ plan.old
        ++ groups_of_root row.entry.now image.now (reverse (images_at below.now)) fresh.now stamp.0) }
{
    let Some((left, fresh)) = fresh.split_first() else {
        return Ok(());
    };
    let Some((right, fresh)) = fresh.split_first() else {
        return Ok(());
    };
    let Some(half) = right_half(&image.body)? else {
        return Ok(());
    };
    let left_body = left_half(&image.body, &half.separator)?;
    let next = Spot {
        page: half_for(row, &half.separator, *left, *right),
        stamp,
        table: table_of(&image.body),
    };
    plan.push(root_group(alloc, image, half, left_body, *left, *right)?)?;
    let stamp = Stamp(stamp.0.saturating_add(1));
    add_groups(alloc, plan, row, next, below, fresh, stamp)
}

/// The plan where a page above the full ones isn't full.
fn plan_below(
    alloc: Global,
    row: &Row,
    above: &Image,
    full: &[&Image],
    fresh: &[Page],
    first: Stamp,
) -> Result<Plan, PlanError>
    ensures { first.0 + length full.now < 2 ^ 64 → length full.now < 2 ^ 32 →
        GivesPlan result
        (plan_with row.entry.now fresh.now first.0 (Some above.now) (reverse (images_at full.now))) }
{
    enough(full.len(), fresh)?;
    let mut plan = Plan::new(alloc);
    add_groups(alloc, &mut plan, row, spot_of(above), full, fresh, first)?;
    Ok(plan)
}

/// The plan where all pages of the path are full.
fn plan_root(
    alloc: Global,
    row: &Row,
    full: &[&Image],
    fresh: &[Page],
    first: Stamp,
) -> Result<Plan, PlanError>
    ensures { first.0 + length full.now < 2 ^ 64 → length full.now + 1 < 2 ^ 32 →
        GivesPlan result
        (plan_with row.entry.now fresh.now first.0 None (reverse (images_at full.now))) }
{
    let mut plan = Plan::new(alloc);
    let Some((image, below)) = full.split_last() else {
        return Ok(plan);
    };
    if level_of(&image.body) >= MAX_LEVEL {
        return Err(PlanError::Height);
    }
    enough(full.len().saturating_add(1), fresh)?;
    add_root_groups(alloc, &mut plan, row, image, below, fresh, first)?;
    Ok(plan)
}

// The groups that put a row along a path.
fn planned<P: Pages>(
    alloc: Global,
    pages: &P,
    path: &Path,
    row: &Row,
    fresh: &[Page],
    first: Stamp,
) -> Result<Plan, PlanError>
    ensures { length path.now ≤ 6 → first.0 ≤ 2 ^ 63 → GivesPlan result
        (plan_of (P.images pages.now) path.now row.entry.now fresh.now first.0) }
{
    let FullPages { full, above } = full_pages(alloc, pages, path, row)?;
    let Some(above) = above else {
        return plan_root(alloc, row, full.as_slice(), fresh, first);
    };
    plan_below(alloc, row, above, full.as_slice(), fresh, first)
}

/// The groups that put a row, along the path that [`find`](crate::find) gives for the row's key, with
/// stamps from `first` on, at most `2^63`.
///
/// A row that doesn't fit splits its leaf, and each page above that has no room for one more entry
/// splits too. The splits come first, one group each, from the top down; then the row's own group. Fresh
/// pages are used in order, one for each page that splits and two for a root.
///
/// Where a set of images tiles the table, and `pages` gives the path's images as that set has them, the groups
/// fit, each the images after the ones before it; after the last one the images tile the table, the row is
/// there, and every other row is as before. The same holds of what is reached from the root alone, where
/// the path is the one that [`find`](crate::find) gives over `pages` and the set has all images of `pages`.
///
/// Refuses `Height` exactly where a root of level 5 would split, then `Fresh` exactly where fresh pages
/// are wanting, with their number. Each page that is looked at is looked at once.
pub fn plan_put<P: Pages>(
    alloc: Global,
    pages: &P,
    path: &Path,
    row: &Row,
    fresh: &[Page],
    first: Stamp,
) -> Result<Plan, PlanError>
    ensures exact { length path.now ≤ 6 → first.0 ≤ 2 ^ 63 → GivesPlan result
        (plan_of (P.images pages.now) path.now row.entry.now fresh.now first.0) }
    ensures fits { first.0 ≤ 2 ^ 63
        → Fitting result (P.images pages.now) path.now row.entry.now fresh.now first.0 }
    ensures from_root { first.0 ≤ 2 ^ 63
        → FittingFromRoot result (P.images pages.now) path.now row.entry.now fresh.now first.0 }
{
    planned(alloc, pages, path, row, fresh, first)
}
