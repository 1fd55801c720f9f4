//! What is true of a table's tree: laws over the definitions of `page_model` alone.
//!
//! Whether a group of records keeps the tiling of a table is decided by the images that it names: a
//! group that fits these keeps it, wherever the rest of the tree stands. A law is the contract of a
//! function that does nothing: a caller that calls it has the law among its facts.
//!
//! Tiling is said in two ways: of all images of a table that a set has (`Tiles`), and of those alone that
//! are reached from the table's root (`TilesFromRoot`). The first implies the second. The second says of
//! the set what the first says of the set without its stray pages, those of the table that are not reached;
//! a plan keeps it whatever stray pages there are.
#![tactic(auto)]

pub mod logs;

ghost use Rattle.std.specs.Prelude.{◌≡◌, ◌≢◌, ◌↔◌, ◌≤◌, ◌<◌, ℕ, List, Ok, length};
ghost use Rattle.std.specs.List.{AllByRecursion};
ghost use Rattle.std.specs.Ordering.{nat_cmp};
ghost use Rattle.std.specs.Cmp.Lexicographic.{slice_cmp};
ghost use Rattle.std.specs.FinMap.{FinMap, insert, empty};
ghost use Rattle.tm_data.specs.declared.transaction.Page.{Page};
ghost use Rattle.tm_data.specs.declared.row.Row.{Row};
ghost use Rattle.tm_data.specs.declared.image.Image.{Image};
ghost use Rattle.tm_data.specs.declared.log.Record.{Record};
ghost use Rattle.page_model.specs.Tree.{Images, Place, path_of};
ghost use Rattle.page_model.specs.Splits.{Halves, images_on, plan_of};
ghost use Rattle.page_model.specs.Sound.{IsSoundRow};
ghost use Rattle.page_model.specs.Tiling.{Tiles, IsMap, Fits, FitInTurn, PutsRow, Splits, SplitsRoot, HasRow, after, after_all};
ghost use Rattle.tree_laws.specs.Claims.{first_images, IsPartOf, SameRows, SetsRow, AreFresh, LeadsToItsRow};
ghost use Rattle.tree_laws.specs.Reach.{IsReached, TilesFromRoot, HasRowFromRoot, SetsRowFromRoot, PutsFromRoot, SameRowsFromRoot, IsMapFromRoot, AreLeaves, LeadsFromRoot, without_strays};

/// Tiling is local: where a set of images tiles a table and a group fits the images that it names, the
/// images after the group tile the table.
pub fn a_fitting_group_keeps_the_tiling()
    ensures { (images : Images) (stamp : ℕ) (group : List Record) (table : ℕ)
        → Tiles images table → Fits images stamp group table → Tiles (after images group stamp) table }
{}

/// The same of groups that fit one after another.
pub fn fitting_groups_keep_the_tiling()
    ensures { (images : Images) (stamp : ℕ) (groups : List (List Record)) (table : ℕ)
        → Tiles images table → FitInTurn images stamp groups table → Tiles (after_all images groups stamp) table }
{}

/// A put of a row that fits sets that row, and changes no other one.
pub fn a_put_sets_its_row()
    ensures { (images : Images) (stamp : ℕ) (group : List Record) (table : ℕ) (row : Row) (leaf : Image)
        → Tiles images table → PutsRow images stamp group table row leaf
        → SetsRow images (after images group stamp) table row }
{}

/// A split of a page under its parent changes no row.
pub fn a_split_keeps_the_rows()
    ensures { (images : Images) (stamp : ℕ) (group : List Record) (table : ℕ) (page parent : Image) (h : Halves) (fresh : Page)
        → Tiles images table → Splits images stamp group table page parent h fresh
        → SameRows images (after images group stamp) table }
{}

/// A split of a root changes no row.
pub fn a_root_split_keeps_the_rows()
    ensures { (images : Images) (stamp : ℕ) (group : List Record) (table : ℕ) (page : Image) (h : Halves) (left right : Page)
        → Tiles images table → SplitsRoot images stamp group table page h left right
        → SameRows images (after images group stamp) table }
{}

/// A table that is a finite map is one with the row set after a put that fits.
pub fn a_put_sets_the_map()
    ensures { (images : Images) (stamp : ℕ) (group : List Record) (table : ℕ) (row : Row) (leaf : Image) (m : FinMap (slice_cmp nat_cmp) Row)
        → Tiles images table → PutsRow images stamp group table row leaf → IsMap images table m
        → IsMap (after images group stamp) table (insert m row.key row) }
{}

/// Where images tile a table, every key has a path, of at most six pages.
pub fn every_key_has_a_path()
    ensures { (images : Images) (table : ℕ) (key : List ℕ) → Tiles images table
        → (path : List Page) × (path_of images table key ≡ Ok path) × (length path ≤ 6) }
{}

/// The groups of a plan fit, each the images after the ones before it, and the images after them have
/// the row set and every other row as before; they tile the table. The path is the one that is found for
/// the row's key, the fresh pages are blank and all different, and the stamps are above those of the
/// path.
pub fn a_plan_fits_and_sets_its_row()
    ensures { (images : Images) (table first : ℕ) (row : Row) (path fresh : List Page) (groups : List (List Record))
        → Tiles images table → path_of images table row.key ≡ Ok path → IsSoundRow row → AreFresh images fresh
        → AllByRecursion (λ (i : Image). i.stamp.0 < first) (images_on images path)
        → plan_of images path row fresh first ≡ Ok groups
        → FitInTurn images first groups table × Tiles (after_all images groups first) table
        × SetsRow images (after_all images groups first) table row }
{}

/// After a plan a table that is a finite map is one with the row set, and nothing else changed.
pub fn a_plan_sets_the_map()
    ensures { (images : Images) (table first : ℕ) (row : Row) (path fresh : List Page) (groups : List (List Record)) (m : FinMap (slice_cmp nat_cmp) Row)
        → Tiles images table → path_of images table row.key ≡ Ok path → IsSoundRow row → AreFresh images fresh
        → AllByRecursion (λ (i : Image). i.stamp.0 < first) (images_on images path)
        → plan_of images path row fresh first ≡ Ok groups → IsMap images table m
        → IsMap (after_all images groups first) table (insert m row.key row) }
{}

/// A group that fits one table leaves another one as it was: where the images tiled it, those after the
/// group do, and it has the same rows.
pub fn other_tables_stay()
    ensures { (images : Images) (stamp : ℕ) (group : List Record) (table other : ℕ)
        → other ≢ table → Fits images stamp group table → Tiles images other
        → Tiles (after images group stamp) other × SameRows images (after images group stamp) other }
{}

/// The same of groups that fit one table one after another.
pub fn other_tables_stay_in_turn()
    ensures { (images : Images) (stamp : ℕ) (groups : List (List Record)) (table other : ℕ)
        → other ≢ table → FitInTurn images stamp groups table → Tiles images other
        → Tiles (after_all images groups stamp) other × SameRows images (after_all images groups stamp) other }
{}

/// Where images tile a table, the path of a key ends at the one leaf that may hold the key, and a row of
/// that key is in the table exactly if it is in this leaf.
pub fn a_path_leads_to_its_row()
    ensures { (images : Images) (table : ℕ) (key : List ℕ) (path : List Page)
        → Tiles images table → path_of images table key ≡ Ok path → LeadsToItsRow images table key path }
{}

/// Where images tile a table, there is the finite map of its rows by their keys.
pub fn a_tiled_table_is_a_map()
    ensures { (images : Images) (table : ℕ) → Tiles images table
        → (m : FinMap (slice_cmp nat_cmp) Row) × IsMap images table m }
{}

/// Tiling from the root is said of what is reached alone: where what is reached in one set of images tiles a
/// table, it does in each set that has the same images of these pages, with the same rows.
pub fn what_is_not_reached_plays_no_part()
    ensures { (images other : Images) (table : ℕ)
        → ((place : Place) → IsReached images table place → other place.page.0 ≡ images place.page.0)
        → TilesFromRoot images table → TilesFromRoot other table × SameRowsFromRoot images other table }
{}

/// Where a set of images tiles a table, what is reached from the table's root does, and the table has no
/// row but those that are reached.
pub fn tiling_is_tiling_from_the_root()
    ensures { (images : Images) (table : ℕ) → Tiles images table
        → TilesFromRoot images table × ((row : Row) → HasRow images table row ↔ HasRowFromRoot images table row) }
{}

/// What is reached from a table's root tiles the table exactly if the images without the table's stray pages,
/// those of it that are not reached, tile it; and these then have the rows that are reached, and no other.
pub fn without_strays_the_images_tile()
    ensures { (images : Images) (table : ℕ)
        → (TilesFromRoot images table ↔ Tiles (without_strays images table) table)
        × (TilesFromRoot images table → (row : Row)
        → HasRowFromRoot images table row ↔ HasRow (without_strays images table) table row) }
{}

/// Where what is reached from a table's root tiles the table, the groups of a plan fit, each the images
/// after the ones before it; what is reached tiles the table after them too, and then the row is there and
/// every other row as before, whatever stray pages the images have. The path is the one that is found for
/// the row's key, the fresh pages are blank and all different, and the stamps are above those of the path.
pub fn a_plan_from_the_root()
    ensures { (images : Images) (table first : ℕ) (row : Row) (path fresh : List Page) (groups : List (List Record))
        → TilesFromRoot images table → path_of images table row.key ≡ Ok path → IsSoundRow row → AreFresh images fresh
        → AllByRecursion (λ (i : Image). i.stamp.0 < first) (images_on images path)
        → plan_of images path row fresh first ≡ Ok groups
        → FitInTurn images first groups table × TilesFromRoot (after_all images groups first) table
        × SetsRowFromRoot images (after_all images groups first) table row }
{}

/// A path that is found among some of a set's images is the set's: what is found to be there is there. It
/// refuses a path that goes on, or ends, where an image is missing.
pub fn a_path_found_is_the_sets()
    ensures { (images part : Images) (table : ℕ) (key : List ℕ) (path : List Page)
        → IsPartOf part images → path_of part table key ≡ Ok path → path_of images table key ≡ Ok path }
{}

/// A plan that is made of some of a set's images alone, along the path that is found among them, is right
/// for the set, where what is reached from the table's root tiles the table, the fresh pages are blank and
/// all different, and the stamps are above those of the path. It refuses a plan that looks at a page beside
/// the path.
pub fn a_plan_of_some_images()
    ensures { (images part : Images) (table first : ℕ) (row : Row) (path fresh : List Page) (groups : List (List Record))
        → IsPartOf part images → TilesFromRoot images table → path_of part table row.key ≡ Ok path
        → IsSoundRow row → AreFresh images fresh
        → AllByRecursion (λ (i : Image). i.stamp.0 < first) (images_on part path)
        → plan_of part path row fresh first ≡ Ok groups → PutsFromRoot images first groups table row }
{}

/// After a plan a table whose rows that are reached are a finite map is that map with the row set.
pub fn a_plan_sets_the_map_from_the_root()
    ensures { (images : Images) (table first : ℕ) (row : Row) (path fresh : List Page) (groups : List (List Record)) (m : FinMap (slice_cmp nat_cmp) Row)
        → TilesFromRoot images table → path_of images table row.key ≡ Ok path → IsSoundRow row → AreFresh images fresh
        → AllByRecursion (λ (i : Image). i.stamp.0 < first) (images_on images path)
        → plan_of images path row fresh first ≡ Ok groups → IsMapFromRoot images table m
        → IsMapFromRoot (after_all images groups first) table (insert m row.key row) }
{}

/// Groups that fit the images without a table's stray pages, each the images after the ones before it,
/// keep the tiling of what is reached from the table's root.
pub fn fitting_groups_keep_what_is_reached()
    ensures { (images : Images) (stamp : ℕ) (groups : List (List Record)) (table : ℕ)
        → TilesFromRoot images table → FitInTurn (without_strays images table) stamp groups table
        → TilesFromRoot (after_all images groups stamp) table }
{}

/// Groups that fit one table one after another leave another one as it was: where what is reached from its
/// root tiled it, it does after them, and has the same rows.
pub fn other_tables_stay_from_the_root()
    ensures { (images : Images) (stamp : ℕ) (groups : List (List Record)) (table other : ℕ)
        → other ≢ table → FitInTurn images stamp groups table → TilesFromRoot images other
        → TilesFromRoot (after_all images groups stamp) other
        × SameRowsFromRoot images (after_all images groups stamp) other }
{}

/// Where what is reached from a table's root tiles the table, each key has a path, of at most six pages: it
/// ends at the one leaf that is reached and may hold the key, and a row of that key is in the table exactly
/// if it is in this leaf.
pub fn every_key_has_one_leaf_from_the_root()
    ensures { (images : Images) (table : ℕ) (key : List ℕ) → TilesFromRoot images table
        → (path : List Page) × (path_of images table key ≡ Ok path) × (length path ≤ 6) × LeadsFromRoot images table key path }
{}

/// Where what is reached from a table's root tiles the table, the fences of its leaves follow each other,
/// from an open one to an open one.
pub fn the_leaves_follow_each_other()
    ensures { (images : Images) (table : ℕ) → TilesFromRoot images table → (places : List Place) × AreLeaves images table places }
{}

/// Where what is reached from a table's root tiles the table, there is the finite map of its rows by their
/// keys.
pub fn a_table_from_the_root_is_a_map()
    ensures { (images : Images) (table : ℕ) → TilesFromRoot images table
        → (m : FinMap (slice_cmp nat_cmp) Row) × IsMapFromRoot images table m }
{}

/// The first versions of the pages tile each of the tables 1 to 1,024, and have no row of it.
pub fn the_first_images_tile_each_table()
    ensures { (table : ℕ) → 1 ≤ table → table ≤ 1024 → Tiles first_images table × IsMap first_images table empty }
{}
