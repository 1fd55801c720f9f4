//! Laws on the groups of a log that many writers wrote: their stamps rise on each page, and by more than
//! one. What each group finds on the pages that it names decides alone.

ghost use Rattle.std.specs.Prelude.{◌≡◌, ℕ, List, Some, IsSome};
ghost use Rattle.tm_data.specs.declared.image.Image.{Image};
ghost use Rattle.tm_data.specs.declared.log.Record.{Record};
ghost use Rattle.tm_data.specs.declared.log.Group.{Group};
ghost use Rattle.page_model.specs.Tree.{Images};
ghost use Rattle.page_model.specs.Tiling.{Tiles, IsMap, IsOnNoPage, Fits, record_on, after};
ghost use Rattle.tree_laws.specs.Reach.{TilesFromRoot, IsMapFromRoot, without_strays};
ghost use Rattle.tree_laws.specs.Logs.{AgreeOn, Finds, FitsLog, Rows, after_log, rows_after, rows_after_log};

/// Fitting depends on the images of the named pages alone: a group that fits some images fits all that have
/// the same ones of the pages that it names. It refuses a fitting that asks for more, as that the whole
/// table is tiled.
pub fn fitting_is_of_the_named_pages()
    ensures { (images other : Images) (stamp : ℕ) (group : List Record) (table : ℕ)
        → AgreeOn images other group → Fits images stamp group table → Fits other stamp group table }
{}

/// Each record of a fitting group finds the page that it names at the stamp before that it gives, and suits
/// it. It refuses a fitting of a record whose stamp before is another one than its page's.
pub fn a_fitting_group_finds_its_pages()
    ensures { (images : Images) (stamp : ℕ) (group : List Record) (table p : ℕ) (change : Record)
        → Fits images stamp group table → record_on p group ≡ Some change → Finds images stamp p change }
{}

/// No image goes in a fitting group. It refuses the images after a group in which a record goes to a page
/// that no record names, as an End to page 0.
pub fn no_image_goes()
    ensures { (images : Images) (stamp : ℕ) (group : List Record) (table p : ℕ) (image : Image)
        → Fits images stamp group table → images p ≡ Some image → IsSome (after images group stamp p) }
{}

/// A group on no page changes none, at page 0 neither. It refuses images after a group that take a record
/// which names no page for one of page 0.
pub fn a_group_on_no_page_changes_none()
    ensures { (images : Images) (stamp : ℕ) (group : List Record) (p : ℕ)
        → IsOnNoPage group → after images group stamp p ≡ images p }
{}

/// After a group that fits, in this table or another one, a table that was tiled is, and a table that was a
/// finite map is one with the rows set that the group sets in it, and nothing else changed. It refuses
/// rows that a split changes, or that a put sets in another table.
pub fn a_fitting_group_sets_its_rows()
    ensures { (images : Images) (stamp : ℕ) (group : List Record) (of table : ℕ) (rows : Rows)
        → Fits images stamp group of → Tiles images table → IsMap images table rows
        → Tiles (after images group stamp) table × IsMap (after images group stamp) table (rows_after table rows group) }
{}

/// After groups of any writers, each of which fits the images after those before it, the images tile each
/// table that they tiled, also as reached from its root, and its rows are those set, group by group. It
/// refuses images whose stamps count the groups.
pub fn a_log_sets_its_rows()
    ensures { (images : Images) (groups : List Group) (table : ℕ) (rows : Rows)
        → FitsLog images groups → Tiles images table → IsMap images table rows
        → Tiles (after_log images groups) table × IsMap (after_log images groups) table (rows_after_log table rows groups)
        × TilesFromRoot (after_log images groups) table
        × IsMapFromRoot (after_log images groups) table (rows_after_log table rows groups) }
{}

/// Where what is reached from a table's root tiles the table, it does after groups of any writers, each of
/// which fits the images after those before it where the table's stray pages are left out; and the rows that
/// are reached are those set, group by group. It refuses a split below a stray page that names a page which
/// is reached.
pub fn a_log_sets_what_is_reached()
    ensures { (images : Images) (groups : List Group) (table : ℕ) (rows : Rows)
        → FitsLog (without_strays images table) groups → TilesFromRoot images table → IsMapFromRoot images table rows
        → TilesFromRoot (after_log images groups) table
        × IsMapFromRoot (after_log images groups) table (rows_after_log table rows groups) }
{}
