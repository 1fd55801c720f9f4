//! Laws on what is stored: an image that has a spelling is sound, a record that suits keeps it so, and the
//! groups of a plan have spellings. So whoever holds images that were read, and changes them by such groups
//! alone, holds sound images.
//!
//! The definitions of pages and those of bytes don't know each other; here they meet. A law is the contract
//! of a function that does nothing: a caller that calls it has the law among its facts.
#![tactic(auto)]

ghost use Rattle.std.specs.Prelude.{◌≡◌, ◌≤◌, ◌<◌, ◌+◌, ℕ, List, Some, Ok, length};
ghost use Rattle.std.specs.List.{AllByRecursion};
ghost use Rattle.tm_data.specs.declared.transaction.Page.{Page};
ghost use Rattle.tm_data.specs.declared.row.Row.{Row};
ghost use Rattle.tm_data.specs.declared.image.Image.{Image};
ghost use Rattle.tm_data.specs.declared.image.Body.{Body};
ghost use Rattle.tm_data.specs.declared.log.Record.{Record};
ghost use Rattle.wire_fields.specs.Spelling.{IsWithin};
ghost use Rattle.page_image.specs.Spelling.{IsImage, IsRow};
ghost use Rattle.log_record.specs.Spelling.{IsSound as IsSoundRecord};
ghost use Rattle.page_model.specs.Effects.{redone, redone_at};
ghost use Rattle.page_model.specs.Sound.{IsSound};
ghost use Rattle.page_model.specs.Splits.{images_on, plan_of};
ghost use Rattle.page_model.specs.Tree.{Images, path_of};
ghost use Rattle.spelling_laws.specs.Spellings.{IsPageRecord, HaveSpellings};
ghost use Rattle.tree_laws.specs.Claims.{IsPartOf, AreFresh};
ghost use Rattle.tree_laws.specs.Reach.{TilesFromRoot};

/// Each image that has a spelling is sound: its fences are in order, its keys ascend between them, and it
/// has at most 8,192 bytes. It refuses a spelling that lets two rows of a leaf have one key.
pub fn an_image_with_a_spelling_is_sound()
    ensures { (image : Image) → IsImage image → IsSound image.body }
{}

/// A record with a spelling that suits a sound page keeps it sound. It refuses a put that suits a leaf
/// whose fences don't hold its key, and a split whose right half is too long.
pub fn a_record_keeps_a_page_sound()
    ensures { (body new : Body) (change : Record)
        → IsSound body → IsSoundRecord change → redone body change ≡ Some new → IsSound new }
{}

/// A record with a spelling that suits an image which has one makes an image with a spelling, at each stamp
/// up to 2^63 - 1. It refuses a spelling of pages that leaves out what a record can make of them.
pub fn a_record_keeps_the_spelling()
    ensures { (image new : Image) (change : Record) (stamp : ℕ)
        → IsImage image → IsSoundRecord change → stamp ≤ 9223372036854775807
        → redone_at image change stamp ≡ Some new → IsImage new }
{}

/// Each record of a plan has a spelling and names a page, where the path's images and the row have
/// spellings and the fresh pages have numbers; whatever else the images are. So who applies them to images
/// that have spellings keeps such. It refuses a plan that separates a page at a key which no page may have,
/// and one whose root gets more levels than a tree has.
pub fn the_records_of_a_plan_have_spellings()
    ensures { (images : Images) (path fresh : List Page) (row : Row) (first : ℕ) (groups : List (List Record))
        → AllByRecursion IsImage (images_on images path) → IsRow row
        → AllByRecursion (λ (p : Page). IsWithin 1 4294967295 p.0) fresh
        → plan_of images path row fresh first ≡ Ok groups
        → AllByRecursion (λ (g : List Record). AllByRecursion IsPageRecord g) groups }
{}

/// Each group of a plan has a spelling, whichever writer logs it, with up to 3,400 entries learnt: its
/// records ascend by page, each gives a stamp before that is below the group's, and the group has at most
/// 65,536 bytes. The plan is made of some of a set's images, where what is reached from the table's root
/// tiles the table. It refuses a plan that cuts a page and adds to it in one group.
pub fn the_groups_of_a_plan_have_spellings()
    ensures { (images part : Images) (table first : ℕ) (row : Row) (path fresh : List Page) (groups : List (List Record))
        → IsPartOf part images → TilesFromRoot images table → path_of part table row.key ≡ Ok path
        → AllByRecursion IsImage (images_on part path) → IsRow row
        → AreFresh images fresh → AllByRecursion (λ (p : Page). IsWithin 1 4294967295 p.0) fresh
        → AllByRecursion (λ (i : Image). i.stamp.0 < first) (images_on part path)
        → plan_of part path row fresh first ≡ Ok groups → first + length groups ≤ 9223372036854775808
        → HaveSpellings first groups }
{}
