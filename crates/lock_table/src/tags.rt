//! The table of tags.
ghost use Rattle.std.specs.Prelude.{◌≡◌, ◌+◌, ◌∷◌, [], length, filter, not, true, false, IfSome, IfNone, OnOk, OnErr, IfOk};
ghost use Rattle.std.specs.Result.{IsErrOf};
ghost use Rattle.std.specs.Option.{option_copied};
ghost use Rattle.std.specs.FinMap as fin;
ghost use Rattle.lock_table.specs.Tags.{no_tags, with_tag, takes, page_tag, tag_of, tags_on, tags_of, without_txn, without_page, same_txn, is_on, items, conflict, foreign, moved, with_tags};
ghost use Rattle.lock_table.specs.declared.tags.TagError.TheVariants as TagError;

use crate::nodes::Nodes;
use std::alloc::Global;
use std::marker::{Brand, Model};
use std::sync::ledger::{Blank, Ledger};
use tm_base::{Key, Mem, NoMemory, Page, Steps, Tag, TagList, TryCopy, Txn, Writer};

/// A page takes tags up to this number; more stand on it only where they were put there with the page.
pub const MAX_TAGS: usize = 4096;

/// Why a tag is not added.
#[derive(Clone, Copy, Debug, PartialEq, Eq)]
pub enum TagError {
    /// The page has 4,096 tags or more, and this isn't one of them.
    Full,
    /// Want of memory.
    NoMemory,
}

impl From<NoMemory> for TagError {
    ghost use Rattle.lock_table.specs.declared.tags.TagError.TheVariants.{NoMemory};

    ghost from_gives = { λ _ e. e ≡ NoMemory };

    fn from(_: NoMemory) -> Self {
        TagError::NoMemory
    }
}

/// The tags of a master. Contracts see a finite set.
#[derive(Drop)]
pub struct Tags {
    nodes: Nodes,
    alloc: Global,
}

impl Model for Tags {
    ghost use Rattle.std.specs.Prelude.{List};
    ghost use Rattle.lock_table.specs.Tags.{Tags, coded_tags, set_of};

    ghost Value = { Tags };

    ghost coded = { coded_tags };

    ghost use Rattle.lock_table.specs.Inside.{Entry, Stand, tags_in};

    ghost view = { λ t. set_of (tags_in t.nodes.slab) };

    ghost invariant = { λ t. (es : List Entry) × Stand t.nodes es };
}

impl Tags {
    /// No tags.
    pub fn new(alloc: Global) -> Tags
        ensures { result ≡ no_tags }
    {
        Tags {
            nodes: Nodes::new(alloc),
            alloc,
        }
    }

    /// Adds a tag. Refuses `Full` exactly where the page has 4,096 tags or more and this isn't one of them.
    /// With `Full` and with want of memory nothing changes.
    pub fn add(&mut self, page: Page, key: &Key, txn: Txn) -> Result<(), TagError>
        ensures ok { OnOk result (self.new ≡ with_tag self.old page.0 key.now txn) }
        ensures full { IsErrOf result TagError.Full → takes self.old page.0 key.now txn ≡ false }
        ensures exactly { takes self.old page.0 key.now txn ≡ false → IsErrOf result TagError.Full }
        ensures err { OnErr result (self.new ≡ self.old) }
    {
        let place = self.nodes.place(page, key, txn);
        if self.nodes.holds(place.next, page, key, txn) {
            return Ok(());
        }
        if self.nodes.count_on(page) >= MAX_TAGS {
            return Err(TagError::Full);
        }
        let tag = Tag {
            key: key.copy()?,
            txn,
        };
        self.nodes.open(page, txn)?;
        self.nodes.insert(page, tag, place);
        Ok(())
    }

    /// Takes out the first tag of a transaction, which is one step.
    fn take_of<L: Ledger>(&mut self, txn: Txn, steps: &mut Steps<L>) -> bool
        ensures some { result ≡ true → (steps.new ≡ steps.old + 1) × (length (tags_of self.old txn) ≡ length (tags_of self.new txn) + 1) × (without_txn self.new txn ≡ without_txn self.old txn) }
        ensures none { result ≡ false → (steps.new ≡ steps.old) × (tags_of self.old txn ≡ []) × (self.new ≡ self.old) }
    {
        let Some(at) = self.nodes.first_of(txn) else {
            return false;
        };
        self.nodes.remove(at, steps);
        true
    }

    /// Takes out all tags of a transaction and no other, each in one step.
    pub fn end_of<L: Ledger>(&mut self, txn: Txn, steps: &mut Steps<L>)
        ensures gone { self.new ≡ without_txn self.old txn }
        ensures exactly { steps.new ≡ steps.old + length (tags_of self.old txn) }
    {
        self.forget_of(txn);
        while self.take_of(txn, steps) {}
    }

    /// How many tags a page has.
    fn count_on(&self, page: Page) -> usize
        ensures { result ≡ length (tags_on self.now page.0) }
    {
        self.nodes.count_on(page)
    }

    /// Takes out the first tag of a page, which is one step.
    fn take_on<L: Ledger>(&mut self, page: Page, steps: &mut Steps<L>) -> Option<Tag>
        ensures some { IfSome result (λ tag. (steps.new ≡ steps.old + 1) × (tags_on self.old page.0 ≡ tag ∷ tags_on self.new page.0) × (without_page self.new page.0 ≡ without_page self.old page.0)) }
        ensures none { IfNone result ((steps.new ≡ steps.old) × (tags_on self.old page.0 ≡ []) × (self.new ≡ self.old)) }
    {
        let at = match self.nodes.first_on(page) {
            Some(at) => at,
            None => return None,
        };
        let tag = self.nodes.remove(at, steps);
        Some(tag)
    }

    /// Keeps no order of a transaction, whose tags all go.
    fn forget_of(&mut self, txn: Txn)
        ensures { self.new ≡ self.old }
    {
        self.nodes.forget_of(txn);
    }

    /// Keeps no order of a page, whose tags all go.
    fn forget(&mut self, page: Page)
        ensures { self.new ≡ self.old }
    {
        self.nodes.forget(page);
    }

    /// Takes out the tags of a page, each in one step, and gives them, ascending by key and transaction.
    /// With want of memory nothing changes, and no step is taken.
    pub fn take_page<L: Ledger>(&mut self, page: Page, steps: &mut Steps<L>) -> Mem<TagList>
        ensures taken { IfOk result (λ tags. tags ≡ tags_on self.old page.0) }
        ensures gone { OnOk result (self.new ≡ without_page self.old page.0) }
        ensures exactly { OnOk result (steps.new ≡ steps.old + length (tags_on self.old page.0)) }
        ensures err { OnErr result ((self.new ≡ self.old) × (steps.new ≡ steps.old)) }
    {
        let mut tags = Vec::with_capacity(self.alloc, self.count_on(page))?;
        self.forget(page);
        while let Some(tag) = self.take_on(page, steps) {
            tags.push(tag)?;
        }
        Ok(TagList::from_vec(tags))
    }

    /// Takes out the tags of a page, each in one step. It takes no memory.
    pub fn drop_page<L: Ledger>(&mut self, page: Page, steps: &mut Steps<L>)
        ensures gone { self.new ≡ without_page self.old page.0 }
        ensures exactly { steps.new ≡ steps.old + length (tags_on self.old page.0) }
    {
        self.forget(page);
        while self.take_on(page, steps).is_some() {}
    }

    /// Copies of the tags of a page, ascending by key and transaction.
    pub fn copy_page(&self, page: Page) -> Mem<TagList>
        ensures { IfOk result (λ tags. tags ≡ tags_on self.now page.0) }
    {
        let tags = self.nodes.copies_on(self.alloc, page)?;
        Ok(tags)
    }

    /// Takes a tag back, if it is there. It takes no memory, and no step is counted.
    pub fn remove(&mut self, page: Page, key: &Key, txn: Txn)
        ensures { self.new ≡ fin.remove self.old (page_tag page.0 key.now txn) }
    {
        let place = self.nodes.place(page, key, txn);
        let Some(at) = place.next else {
            return;
        };
        if self.nodes.holds(place.next, page, key, txn) {
            self.nodes.withdraw::<Brand>(at, Blank::new(1));
        }
    }

    /// Moves the tags of a page whose keys are at `at` or above to the page `to`. No tag is taken out, and no step is
    /// counted; where a tag like one of them stands on `to` already, the two are one. With want of memory nothing
    /// changes.
    pub fn move_from(&mut self, page: Page, at: &Key, to: Page) -> Mem<()>
        ensures ok { OnOk result (self.new ≡ moved self.old page.0 at.now to.0) }
        ensures err { OnErr result (self.new ≡ self.old) }
    {
        if page == to {
            return Ok(());
        }
        self.nodes.move_from(page, at, to)?;
        Ok(())
    }

    /// Adds tags to those of a page, however many there are. With want of memory nothing changes.
    pub fn put_page(&mut self, page: Page, tags: &TagList) -> Mem<()>
        ensures ok { OnOk result (self.new ≡ with_tags self.old page.0 tags.now) }
        ensures err { OnErr result (self.new ≡ self.old) }
    {
        if tags.is_empty() {
            return Ok(());
        }
        let copies = tags.copy()?.into_vec();
        self.nodes.open_all(page, copies.as_slice())?;
        self.nodes.put_all(page, copies);
        Ok(())
    }

    /// The least transaction but `own` that has a tag on this key of a page. It takes no memory.
    pub fn conflict(&self, page: Page, key: &Key, own: Txn) -> Option<Txn>
        ensures { result ≡ conflict self.now page.0 key.now own }
    {
        self.nodes.other(page, key, own)
    }

    /// The least tag on a page, by key and then by transaction, of another writer than `own`. It takes no memory.
    pub fn foreign(&self, page: Page, own: Writer) -> Option<&Tag>
        ensures { option_copied result ≡ foreign self.now page.0 own.0 }
    {
        self.nodes.foreign(page, own)
    }
}
