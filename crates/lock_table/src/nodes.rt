//! The nodes of all tags, with their lists.
ghost use Rattle.std.specs.Prelude.{◌≡◌, ◌≢◌, ◌≤◌, ◌<◌, ◌^◌, IsSome, ℕ, Option, None, IfOk, length, ◌+◌, ◌++◌, ◌∷◌, [], List, Some, OnOk, OnErr, filter};
ghost use Rattle.std.specs.Option.{option_copied};
ghost use Rattle.slab.specs.Slab as slab;
ghost use Rattle.std.specs.List.{AllByRecursion};
ghost use Rattle.slab.specs.Slab.{ContainsKey, HasRoomFor};
ghost use Rattle.std.specs.FinMap as map;
ghost use Rattle.std.specs.Map.{lookup};
ghost use Rattle.lock_table.specs.Tags.{is_on_key, same_txn, PageTag, tag_of, page_tag};
ghost use Rattle.lock_table.specs.declared.node.Side.TheVariants as side;
ghost use Rattle.lock_table.specs.Putting.{HasPlace, IsReady, Grows, Stays, HavePut};
ghost use Rattle.lock_table.specs.Moving.{to_page, Moves, HaveMoved};
ghost use Rattle.lock_table.specs.Inside.{copies, foreign_in, other_in, least, head_of, IsLinked, Entry, Stand, IsList, tag_in, tag_at, link_at, head_in, kept, shorter, gap_of, upto, from, on, of, Ascend, IsOrder, Lacks, IsOpen, IsSame, is_tag, at_place, unlinked, joined};

use crate::heads::{Head, PageHeads, TxnHeads};
use crate::node::{Link, Node, Side, rejoin, settle};
use crate::orders::Orders;
use crate::seek::{compare, enter, gap_in, strike};
use slab::Slab;
use std::alloc::Global;
use std::marker::Brand;
use std::sync::ledger::{Blank, Ledger};
use tm_base::{Key, Mem, NoMemory, Page, Steps, Tag, TagList, TryCopy, Txn, Writer};

/// All tags, each a node of the slab, which stands in the list of its page and in that of its transaction.
#[derive(Drop)]
pub(crate) struct Nodes {
    slab: Slab<Node>,
    pages: PageHeads,
    txns: TxnHeads,
    orders: Orders,
}

// A list of more tags takes no further one: no memory has room for so many.
const MOST: usize = usize::MAX - 1;

// No transaction is below it.
const LEAST: Txn = Txn {
    writer: Writer(0),
    number: 0,
};

/// The head of a list, also of one that isn't there.
fn or_empty(head: Option<Head>) -> Head
    ensures { result ≡ head_in head }
{
    match head {
        Some(head) => head,
        None => Head {
            first: None,
            count: 0,
        },
    }
}

/// The gap of a list in front of the first tag that isn't below this one.
fn gap(nodes: &Slab<Node>, side: Side, head: Head, page: Page, key: &Key, txn: Txn) -> Link
    ensures { (es : List Entry) → IsList (link_at side nodes.now) head es → AllByRecursion (λ e. tag_at nodes.now e.0 ≡ Some e.1) es
        → result ≡ gap_of (upto (page_tag page.0 key.now txn) es) (from (page_tag page.0 key.now txn) es) }
{
    let mut prev = None;
    let mut next = head.first;
    for _ in 0..head.count {
        let Some(at) = next else {
            return Link { prev, next };
        };
        let Some(node) = nodes.get(at) else {
            return Link { prev, next };
        };
        if compare(node, page, key, txn).is_ge() {
            return Link { prev, next };
        }
        prev = next;
        next = node.link(side).next;
    }
    Link { prev, next }
}

/// The first other transaction with a tag on a key, from a place on. At most two nodes are looked at: a
/// transaction has one tag on a key.
fn other_from(
    nodes: &Slab<Node>,
    start: Option<usize>,
    most: usize,
    page: Page,
    key: &Key,
    own: Txn,
) -> Option<Txn>
    ensures { (prev : Option ℕ) (es : List Entry) → IsLinked (link_at side.Page nodes.now) prev es None → start ≡ head_of es None → AllByRecursion (λ e. tag_at nodes.now e.0 ≡ Some e.1) es → length es ≤ most
        → result ≡ other_in page.0 key.now own es }
{
    let mut next = start;
    for _ in 0..most {
        let Some(at) = next else {
            return None;
        };
        let Some(node) = nodes.get(at) else {
            return None;
        };
        if !is_on_key(node, page, key) {
            return None;
        }
        if node.tag.txn != own {
            return Some(node.tag.txn);
        }
        next = node.on_page.next;
    }
    None
}

/// Whether the tag of a node is on this key of this page.
fn is_on_key(node: &Node, page: Page, key: &Key) -> bool
    ensures { result ≡ is_on_key page.0 key.now (tag_in node.now) }
{
    node.page == page && node.tag.key == *key
}

impl Nodes {
    /// No tags.
    pub(crate) fn new(alloc: Global) -> Nodes
        ensures { Stand result [] }
    {
        Nodes {
            slab: Slab::new(alloc),
            pages: PageHeads::new(alloc),
            txns: TxnHeads::new(alloc),
            orders: Orders::new(alloc),
        }
    }

    /// The first node on a page.
    pub(crate) fn first_on(&self, page: Page) -> Option<usize>
        ensures { result ≡ (head_in (map.get self.now.pages page.0)).first }
    {
        or_empty(self.pages.get(page.0)).first
    }

    /// How many nodes a page has.
    pub(crate) fn count_on(&self, page: Page) -> usize
        ensures { result ≡ (head_in (map.get self.now.pages page.0)).count }
    {
        or_empty(self.pages.get(page.0)).count
    }

    /// The first node of a transaction.
    pub(crate) fn first_of(&self, txn: Txn) -> Option<usize>
        ensures { result ≡ (head_in (map.get self.now.txns txn)).first }
    {
        or_empty(self.txns.get(txn)).first
    }

    /// Where a tag has its place in the list of its page: in front of the first one that isn't below it.
    pub(crate) fn place(&self, page: Page, key: &Key, txn: Txn) -> Link
        ensures { (es : List Entry) → Stand self.now es
            → result ≡ gap_of (upto (page_tag page.0 key.now txn) (filter (on page.0) es)) (from (page_tag page.0 key.now txn) (filter (on page.0) es)) }
    {
        let Some(order) = self.orders.pages.get(page.0) else {
            let head = or_empty(self.pages.get(page.0));
            return gap(&self.slab, Side::Page, head, page, key, txn);
        };
        gap_in(&self.slab, order.as_slice(), page, key, txn)
    }

    /// Where a tag has its place in the list of its transaction: in front of the first one that isn't below it.
    fn place_of(&self, page: Page, key: &Key, txn: Txn) -> Link
        ensures { (es : List Entry) → Stand self.now es
            → result ≡ gap_of (upto (page_tag page.0 key.now txn) (filter (of txn) es)) (from (page_tag page.0 key.now txn) (filter (of txn) es)) }
    {
        let Some(order) = self.orders.txns.get(txn) else {
            let head = or_empty(self.txns.get(txn));
            return gap(&self.slab, Side::Txn, head, page, key, txn);
        };
        gap_in(&self.slab, order.as_slice(), page, key, txn)
    }

    /// Drops the order of a page, whose nodes all go: no node is looked for there any more.
    pub(crate) fn forget(&mut self, page: Page)
        ensures { IsSame self.old self.new }
    {
        self.orders.pages.forget(page.0);
    }

    /// Drops the order of a transaction, whose nodes all go.
    pub(crate) fn forget_of(&mut self, txn: Txn)
        ensures { IsSame self.old self.new }
    {
        self.orders.txns.forget(txn);
    }

    /// The first tag of another writer on a page.
    pub(crate) fn foreign(&self, page: Page, own: Writer) -> Option<&Tag>
        ensures { (es : List Entry) → Stand self.now es → option_copied result ≡ foreign_in own.0 (filter (on page.0) es) }
    {
        let head = or_empty(self.pages.get(page.0));
        let mut next = head.first;
        for _ in 0..head.count {
            let Some(at) = next else {
                return None;
            };
            let Some(node) = self.slab.get(at) else {
                return None;
            };
            if node.tag.txn.writer != own {
                return Some(&node.tag);
            }
            next = node.on_page.next;
        }
        None
    }

    /// Copies of the tags on a page, in order.
    pub(crate) fn copies_on(&self, alloc: Global, page: Page) -> Mem<TagList>
        ensures { (es : List Entry) → Stand self.now es → IfOk result (λ tags. tags ≡ copies (filter (on page.0) es)) }
    {
        let head = or_empty(self.pages.get(page.0));
        let mut tags = TagList::new(alloc);
        let mut next = head.first;
        for _ in 0..head.count {
            let Some(at) = next else {
                return Ok(tags);
            };
            let Some(node) = self.slab.get(at) else {
                return Ok(tags);
            };
            tags.push(node.tag.copy()?)?;
            next = node.on_page.next;
        }
        Ok(tags)
    }

    /// The first other transaction with a tag on a key.
    pub(crate) fn other(&self, page: Page, key: &Key, own: Txn) -> Option<Txn>
        ensures { (es : List Entry) → Stand self.now es → result ≡ other_in page.0 key.now own (from (page_tag page.0 key.now least) (filter (on page.0) es)) }
    {
        let head = or_empty(self.pages.get(page.0));
        let place = self.place(page, key, LEAST);
        other_from(&self.slab, place.next, head.count, page, key, own)
    }

    /// Whether the tag at a place is this one.
    pub(crate) fn holds(&self, at: Option<usize>, page: Page, key: &Key, txn: Txn) -> bool
        ensures { result ≡ is_tag (page_tag page.0 key.now txn) (at_place self.now.slab at) }
    {
        let Some(at) = at else {
            return false;
        };
        let Some(node) = self.slab.get(at) else {
            return false;
        };
        compare(node, page, key, txn).is_eq()
    }

    /// Makes room for one more tag of a transaction on a page. With want of memory nothing changes.
    pub(crate) fn open(&mut self, page: Page, txn: Txn) -> Mem<()>
        ensures same { IsSame self.old self.new }
        ensures ok { OnOk result (IsOpen self.new page.0 txn) }
    {
        let before = self.pages.get(page.0);
        let page_head = or_empty(before);
        let txn_head = or_empty(self.txns.get(txn));
        if page_head.count > MOST || txn_head.count > MOST {
            return Err(NoMemory);
        }
        self.slab.reserve(1)?;
        self.pages.put(page.0, page_head)?;
        let Ok(_) = self.txns.put(txn, txn_head) else {
            if let None = before {
                self.pages.remove(page.0);
            }
            return Err(NoMemory);
        };
        Ok(())
    }

    /// What stands before and behind a node on its page and of its transaction is linked past it, and its page's
    /// list is shorter.
    fn unlink(&mut self, page: Page, on_page: Link, of_txn: Link)
        ensures { self.new ≡ unlinked self.old page.0 on_page of_txn }
    {
        rejoin(&mut self.slab, Side::Page, on_page, on_page);
        rejoin(&mut self.slab, Side::Txn, of_txn, of_txn);
        self.pages.shorten(page.0, on_page);
    }

    /// What stands before and behind these gaps is linked to a node, and its page's list, which has a head, is longer.
    fn join(&mut self, key: usize, page: Page, on_page: Link, of_txn: Link)
        requires there { IsSome (map.get self.old.pages page.0) }
        requires fits { (head_in (map.get self.old.pages page.0)).count + 1 < 2 ^ 64 }
        ensures { self.new ≡ joined self.old key page.0 on_page of_txn }
    {
        let head = or_empty(self.pages.get(page.0));
        let link = Link {
            prev: Some(key),
            next: Some(key),
        };
        rejoin(&mut self.slab, Side::Page, on_page, link);
        rejoin(&mut self.slab, Side::Txn, of_txn, link);
        self.pages.set(page.0, head.with(key, on_page));
    }

    /// The gap for the tag of a node, on another page, among the transaction's tags in the list of a head.
    fn gap_for(&self, key: usize, head: Head, page: Page) -> Link
        ensures { (n : Node) (es : List Entry) → slab.get self.now.slab key ≡ Some n → IsList (link_at side.Txn self.now.slab) head es
            → AllByRecursion (λ e. tag_at self.now.slab e.0 ≡ Some e.1) es → Ascend es → IsOrder (lookup (same_txn n.tag.txn) self.now.orders.txns) es
            → result ≡ gap_of (upto (page_tag page.0 n.tag.key n.tag.txn) es) (from (page_tag page.0 n.tag.key n.tag.txn) es) }
    {
        let Some(node) = self.slab.get(key) else {
            return Link {
                prev: None,
                next: None,
            };
        };
        let (key, txn) = (&node.tag.key, node.tag.txn);
        let Some(order) = self.orders.txns.get(txn) else {
            return gap(&self.slab, Side::Txn, head, page, key, txn);
        };
        gap_in(&self.slab, order.as_slice(), page, key, txn)
    }

    /// Moves a node to its place on another page, where no tag is like it and whose list has a head. It takes no
    /// memory.
    fn settle_on(&mut self, key: usize, to: Page, on_page: Link)
        requires there { IsSome (map.get self.old.pages to.0) }
        requires fits { (head_in (map.get self.old.pages to.0)).count + 1 < 2 ^ 64 }
        requires apart { (t : PageTag) → tag_at self.old.slab key ≡ Some t → to.0 ≢ t.page }
        ensures there { IsSome (map.get self.new.pages to.0) }
        ensures count { (head_in (map.get self.new.pages to.0)).count ≤ (head_in (map.get self.old.pages to.0)).count + 1 }
        ensures moved { (xs ys : List Entry) (t : PageTag) → Stand self.old (xs ++ (key, t) ∷ ys)
            → on_page ≡ gap_of (upto (to_page to.0 t) (filter (on to.0) (xs ++ ys))) (from (to_page to.0 t) (filter (on to.0) (xs ++ ys)))
            → Lacks (to_page to.0 t) (xs ++ ys)
            → Stand self.new (upto (to_page to.0 t) (xs ++ ys) ++ (key, to_page to.0 t) ∷ from (to_page to.0 t) (xs ++ ys)) }
    {
        let Some(node) = self.slab.get(key) else {
            return;
        };
        let (page, txn, was_on, was_of) = (node.page, node.tag.txn, node.on_page, node.of_txn);
        let Some(txn_head) = self.txns.get(txn) else {
            return;
        };
        self.unlink(page, was_on, was_of);
        strike(&mut self.orders, &self.slab, key);
        let rest = or_empty(txn_head.without(was_of));
        let of_txn = self.gap_for(key, rest, to);
        settle(&mut self.slab, key, to, on_page, of_txn);
        enter(&mut self.orders, &self.slab, key, on_page, of_txn);
        self.join(key, to, on_page, of_txn);
        self.txns.set(txn, rest.with(key, of_txn));
    }

    /// Takes out a node that counts in no ledger of a caller's: one that was to stand where one like it stands, so
    /// that no tag is lost, or one whose tag is taken back.
    pub(crate) fn withdraw<L: Ledger>(&mut self, key: usize, blank: Blank)
        requires held { ContainsKey self.old.slab key }
        requires ledger { (blank.name ≡ L.name) × (blank.parts ≡ L.parts) × (1 ≤ blank.parts) }
        ensures removed { (xs ys : List Entry) (t : PageTag) → Stand self.old (xs ++ (key, t) ∷ ys) → Stand self.new (xs ++ ys) }
        ensures others { (p : ℕ) → (t : PageTag) → tag_at self.old.slab key ≡ Some t → p ≢ t.page → map.get self.new.pages p ≡ map.get self.old.pages p }
    {
        let mut steps = Steps::<L>::new(blank);
        self.remove(key, &mut steps);
    }

    /// Moves a node to another page, and tells which node followed it on its own. Where a tag like it stands there
    /// already, the node goes. It takes no memory.
    fn move_node(&mut self, key: usize, to: Page) -> Option<usize>
        requires there { IsSome (map.get self.old.pages to.0) }
        requires fits { (head_in (map.get self.old.pages to.0)).count + 1 < 2 ^ 64 }
        ensures there { IsSome (map.get self.new.pages to.0) }
        ensures count { (head_in (map.get self.new.pages to.0)).count ≤ (head_in (map.get self.old.pages to.0)).count + 1 }
        ensures moved { (xs ys : List Entry) (t : PageTag) → Stand self.old (xs ++ (key, t) ∷ ys) → to.0 ≢ t.page
            → (result ≡ head_of (filter (on t.page) ys) None) × Moves key to.0 t (xs ++ ys) self.new }
    {
        let Some(node) = self.slab.get(key) else {
            return None;
        };
        if node.page == to {
            return None;
        }
        let (txn, next) = (node.tag.txn, node.on_page.next);
        let place = self.place(to, &node.tag.key, txn);
        if self.holds(place.next, to, &node.tag.key, txn) {
            self.withdraw::<Brand>(key, Blank::new(1));
            return next;
        }
        self.settle_on(key, to, place);
        next
    }

    /// Makes room for the head of a page's list, to which so many tags may come. With want of memory nothing changes.
    fn open_page(&mut self, page: Page, more: usize) -> Mem<()>
        ensures same { IsSame self.old self.new }
        ensures there { OnOk result (IsSome (map.get self.new.pages page.0)) }
        ensures fits { OnOk result ((head_in (map.get self.new.pages page.0)).count + more < 2 ^ 64) }
    {
        let head = or_empty(self.pages.get(page.0));
        if head.count > usize::MAX - more {
            return Err(NoMemory);
        }
        self.pages.put(page.0, head)?;
        Ok(())
    }

    /// Moves the tags of a page whose keys are at `at` or above to another page. With want of memory nothing changes.
    pub(crate) fn move_from(&mut self, page: Page, at: &Key, to: Page) -> Mem<()>
        requires { to.0 ≢ page.0 }
        ensures moved { OnOk result ((es : List Entry) → Stand self.old es → HaveMoved page.0 at.now to.0 es self.new) }
        ensures err { OnErr result (IsSame self.old self.new) }
    {
        let mut next = self.place(page, at, LEAST).next;
        if next.is_none() {
            return Ok(());
        }
        let most = self.count_on(page);
        self.open_page(to, most)?;
        for _ in 0..most {
            let Some(key) = next else {
                return Ok(());
            };
            next = self.move_node(key, to);
        }
        Ok(())
    }

    /// Puts a tag that isn't there into its place, for which there is room.
    pub(crate) fn insert(&mut self, page: Page, tag: Tag, on_page: Link)
        requires { IsOpen self.old page.0 tag.txn }
        ensures stand { (es : List Entry) → Stand self.old es
            → on_page ≡ gap_of (upto (page_tag page.0 tag.key tag.txn) (filter (on page.0) es)) (from (page_tag page.0 tag.key tag.txn) (filter (on page.0) es))
            → Lacks (page_tag page.0 tag.key tag.txn) es
            → Stand self.new (upto (page_tag page.0 tag.key tag.txn) es ++ (self.old.slab.vacant_key, page_tag page.0 tag.key tag.txn) ∷ from (page_tag page.0 tag.key tag.txn) es) }
        ensures room { (more : ℕ) → HasRoomFor self.old.slab (more + 1) → HasRoomFor self.new.slab more }
        ensures pages { (p : ℕ) → Grows (map.get self.old.pages p) (map.get self.new.pages p) }
        ensures txns { (x : Txn) → Grows (map.get self.old.txns x) (map.get self.new.txns x) }
    {
        let txn = tag.txn;
        let txn_head = or_empty(self.txns.get(txn));
        let of_txn = self.place_of(page, &tag.key, txn);
        let key = self.slab.insert_reserved(Node {
            page,
            tag,
            on_page,
            of_txn,
        });
        enter(&mut self.orders, &self.slab, key, on_page, of_txn);
        self.join(key, page, on_page, of_txn);
        self.txns.set(txn, txn_head.with(key, of_txn));
    }

    /// Puts a tag into its place on a page, for which there is room, unless it is there. It takes no memory.
    fn put(&mut self, page: Page, tag: Tag)
        requires { IsOpen self.old page.0 tag.txn }
        ensures put { (es : List Entry) → Stand self.old es → HavePut page.0 (tag ∷ []) es self.new }
        ensures room { (more : ℕ) → HasRoomFor self.old.slab (more + 1) → HasRoomFor self.new.slab more }
        ensures pages { (p : ℕ) → Grows (map.get self.old.pages p) (map.get self.new.pages p) }
        ensures txns { (x : Txn) → Grows (map.get self.old.txns x) (map.get self.new.txns x) }
    {
        let place = self.place(page, &tag.key, tag.txn);
        if self.holds(place.next, page, &tag.key, tag.txn) {
            return;
        }
        self.insert(page, tag, place);
    }

    /// Puts tags into their places on a page, for which there is room, but those that are there. It takes no memory.
    pub(crate) fn put_all(&mut self, page: Page, tags: Vec<Tag>)
        requires { IsReady self.old page.0 (length tags.items) tags.items }
        ensures { (es : List Entry) → Stand self.old es → HavePut page.0 tags.items es self.new }
    {
        let mut rest = tags;
        while let Some(tag) = rest.pop() {
            self.put(page, tag);
        }
    }

    /// Makes room for the head of a transaction's list, to which so many tags may come.
    fn open_txn(&mut self, txn: Txn, more: usize) -> Mem<()>
        ensures rest { (self.new.slab ≡ self.old.slab) × (self.new.pages ≡ self.old.pages) × (self.new.orders ≡ self.old.orders) }
        ensures same { (x : Txn) → Stays (map.get self.old.txns x) (map.get self.new.txns x) }
        ensures ok { OnOk result (HasPlace more (map.get self.new.txns txn)) }
    {
        let head = or_empty(self.txns.get(txn));
        if head.count > usize::MAX - more {
            return Err(NoMemory);
        }
        let Ok(_) = self.txns.put(txn, head) else {
            return Err(NoMemory);
        };
        Ok(())
    }

    /// Makes room for tags on a page: for their nodes, and for the heads of all lists. With want of memory nothing
    /// changes but that empty lists may have a head.
    pub(crate) fn open_all(&mut self, page: Page, tags: &[Tag]) -> Mem<()>
        ensures same { IsSame self.old self.new }
        ensures ok { OnOk result (IsReady self.new page.0 (length tags.now) tags.now) }
    {
        self.open_page(page, tags.len())?;
        self.slab.reserve(tags.len())?;
        for tag in tags {
            self.open_txn(tag.txn, tags.len())?;
        }
        Ok(())
    }

    /// Takes a node out of both of its lists and out of the slab, which is one step.
    pub(crate) fn remove<L: Ledger>(&mut self, key: usize, steps: &mut Steps<L>) -> Tag
        requires { ContainsKey self.old.slab key }
        ensures step { steps.new ≡ steps.old + 1 }
        ensures removed { (xs ys : List Entry) (t : PageTag) → Stand self.old (xs ++ (key, t) ∷ ys) → (result ≡ tag_of t) × Stand self.new (xs ++ ys) }
        ensures others { (p : ℕ) → (t : PageTag) → tag_at self.old.slab key ≡ Some t → p ≢ t.page → map.get self.new.pages p ≡ map.get self.old.pages p }
    {
        strike(&mut self.orders, &self.slab, key);
        let node = self.slab.remove(key);
        self.unlink(node.page, node.on_page, node.of_txn);
        self.txns.shorten(node.tag.txn, node.of_txn);
        steps.tick();
        node.tag
    }
}
