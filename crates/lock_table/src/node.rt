//! The nodes of the lists, and how they are linked.
ghost use Rattle.std.specs.Prelude.{◌≡◌};
ghost use Rattle.slab.specs.Slab.{get};
ghost use Rattle.lock_table.specs.Inside.{link_in, with_next, with_prev, rejoined, changed, settled, is_all};

use slab::Slab;
use tm_base::{Page, Tag};

/// The neighbours of a node in a list, by their places in the slab.
#[derive(Clone, Copy)]
pub(crate) struct Link {
    pub(crate) prev: Option<usize>,
    pub(crate) next: Option<usize>,
}

impl Link {
    /// Whether nothing stands before this gap or behind it.
    pub(crate) fn is_all(self) -> bool
        ensures { result ≡ is_all self }
    {
        self.prev.is_none() && self.next.is_none()
    }
}

/// A tag on a page, in the list of its page and in that of its transaction.
#[derive(Drop)]
pub(crate) struct Node {
    pub(crate) page: Page,
    pub(crate) tag: Tag,
    pub(crate) on_page: Link,
    pub(crate) of_txn: Link,
}

/// Which of the two lists of a node.
#[derive(Clone, Copy)]
pub(crate) enum Side {
    Page,
    Txn,
}

impl Node {
    /// The neighbours on one of the lists.
    pub(crate) fn link(&self, side: Side) -> Link
        ensures { result ≡ link_in side self.now }
    {
        match side {
            Side::Page => self.on_page,
            Side::Txn => self.of_txn,
        }
    }
}

/// The node at a place, if there is one, is followed by this one.
fn set_next(nodes: &mut Slab<Node>, side: Side, at: Option<usize>, next: Option<usize>)
    ensures { nodes.new ≡ with_next side nodes.old at next }
{
    if let Some(key) = at {
        if let Some(node) = nodes.get_mut(key) {
            match side {
                Side::Page => node.on_page.next = next,
                Side::Txn => node.of_txn.next = next,
            }
        }
    }
}

/// The node at a place, if there is one, follows this one.
fn set_prev(nodes: &mut Slab<Node>, side: Side, at: Option<usize>, prev: Option<usize>)
    ensures { nodes.new ≡ with_prev side nodes.old at prev }
{
    if let Some(key) = at {
        if let Some(node) = nodes.get_mut(key) {
            match side {
                Side::Page => node.on_page.prev = prev,
                Side::Txn => node.of_txn.prev = prev,
            }
        }
    }
}

/// What stands before and behind a gap of a list is linked to `next` and `prev`.
pub(crate) fn rejoin(nodes: &mut Slab<Node>, side: Side, gap: Link, link: Link)
    ensures { nodes.new ≡ rejoined side nodes.old gap link }
{
    set_next(nodes, side, gap.prev, link.next);
    set_prev(nodes, side, gap.next, link.prev);
}

/// The node at a place, if there is one, stands on another page, in these gaps.
pub(crate) fn settle(nodes: &mut Slab<Node>, at: usize, page: Page, on_page: Link, of_txn: Link)
    ensures { nodes.new ≡ changed nodes.old at (settled page on_page of_txn) (get nodes.old at) }
{
    if let Some(node) = nodes.get_mut(at) {
        node.page = page;
        node.on_page = on_page;
        node.of_txn = of_txn;
    }
}
