//! The place of a tag among those of a list, by halving.
ghost use Rattle.std.specs.Prelude.{◌≡◌, ◌≤◌, ◌++◌, ◌∷◌, List, Bool, true, Some, length, filter};
ghost use Rattle.std.specs.List.{AllByRecursion};
ghost use Rattle.std.specs.Ordering.{is_lt};
ghost use Rattle.lock_table.specs.Tags.{PageTag, tag_cmp, page_tag};
ghost use Rattle.lock_table.specs.Inside.{Entry, Ascend, AreOrdered, IsOrder, KeepsOthers, places, tag_in, tag_at, gap_of, upto, from, by, on, of};
ghost use Rattle.std.specs.Map.{lookup};

use crate::node::{Link, Node};
use crate::orders::{OrderMap, Orders};
use slab::Slab;
use std::cmp::{Eq, Ordering};
use std::hash::Hash;
use tm_base::{Key, Page, Txn};

/// How the tag of a node compares with this one: by page, then by key, then by transaction.
pub(crate) fn compare(node: &Node, page: Page, key: &Key, txn: Txn) -> Ordering
    ensures { result ≡ tag_cmp (tag_in node.now) (page_tag page.0 key.now txn) }
{
    let by_key = node.tag.key.cmp(key).then(node.tag.txn.cmp(&txn));
    node.page.cmp(&page).then(by_key)
}

/// Whether the tag of the node at a place is below this one.
fn is_below(nodes: &Slab<Node>, at: usize, page: Page, key: &Key, txn: Txn) -> bool
    ensures { (t : PageTag) → tag_at nodes.now at ≡ Some t → result ≡ is_lt (tag_cmp t (page_tag page.0 key.now txn)) }
{
    match nodes.get(at) {
        Some(node) => compare(node, page, key, txn).is_lt(),
        None => false,
    }
}

/// How many of the tags of an order are below this one.
fn below(nodes: &Slab<Node>, order: &[usize], page: Page, key: &Key, txn: Txn) -> usize
    ensures count { (es : List Entry) → order.now ≡ places es → Ascend es → AllByRecursion (λ e. tag_at nodes.now e.0 ≡ Some e.1) es
        → result ≡ length (upto (page_tag page.0 key.now txn) es) }
    ensures within { result ≤ length order.now }
{
    let mut low = 0;
    let mut high = order.len();
    while low < high {
        let middle = low + (high - low) / 2;
        if is_below(nodes, order[middle], page, key, txn) {
            low = middle + 1;
        } else {
            high = middle;
        }
    }
    low
}

/// The gap of an order in front of the first tag that isn't below this one.
pub(crate) fn gap_in(nodes: &Slab<Node>, order: &[usize], page: Page, key: &Key, txn: Txn) -> Link
    ensures { (es : List Entry) → order.now ≡ places es → Ascend es → AllByRecursion (λ e. tag_at nodes.now e.0 ≡ Some e.1) es
        → result ≡ gap_of (upto (page_tag page.0 key.now txn) es) (from (page_tag page.0 key.now txn) es) }
{
    let at = below(nodes, order, page, key, txn);
    let next = order.get(at).copied();
    if at == 0 {
        return Link { prev: None, next };
    }
    Link {
        prev: order.get(at - 1).copied(),
        next,
    }
}

/// A node that comes into a gap of a list comes into the list's order. The first of a list begins it.
fn enter_list<K: Eq + Hash + Copy>(
    orders: &mut OrderMap<K>,
    list: K,
    nodes: &Slab<Node>,
    key: usize,
    gap: Link,
)
    ensures here { (u : PageTag → Bool) (es : List Entry) (t : PageTag) → tag_at nodes.now key ≡ Some t → u t ≡ true → Ascend es → AllByRecursion (λ e. tag_at nodes.now e.0 ≡ Some e.1) es
        → gap ≡ gap_of (upto t (filter (by u) es)) (from t (filter (by u) es)) → IsOrder (lookup (K.eq list) orders.old) (filter (by u) es)
        → IsOrder (lookup (K.eq list) orders.new) (filter (by u) (upto t es ++ (key, t) ∷ from t es)) }
    ensures others { KeepsOthers K.eq orders.old orders.new list }
{
    let Some(node) = nodes.get(key) else {
        return;
    };
    let Some(order) = orders.get(list) else {
        if gap.is_all() {
            orders.begin(list, key);
        }
        return;
    };
    let at = below(
        nodes,
        order.as_slice(),
        node.page,
        &node.tag.key,
        node.tag.txn,
    );
    orders.insert(list, at, key);
}

/// A node that comes into these gaps of its lists comes into their orders.
pub(crate) fn enter(
    orders: &mut Orders,
    nodes: &Slab<Node>,
    key: usize,
    on_page: Link,
    of_txn: Link,
)
    ensures { (es : List Entry) (t : PageTag) → tag_at nodes.now key ≡ Some t → Ascend es → AllByRecursion (λ e. tag_at nodes.now e.0 ≡ Some e.1) es
        → on_page ≡ gap_of (upto t (filter (on t.page) es)) (from t (filter (on t.page) es)) → of_txn ≡ gap_of (upto t (filter (of t.txn) es)) (from t (filter (of t.txn) es))
        → AreOrdered orders.old es → AreOrdered orders.new (upto t es ++ (key, t) ∷ from t es) }
{
    let Some(node) = nodes.get(key) else {
        return;
    };
    enter_list(&mut orders.pages, node.page.0, nodes, key, on_page);
    enter_list(&mut orders.txns, node.tag.txn, nodes, key, of_txn);
}

/// A node that leaves a list leaves the list's order.
fn strike_list<K: Eq + Hash + Copy>(
    orders: &mut OrderMap<K>,
    list: K,
    nodes: &Slab<Node>,
    key: usize,
)
    ensures here { (u : PageTag → Bool) (xs ys : List Entry) (t : PageTag) → u t ≡ true → Ascend (xs ++ (key, t) ∷ ys) → AllByRecursion (λ e. tag_at nodes.now e.0 ≡ Some e.1) (xs ++ (key, t) ∷ ys)
        → IsOrder (lookup (K.eq list) orders.old) (filter (by u) (xs ++ (key, t) ∷ ys)) → IsOrder (lookup (K.eq list) orders.new) (filter (by u) (xs ++ ys)) }
    ensures others { KeepsOthers K.eq orders.old orders.new list }
{
    let Some(node) = nodes.get(key) else {
        return;
    };
    let Some(order) = orders.get(list) else {
        return;
    };
    let at = below(
        nodes,
        order.as_slice(),
        node.page,
        &node.tag.key,
        node.tag.txn,
    );
    orders.remove(list, at);
}

/// A node that leaves its lists leaves their orders.
pub(crate) fn strike(orders: &mut Orders, nodes: &Slab<Node>, key: usize)
    ensures { (xs ys : List Entry) (t : PageTag) → Ascend (xs ++ (key, t) ∷ ys) → AllByRecursion (λ e. tag_at nodes.now e.0 ≡ Some e.1) (xs ++ (key, t) ∷ ys)
        → AreOrdered orders.old (xs ++ (key, t) ∷ ys) → AreOrdered orders.new (xs ++ ys) }
{
    let Some(node) = nodes.get(key) else {
        return;
    };
    strike_list(&mut orders.pages, node.page.0, nodes, key);
    strike_list(&mut orders.txns, node.tag.txn, nodes, key);
}
