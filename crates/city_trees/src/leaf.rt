//! The items of a leaf.
ghost use Rattle.std.specs.Prelude.{◌≡◌, ◌∷◌, ◌++◌, ◌+◌, ◌<◌, ◌≤◌, length, take, drop, IfOk};
ghost use Rattle.std.specs.Arc.{arc_value};

use crate::OutOfMemory;
use crate::branch::branch;
use crate::item::Item;
use crate::tree::{Node, Tree};
use std::alloc::Global;
use std::sync::Arc;

/// So many items come into a leaf at most.
pub(crate) const LEAF_LENGTH: usize = 64;

/// Two leaves of one branch with so many items at most become one.
pub(crate) const JOINED_LENGTH: usize = 48;

/// The tree of a leaf. Doesn't allocate.
pub(crate) fn of_leaf<E>(items: Arc<Vec<Item<E>>>) -> Tree<E>
    ensures { result ≡ (arc_value items).items }
{
    Tree {
        count: items.len(),
        height: 0,
        node: Node::Leaf(items),
    }
}

/// The tree of one leaf, or none.
pub(crate) fn leaf_of<E: Drop>(alloc: Global, items: Vec<Item<E>>) -> Result<Tree<E>, OutOfMemory>
    ensures { IfOk result (λ tree. tree ≡ items.items) }
{
    if items.is_empty() {
        return Ok(Tree::new());
    }
    let items = Arc::new(alloc, items)?;
    Ok(of_leaf(items))
}

/// The items of a leaf: copies, if other trees hold it too.
pub(crate) fn owned<E: Drop>(
    alloc: Global,
    items: Arc<Vec<Item<E>>>,
) -> Result<Vec<Item<E>>, OutOfMemory>
    ensures { IfOk result (λ owned. owned.items ≡ (arc_value items).items) }
{
    match Arc::try_unwrap(items) {
        Ok(items) => Ok(items),
        Err(shared) => copies(alloc, shared.as_slice()),
    }
}

/// Copies of the items, with room for one more.
fn copies<E: Drop>(alloc: Global, items: &[Item<E>]) -> Result<Vec<Item<E>>, OutOfMemory>
    ensures { IfOk result (λ copies. copies.items ≡ items.now) }
{
    let mut copies = Vec::with_capacity(alloc, items.len().saturating_add(1))?;
    for item in items {
        copies.push(item.copy()?)?;
    }
    Ok(copies)
}

/// The items of a leaf, and one more at a place: in two leaves, if one is too small for them.
pub(crate) fn with_item<E: Drop>(
    alloc: Global,
    items: Arc<Vec<Item<E>>>,
    at: usize,
    item: Item<E>,
) -> Result<Tree<E>, OutOfMemory>
    requires { at ≤ length (arc_value items).items }
    ensures { IfOk result (λ tree. tree ≡ take at (arc_value items).items ++ item ∷ drop at (arc_value items).items) }
{
    let mut items = owned(alloc, items)?;
    if items.len() >= LEAF_LENGTH {
        return halves(alloc, items, at, item);
    }
    items.insert(at, item)?;
    leaf_of(alloc, items)
}

/// The items of a leaf, with another in place of the one at a place.
pub(crate) fn with_other<E: Drop>(
    alloc: Global,
    items: Arc<Vec<Item<E>>>,
    at: usize,
    item: Item<E>,
) -> Result<Tree<E>, OutOfMemory>
    requires { at < length (arc_value items).items }
    ensures { IfOk result (λ tree. tree
        ≡ take at (arc_value items).items ++ item ∷ drop (at + 1) (arc_value items).items) }
{
    let mut items = owned(alloc, items)?;
    put(items.as_mut_slice(), at, item);
    let tree = leaf_of(alloc, items)?;
    Ok(tree)
}

/// Puts an item into a place.
fn put<E: Drop>(items: &mut [Item<E>], at: usize, item: Item<E>)
    requires { at < length items.old }
    ensures { items.new ≡ take at items.old ++ item ∷ drop (at + 1) items.old }
{
    items[at] = item;
}

/// The items, and one more at a place, in two leaves.
fn halves<E: Drop>(
    alloc: Global,
    items: Vec<Item<E>>,
    at: usize,
    item: Item<E>,
) -> Result<Tree<E>, OutOfMemory>
    requires { at ≤ length items.items }
    ensures { IfOk result (λ tree. tree ≡ take at items.items ++ item ∷ drop at items.items) }
{
    let mut left = items;
    let middle = middle_for(left.len(), at);
    let mut right = left.split_off(middle)?;
    if at < middle {
        left.insert(at, item)?;
        let tree = two(alloc, left, right)?;
        return Ok(tree);
    }
    right.insert(at - middle, item)?;
    let tree = two(alloc, left, right)?;
    Ok(tree)
}

/// The tree of two leaves.
fn two<E: Drop>(
    alloc: Global,
    left: Vec<Item<E>>,
    right: Vec<Item<E>>,
) -> Result<Tree<E>, OutOfMemory>
    ensures { IfOk result (λ tree. tree ≡ left.items ++ right.items) }
{
    let left = leaf_of(alloc, left)?;
    let right = leaf_of(alloc, right)?;
    branch(alloc, left, right)
}

/// Where a leaf is cut in two for an item at a place: behind all, if the item comes there, so that
/// items that come one behind the other fill leaves.
fn middle_for(count: usize, at: usize) -> usize
    ensures { result ≤ count }
{
    if at >= count { count } else { count / 2 }
}
