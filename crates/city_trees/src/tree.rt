//! A persistent sequence in a balanced tree.
ghost use Rattle.std.specs.Prelude.{◌≡◌, ◌∷◌, ◌++◌, ◌+◌, ◌<◌, ◌≤◌, ◌==◌, [], length, take, drop, slice_get, IfOk};
ghost use Rattle.std.specs.Prelude.{◌-◌};
ghost use Rattle.std.specs.Option.{option_copied};
ghost use Rattle.city_trees.specs.Shapes.{shape_items, HasParts};

use crate::OutOfMemory;
use crate::branch::{parted, settled};
use crate::built::taken_off;
use crate::item::Item;
use crate::leaf::{LEAF_LENGTH, leaf_of, owned, with_item, with_other};
use std::alloc::Global;
use std::marker::Model;
use std::sync::Arc;

/// A sequence of items. A copy shares them, and a change copies only the nodes on the way to its
/// place, or none that no other tree holds.
#[cycle(tree)]
#[derive(Drop)]
pub struct Tree<E> {
    pub(crate) count: usize,
    /// Branches on the longest way down. Only the time of a call may depend on it.
    pub(crate) height: u8,
    pub(crate) node: Node<E>,
}

#[cycle(tree)]
#[derive(Drop)]
pub(crate) enum Node<E> {
    Empty,
    Leaf(Arc<Vec<Item<E>>>),
    Branch(Arc<Pair<E>>),
}

/// The two sides of a branch.
#[cycle(tree)]
#[derive(Drop)]
pub(crate) struct Pair<E> {
    pub(crate) left: Tree<E>,
    pub(crate) right: Tree<E>,
}

/// What a tree is made of.
pub enum Shape<'a, E> {
    /// All items.
    Leaf(&'a [Item<E>]),
    /// The trees of the first items and of the others. Each has some.
    Sides(&'a Tree<E>, &'a Tree<E>),
}

impl<E> Model for Tree<E> {
    ghost use Rattle.std.specs.Prelude.{◌≡◌, List, length};

    ghost Value = { List E };

    ghost use Rattle.city_trees.specs.internal.Nodes.{items_of, IsFilled};

    ghost view = { λ t. items_of t.node };

    ghost invariant = { λ t. (t.count ≡ length (items_of t.node)) × IsFilled t.node };

    ghost size = { length };

    ghost use Rattle.std.proofs.Common.{arith, length-append};

    ghost size_decreases = { λ a h. Prim.grind (arith, length-append) };
}

impl<E> Tree<E> {
    /// No items. Doesn't allocate.
    pub fn new() -> Self
        ensures { result ≡ [] }
    {
        Tree {
            count: 0,
            height: 0,
            node: Node::Empty,
        }
    }

    /// The tree of a vector's items. Takes them over. Fails only when out of memory.
    pub fn from_vec(alloc: Global, items: Vec<Item<E>>) -> Result<Self, OutOfMemory>
    where
        E: Drop,
        ensures { IfOk result (λ tree. tree ≡ items.items) }
    {
        if items.len() <= LEAF_LENGTH {
            return leaf_of(alloc, items);
        }
        let mut left = items;
        let count = left.len();
        let tree = taken_off(alloc, &mut left, count)?;
        Ok(tree)
    }

    /// How many items there are. Doesn't allocate.
    pub fn len(&self) -> usize
        ensures { result ≡ length self.now }
    {
        self.count
    }

    /// Whether there is no item. Doesn't allocate.
    pub fn is_empty(&self) -> bool
        ensures { result ≡ (length self.now == 0) }
    {
        self.count == 0
    }

    /// The items from a place on, up to the end of a leaf. Doesn't allocate.
    pub fn leaf_at(&self, at: usize) -> &[Item<E>]
        ensures items { result.now ≡ take (length result.now) (drop at self.now) }
        ensures some { at < length self.now → 0 < length result.now }
    {
        match &self.node {
            Node::Empty => &[],
            Node::Leaf(items) => items.get(at..).unwrap_or(&[]),
            Node::Branch(pair) => {
                let Pair { left, right } = &**pair;
                let middle = left.len();
                if at < middle {
                    left.leaf_at(at)
                } else {
                    right.leaf_at(at - middle)
                }
            }
        }
    }

    /// The item at a place, if there is one. Doesn't allocate.
    pub fn get(&self, at: usize) -> Option<&Item<E>>
        ensures { option_copied result ≡ slice_get self.now at }
    {
        self.leaf_at(at).first()
    }

    /// The first item, if there is one. Doesn't allocate.
    pub fn first(&self) -> Option<&Item<E>>
        ensures { option_copied result ≡ slice_get self.now 0 }
    {
        self.get(0)
    }

    /// The last item, if there is one. Doesn't allocate.
    #[tactic(auto, using(std::proofs::lemmas::Option::slice_get_past))]
    pub fn last(&self) -> Option<&Item<E>>
        ensures { option_copied result ≡ slice_get self.now (length self.now - 1) }
    {
        match self.len().checked_sub(1) {
            Some(at) => self.get(at),
            None => None,
        }
    }

    /// The items, and one more at a place.
    pub fn with(self, alloc: Global, at: usize, item: Item<E>) -> Result<Self, OutOfMemory>
    where
        E: Drop,
        requires { at ≤ length self }
        ensures { IfOk result (λ tree. tree ≡ take at self ++ item ∷ drop at self) }
    {
        match self.node {
            Node::Empty => {
                let tree = one(alloc, item)?;
                Ok(tree)
            }
            Node::Leaf(items) => {
                let tree = with_item(alloc, items, at, item)?;
                Ok(tree)
            }
            Node::Branch(pair) => {
                let mut pair = pair;
                let Pair { left, right } = parted(&mut pair)?;
                let middle = left.len();
                if at < middle {
                    let left = left.with(alloc, at, item)?;
                    let tree = settled(alloc, pair, left, right)?;
                    Ok(tree)
                } else {
                    let right = right.with(alloc, at - middle, item)?;
                    let tree = settled(alloc, pair, left, right)?;
                    Ok(tree)
                }
            }
        }
    }

    /// The items, and one more at the end.
    pub fn push(self, alloc: Global, item: Item<E>) -> Result<Self, OutOfMemory>
    where
        E: Drop,
        ensures { IfOk result (λ tree. tree ≡ self ++ item ∷ []) }
    {
        let at = self.len();
        let tree = self.with(alloc, at, item)?;
        Ok(tree)
    }

    /// The items but the one at a place.
    pub fn without(self, alloc: Global, at: usize) -> Result<Self, OutOfMemory>
    where
        E: Drop,
        requires { at < length self }
        ensures { IfOk result (λ tree. tree ≡ take at self ++ drop (at + 1) self) }
    {
        match self.node {
            Node::Empty => Ok(Tree::new()),
            Node::Leaf(items) => {
                let mut items = owned(alloc, items)?;
                drop(items.remove(at));
                let tree = leaf_of(alloc, items)?;
                Ok(tree)
            }
            Node::Branch(pair) => {
                let mut pair = pair;
                let Pair { left, right } = parted(&mut pair)?;
                let middle = left.len();
                if at < middle {
                    let left = left.without(alloc, at)?;
                    let tree = settled(alloc, pair, left, right)?;
                    Ok(tree)
                } else {
                    let right = right.without(alloc, at - middle)?;
                    let tree = settled(alloc, pair, left, right)?;
                    Ok(tree)
                }
            }
        }
    }

    /// The items, with another in place of the one at a place.
    pub fn replaced(self, alloc: Global, at: usize, item: Item<E>) -> Result<Self, OutOfMemory>
    where
        E: Drop,
        requires { at < length self }
        ensures { IfOk result (λ tree. tree ≡ take at self ++ item ∷ drop (at + 1) self) }
    {
        match self.node {
            Node::Empty => Ok(Tree::new()),
            Node::Leaf(items) => {
                let tree = with_other(alloc, items, at, item)?;
                Ok(tree)
            }
            Node::Branch(pair) => {
                let mut pair = pair;
                let Pair { left, right } = parted(&mut pair)?;
                let middle = left.len();
                if at < middle {
                    let left = left.replaced(alloc, at, item)?;
                    let tree = settled(alloc, pair, left, right)?;
                    Ok(tree)
                } else {
                    let right = right.replaced(alloc, at - middle, item)?;
                    let tree = settled(alloc, pair, left, right)?;
                    Ok(tree)
                }
            }
        }
    }

    /// The items, or the two sides that they stand in. Doesn't allocate.
    ///
    /// By the first item of the right side, or the last one of the left, a search goes on in one of
    /// them: the sides are about as long.
    pub fn shape(&self) -> Shape<'_, E>
        ensures items { shape_items result ≡ self.now }
        ensures parts { HasParts result }
    {
        match &self.node {
            Node::Empty => Shape::Leaf(&[]),
            Node::Leaf(items) => Shape::Leaf(items.as_slice()),
            Node::Branch(pair) => {
                let Pair { left, right } = &**pair;
                Shape::Sides(left, right)
            }
        }
    }

    /// The same items, shared. Fails only when out of memory.
    pub fn copy(&self) -> Result<Self, OutOfMemory>
    where
        E: Drop,
        ensures { IfOk result (λ tree. tree ≡ self.now) }
    {
        let node = match &self.node {
            Node::Empty => Node::Empty,
            Node::Leaf(items) => Node::Leaf(items.clone()?),
            Node::Branch(pair) => Node::Branch(pair.clone()?),
        };
        Ok(Tree {
            count: self.count,
            height: self.height,
            node,
        })
    }
}

/// A tree of one item.
fn one<E>(alloc: Global, item: Item<E>) -> Result<Tree<E>, OutOfMemory>
where
    E: Drop,
    ensures { IfOk result (λ tree. tree ≡ item ∷ []) }
{
    let mut items = Vec::new(alloc);
    items.push(item)?;
    leaf_of(alloc, items)
}
