//! The items of a tree, one by one.
ghost use Rattle.std.specs.Prelude.{◌≡◌, ◌++◌, [], drop};
ghost use Rattle.std.specs.Iterator.{YieldsFirstRef, item_count};
ghost use Rattle.city_trees.specs.Items.{items_left};

use crate::item::Item;
use crate::tree::Tree;

/// The items of a tree, in order. Doesn't allocate.
#[derive(Drop)]
pub struct Items<'a, E> {
    /// The items left of a leaf.
    pub(crate) slice: &'a [Item<E>],
    pub(crate) tree: &'a Tree<E>,
    /// Where the next leaf begins.
    pub(crate) at: usize,
}

impl<'a, E> Iterator for Items<'a, E> {
    type Item = &'a Item<E>;

    ghost next_gives = { YieldsFirstRef items_left };

    ghost remaining = { item_count items_left };

    fn next(&mut self) -> Option<&'a Item<E>> {
        if let Some((first, others)) = self.slice.split_first() {
            self.slice = others;
            return Some(first);
        }
        let (slice, at) = next_leaf(self.tree, self.at);
        let (first, others) = slice.split_first()?;
        self.slice = others;
        self.at = at;
        Some(first)
    }
}

/// The items of the leaf at a place, and where the next one begins.
fn next_leaf<E>(tree: &Tree<E>, at: usize) -> (&[Item<E>], usize)
    ensures items { result.0.now ++ drop result.1 tree.now ≡ drop at tree.now }
    ensures end { result.0.now ≡ [] → drop at tree.now ≡ [] }
{
    let slice = tree.leaf_at(at);
    let next = at.saturating_add(slice.len()).min(tree.len());
    (slice, next)
}

impl<E> Tree<E> {
    /// The items, in order. Doesn't allocate.
    pub fn iter(&self) -> Items<'_, E>
        ensures { items_left result ≡ self.now }
    {
        Items {
            slice: &[],
            tree: self,
            at: 0,
        }
    }
}
