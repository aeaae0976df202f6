//! The tree of a vector's items.
ghost use Rattle.std.specs.Prelude.{◌≡◌, ◌++◌, ◌≤◌, length, IfOk};

use crate::OutOfMemory;
use crate::branch::branch;
use crate::item::Item;
use crate::leaf::{LEAF_LENGTH, leaf_of};
use crate::tree::Tree;
use std::alloc::Global;

/// Takes so many items off the end of a vector, and makes a tree of them.
pub(crate) fn taken_off<E: Drop>(
    alloc: Global,
    items: &mut Vec<Item<E>>,
    count: usize,
) -> Result<Tree<E>, OutOfMemory>
    requires { count ≤ length items.old.items }
    ensures items { IfOk result (λ tree. items.old.items ≡ items.new.items ++ tree) }
    ensures count { IfOk result (λ tree. length tree ≡ count) }
{
    if count <= LEAF_LENGTH {
        let rest = items.len() - count;
        let others = items.split_off(rest)?;
        return leaf_of(alloc, others);
    }
    let half = count / 2;
    let right = taken_off(alloc, items, half)?;
    let left = taken_off(alloc, items, count - half)?;
    branch(alloc, left, right)
}
