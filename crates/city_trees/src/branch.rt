//! Two trees put together.
ghost use Rattle.std.specs.Prelude.{◌≡◌, ◌++◌, ◌<◌, length, IfOk, IfErr, OnOk};
ghost use Rattle.std.specs.Arc.{arc_value};

use crate::OutOfMemory;
use crate::item::Item;
use crate::leaf::{JOINED_LENGTH, leaf_of, of_leaf, owned};
use crate::tree::{Node, Pair, Tree};
use std::alloc::Global;
use std::mem;
use std::sync::Arc;

/// The tree of a branch. Doesn't allocate: it fails only where the items are too many to be counted.
#[inline(always)]
fn of_branch<E>(pair: Arc<Pair<E>>) -> Result<Tree<E>, OutOfMemory>
where
    E: Drop,
    requires left { 0 < length (arc_value pair).left }
    requires right { 0 < length (arc_value pair).right }
    ensures { IfOk result (λ tree. tree ≡ (arc_value pair).left ++ (arc_value pair).right) }
{
    let Some(count) = pair.left.count.checked_add(pair.right.count) else {
        return Err(OutOfMemory);
    };
    let height = pair.left.height.max(pair.right.height).saturating_add(1);
    Ok(Tree {
        count,
        height,
        node: Node::Branch(pair),
    })
}

/// The items of two trees, in a branch; or one of the trees, if the other has no items.
pub(crate) fn branch<E: Drop>(
    alloc: Global,
    left: Tree<E>,
    right: Tree<E>,
) -> Result<Tree<E>, OutOfMemory>
    ensures { IfOk result (λ tree. tree ≡ left ++ right) }
{
    if left.count == 0 {
        return Ok(right);
    }
    if right.count == 0 {
        return Ok(left);
    }
    let pair = Arc::new(alloc, Pair { left, right })?;
    let tree = of_branch(pair)?;
    Ok(tree)
}

/// The sides of a branch: taken out of it, or shared with the other trees that hold it.
#[inline(always)]
pub(crate) fn parted<E: Drop>(pair: &mut Arc<Pair<E>>) -> Result<Pair<E>, OutOfMemory>
    ensures { IfOk result (λ sides. sides ≡ arc_value pair.old) }
{
    if let Some(sides) = Arc::get_mut(pair) {
        let empty = Pair {
            left: Tree::new(),
            right: Tree::new(),
        };
        return Ok(mem::replace(sides, empty));
    }
    let left = pair.left.copy()?;
    let right = pair.right.copy()?;
    Ok(Pair { left, right })
}

/// Puts sides into a branch, unless another tree holds it. Doesn't allocate.
#[inline(always)]
fn refill<E: Drop>(pair: &mut Arc<Pair<E>>, sides: Pair<E>) -> Result<(), Pair<E>>
    ensures ok { OnOk result (arc_value pair.new ≡ sides) }
    ensures err { IfErr result (λ back. back ≡ sides) }
{
    match Arc::get_mut(pair) {
        Some(place) => {
            *place = sides;
            Ok(())
        }
        None => Err(sides),
    }
}

/// The items of two trees, balanced as `balanced` does, in a branch that was parted if it can be.
#[inline(always)]
pub(crate) fn settled<E: Drop>(
    alloc: Global,
    pair: Arc<Pair<E>>,
    left: Tree<E>,
    right: Tree<E>,
) -> Result<Tree<E>, OutOfMemory>
    ensures { IfOk result (λ tree. tree ≡ left ++ right) }
{
    if !is_level(&left, &right) || left.count == 0 || right.count == 0 {
        return balanced(alloc, left, right);
    }
    refilled(alloc, pair, left, right)
}

/// The items of two trees, in a branch that was parted, or in a new one if another tree holds it.
#[inline(always)]
fn refilled<E: Drop>(
    alloc: Global,
    pair: Arc<Pair<E>>,
    left: Tree<E>,
    right: Tree<E>,
) -> Result<Tree<E>, OutOfMemory>
    requires left { 0 < length left }
    requires right { 0 < length right }
    ensures { IfOk result (λ tree. tree ≡ left ++ right) }
{
    let mut pair = pair;
    match refill(&mut pair, Pair { left, right }) {
        Ok(()) => {
            let tree = of_branch(pair)?;
            Ok(tree)
        }
        Err(Pair { left, right }) => {
            let tree = branch(alloc, left, right)?;
            Ok(tree)
        }
    }
}

/// Whether two trees can be the sides of a branch as they are. Only time and room may depend on it.
#[inline(always)]
fn is_level<E>(left: &Tree<E>, right: &Tree<E>) -> bool {
    if left.height == 0 && right.height == 0 {
        return left.count.saturating_add(right.count) > JOINED_LENGTH;
    }
    left.height <= right.height.saturating_add(1) && right.height <= left.height.saturating_add(1)
}

/// The sides of a tree: of one that is no branch, the tree and an empty one.
fn sides<E: Drop>(tree: Tree<E>) -> Result<Pair<E>, OutOfMemory>
    ensures { IfOk result (λ sides. sides.left ++ sides.right ≡ tree) }
{
    match tree.node {
        Node::Empty => Ok(Pair {
            left: Tree::new(),
            right: Tree::new(),
        }),
        Node::Leaf(items) => Ok(Pair {
            left: of_leaf(items),
            right: Tree::new(),
        }),
        Node::Branch(pair) => {
            let mut pair = pair;
            parted(&mut pair)
        }
    }
}

/// The items of two trees. If each is balanced and one is higher than the other by two at most, it
/// is balanced too.
pub(crate) fn balanced<E: Drop>(
    alloc: Global,
    left: Tree<E>,
    right: Tree<E>,
) -> Result<Tree<E>, OutOfMemory>
    ensures { IfOk result (λ tree. tree ≡ left ++ right) }
{
    if left.height > right.height.saturating_add(1) {
        return turned_right(alloc, left, right);
    }
    if right.height > left.height.saturating_add(1) {
        return turned_left(alloc, left, right);
    }
    if left.height == 0 && right.height == 0 {
        return joined(alloc, left, right);
    }
    branch(alloc, left, right)
}

/// The items of two trees, the left one being too high.
fn turned_right<E: Drop>(
    alloc: Global,
    left: Tree<E>,
    right: Tree<E>,
) -> Result<Tree<E>, OutOfMemory>
    ensures { IfOk result (λ tree. tree ≡ left ++ right) }
{
    let Pair {
        left: outer,
        right: inner,
    } = sides(left)?;
    if inner.height > outer.height {
        let Pair {
            left: first,
            right: second,
        } = sides(inner)?;
        return four(alloc, outer, first, second, right);
    }
    let right = branch(alloc, inner, right)?;
    branch(alloc, outer, right)
}

/// The items of two trees, the right one being too high.
fn turned_left<E: Drop>(
    alloc: Global,
    left: Tree<E>,
    right: Tree<E>,
) -> Result<Tree<E>, OutOfMemory>
    ensures { IfOk result (λ tree. tree ≡ left ++ right) }
{
    let Pair {
        left: inner,
        right: outer,
    } = sides(right)?;
    if inner.height > outer.height {
        let Pair {
            left: first,
            right: second,
        } = sides(inner)?;
        return four(alloc, left, first, second, outer);
    }
    let left = branch(alloc, left, inner)?;
    branch(alloc, left, outer)
}

/// The items of four trees, two and two.
fn four<E: Drop>(
    alloc: Global,
    first: Tree<E>,
    second: Tree<E>,
    third: Tree<E>,
    fourth: Tree<E>,
) -> Result<Tree<E>, OutOfMemory>
    ensures { IfOk result (λ tree. tree ≡ (first ++ second) ++ (third ++ fourth)) }
{
    let left = branch(alloc, first, second)?;
    let right = branch(alloc, third, fourth)?;
    branch(alloc, left, right)
}

/// The items of two trees, in one leaf if that has few.
fn joined<E: Drop>(alloc: Global, left: Tree<E>, right: Tree<E>) -> Result<Tree<E>, OutOfMemory>
    ensures { IfOk result (λ tree. tree ≡ left ++ right) }
{
    if left.count.saturating_add(right.count) > JOINED_LENGTH {
        return branch(alloc, left, right);
    }
    match into_leaf(left) {
        Ok(items) => with_leaf(alloc, items, right),
        Err(left) => branch(alloc, left, right),
    }
}

/// The items of a leaf and of a tree, in one leaf if the tree is one.
fn with_leaf<E: Drop>(
    alloc: Global,
    items: Arc<Vec<Item<E>>>,
    right: Tree<E>,
) -> Result<Tree<E>, OutOfMemory>
    ensures { IfOk result (λ tree. tree ≡ (arc_value items).items ++ right) }
{
    match into_leaf(right) {
        Ok(others) => one_leaf(alloc, items, others),
        Err(right) => branch(alloc, of_leaf(items), right),
    }
}

/// The items of two leaves in one.
fn one_leaf<E: Drop>(
    alloc: Global,
    items: Arc<Vec<Item<E>>>,
    others: Arc<Vec<Item<E>>>,
) -> Result<Tree<E>, OutOfMemory>
    ensures { IfOk result (λ tree. tree ≡ (arc_value items).items ++ (arc_value others).items) }
{
    let mut items = owned(alloc, items)?;
    let mut others = owned(alloc, others)?;
    items.append(&mut others)?;
    leaf_of(alloc, items)
}

/// The items of a tree that is one leaf, or else the tree. Doesn't allocate.
fn into_leaf<E>(tree: Tree<E>) -> Result<Arc<Vec<Item<E>>>, Tree<E>>
    ensures ok { IfOk result (λ items. (arc_value items).items ≡ tree) }
    ensures err { IfErr result (λ same. same ≡ tree) }
{
    let Tree {
        count,
        height,
        node,
    } = tree;
    match node {
        Node::Empty => Err(Tree::new()),
        Node::Leaf(items) => Ok(items),
        Node::Branch(pair) => Err(Tree {
            count,
            height,
            node: Node::Branch(pair),
        }),
    }
}
