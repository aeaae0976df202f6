//! Ids in trees: searched by id or by label, read one by one, put in and taken out.
ghost use Rattle.std.specs.Prelude.{◌≡◌, ◌<◌, ◌≤◌, ◌++◌, [], drop, false, length, slice_get, true, IfSome, IfNone};
ghost use Rattle.city_model.specs.Chunks.{ids_of};
ghost use Rattle.city_model.specs.CityMap.{has_id, same_id};
ghost use Rattle.city_model.specs.internal.IdTrees.{Ascends, IsPlace, StandsAt, is_below};

use crate::id_list::is_same_id;
use city_members::text::Id;
use city_trees::item::Item;
use city_trees::tree::{Shape, Tree};

/// An id in a list of many. Labels ascend in the order of the list.
#[derive(Drop)]
pub(crate) struct Entry {
    pub(crate) label: usize,
    pub(crate) id: Id,
}

/// The entries of a list of ids, each shared by its trees.
pub(crate) type Entries = Tree<Entry>;

/// How many ids are below this one, in a tree in the order of ids.
pub(crate) fn place_of_id(entries: &Entries, id: &Id) -> usize
    requires { Ascends (ids_of entries.now) }
    ensures { IsPlace (ids_of entries.now) id.now result }
{
    match entries.shape() {
        Shape::Leaf(items) => items.partition_point(|item| is_below(item, id)),
        Shape::Sides(left, right) => {
            if !starts_below(right, id) {
                return place_of_id(left, id);
            }
            let others = right.len() - place_of_id(right, id);
            entries.len() - others
        },
    }
}

/// Whether the first id is below this one.
fn starts_below(entries: &Entries, id: &Id) -> bool
    ensures { IfSome (slice_get entries.now 0) (λ first. result ≡ is_below first.id id.now) }
{
    match entries.first() {
        Some(first) => is_below(first, id),
        None => false,
    }
}

/// Whether the id of the entry is below this one.
fn is_below(item: &Item<Entry>, id: &Id) -> bool
    ensures { result ≡ is_below item.now.id id.now }
{
    item.get().id.cmp(id).is_lt()
}

/// The place of an entry of this id, in a tree in the order of ids.
pub(crate) fn find(entries: &Entries, id: &Id) -> Option<usize>
    requires { Ascends (ids_of entries.now) }
    ensures some { IfSome result (StandsAt (ids_of entries.now) id.now) }
    ensures none { IfNone result (has_id (ids_of entries.now) id.now ≡ false) }
{
    let at = place_of_id(entries, id);
    if has_at(entries, at, id) {
        Some(at)
    } else {
        None
    }
}

/// Whether the id stands at a place.
fn has_at(entries: &Entries, at: usize, id: &Id) -> bool
    ensures there { result ≡ true → StandsAt (ids_of entries.now) id.now at }
    ensures other { result ≡ false → IfSome (slice_get entries.now at) (λ e. same_id id.now e.id ≡ false) }
{
    match entries.get(at) {
        Some(item) => is_same_id(id, &item.get().id),
        None => false,
    }
}

/// The label at a place, or 0 behind the last one. Only the time of a search may depend on it.
pub(crate) fn label_at(entries: &Entries, at: usize) -> usize {
    match entries.get(at) {
        Some(item) => item.get().label,
        None => 0,
    }
}

/// How many labels are below this one, in a tree in the order of labels. Only the time of a search
/// may depend on it.
fn place_of_label(entries: &Entries, label: usize) -> usize
    ensures { result ≤ length entries.now }
{
    match entries.shape() {
        Shape::Leaf(items) => items.partition_point(|item| item.get().label < label),
        Shape::Sides(left, right) => match right.first() {
            Some(first) if first.get().label < label => {
                let others = right.len() - place_of_label(right, label);
                entries.len() - others
            },
            _ => place_of_label(left, label),
        },
    }
}

/// The place of the id, in a tree in the order of labels. It has this label, if it is there.
pub(crate) fn find_labelled(entries: &Entries, label: usize, id: &Id) -> Option<usize>
    ensures some { IfSome result (StandsAt (ids_of entries.now) id.now) }
    ensures none { IfNone result (has_id (ids_of entries.now) id.now ≡ false) }
{
    let labelled = place_of_label(entries, label);
    if has_at(entries, labelled, id) {
        return Some(labelled);
    }
    for at in 0..entries.len() {
        if has_at(entries, at, id) {
            return Some(at);
        }
    }
    None
}

/// The entries of the leaf at a place, and where the next one begins.
pub(crate) fn leaf_from(entries: &Entries, at: usize) -> (&[Item<Entry>], usize)
    ensures items { result.0.now ++ drop result.1 entries.now ≡ drop at entries.now }
    ensures end { result.0.now ≡ [] → drop at entries.now ≡ [] }
{
    let items = entries.leaf_at(at);
    let next = at.saturating_add(items.len()).min(entries.len());
    (items, next)
}
