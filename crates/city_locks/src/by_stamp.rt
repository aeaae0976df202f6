//! Lists by stamps, in an ordered map.
ghost use Rattle.std.specs.Prelude.{◌≡◌, ℕ, OnOk, OnErr, IfErr, None, Some, [], ◌∷◌, ◌++◌, true, is_some, unwrap_or};
ghost use Rattle.std.specs.Prelude.{if◌then◌else◌};
ghost use Rattle.std.specs.Ordering.{nat_cmp};
ghost use Rattle.std.specs.BTreeMap.{get, is_at};

use city_members::sequence::Sequence;
use city_model::OutOfMemory;
use std::alloc::Global;
use std::collections::BTreeMap;

/// Adds the item at the end of the stamp's list, or begins the list with it. If memory runs out,
/// the lists stay as they are, and the item is dropped.
pub fn push<T: Drop>(
    lists: &mut BTreeMap<u64, Sequence<T>>,
    alloc: Global,
    stamp: u64,
    item: T,
) -> Result<(), OutOfMemory>
    ensures ok { OnOk result ((t : ℕ) → get nat_cmp lists.new t
        ≡ (if is_at (nat_cmp stamp) t then Some (unwrap_or (get nat_cmp lists.old stamp) [] ++ item ∷ [])
        else get nat_cmp lists.old t)) }
    ensures err { OnErr result (lists.new.entries ≡ lists.old.entries) }
{
    if lists.contains_key(&stamp) {
        match push_at(lists, stamp, item) {
            Ok(()) => Ok(()),
            Err(_) => Err(OutOfMemory),
        }
    } else {
        begin_with(lists, alloc, stamp, item)
    }
}

/// Begins the list of a stamp without one.
fn begin_with<T: Drop>(
    lists: &mut BTreeMap<u64, Sequence<T>>,
    alloc: Global,
    stamp: u64,
    item: T,
) -> Result<(), OutOfMemory>
    requires { get nat_cmp lists.old stamp ≡ None }
    ensures ok { OnOk result ((t : ℕ) → get nat_cmp lists.new t
        ≡ (if is_at (nat_cmp stamp) t then Some (item ∷ []) else get nat_cmp lists.old t)) }
    ensures err { OnErr result (lists.new.entries ≡ lists.old.entries) }
{
    let mut list = Sequence::new(alloc);
    list.push(item)?;
    lists.insert(stamp, list)?;
    Ok(())
}

/// Adds the item at the end of the stamp's list, which is there. If memory runs out, the lists stay
/// as they are, and the item comes back.
pub fn push_at<T: Drop>(
    lists: &mut BTreeMap<u64, Sequence<T>>,
    stamp: u64,
    item: T,
) -> Result<(), T>
    requires { is_some (get nat_cmp lists.old stamp) ≡ true }
    ensures ok { OnOk result ((t : ℕ) → get nat_cmp lists.new t
        ≡ (if is_at (nat_cmp stamp) t then Some (unwrap_or (get nat_cmp lists.old stamp) [] ++ item ∷ [])
        else get nat_cmp lists.old t)) }
    ensures err { OnErr result (lists.new.entries ≡ lists.old.entries) }
    ensures back { IfErr result (λ back. back ≡ item) }
{
    match lists.get_mut(&stamp) {
        Some(list) => list.try_push(item),
        None => unreachable!(),
    }
}
