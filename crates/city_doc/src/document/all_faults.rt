//! Finds all faults of a document.
ghost use Rattle.std.specs.Prelude.{◌≡◌, ◌⊎◌, [], true, List, ℕ, Some, IfOk, slice_get};
ghost use Rattle.serde_json.specs.View.{view};
ghost use Rattle.city_members.specs.Integral.{is_integral};
ghost use Rattle.city_doc.specs.declared.fault.ReadFault as fault;
ghost use Rattle.city_doc.specs.document.Accepted.{IsAccepted};
ghost use Rattle.city_doc.specs.document.AllFaults.{AreFaultsOf, AreThose, IsFaultOfTree};
ghost use Rattle.city_doc.specs.document.Faults.{DocumentFault};
ghost use Rattle.city_doc.specs.internal.tree.TextFaults.{IsRefused};

use crate::document::judge::judge;
use crate::document::read::lawful_city;
use crate::fault::{ReadFault, alone};
use crate::tree::parse::{TextFault, parse};
use city_model::OutOfMemory;
use serde_json::Value;
use std::alloc::Global;

/// All faults of a document: each fault of `ReadFault`'s list at each of its objects, in the order of
/// the list, and of the ids in byte order. There are none if `read_city` reads the text, given enough
/// memory; else the first is the answer of `read_city`.
///
/// A text with `TooLong`, `NotJson`, `NotWhole` or `NotCityJson` has that fault alone: nothing else is
/// looked at. An object with `BadGeometry` doesn't have `BadVertex` as well. An object with one of the
/// faults 5 to 8 can't be built: its rings and shells aren't judged, and its relatives have
/// `Relations` too, as if it were absent. It fails only when out of memory.
pub fn faults_of(alloc: Global, bytes: &[u8]) -> Result<Vec<ReadFault>, OutOfMemory>
    ensures faults { IfOk result (λ faults. AreFaultsOf bytes.now faults.items) }
    ensures accepted { IfOk result (λ faults. faults.items ≡ [] → IsAccepted bytes.now) }
    ensures none { IsAccepted bytes.now → IfOk result (λ faults. faults.items ≡ []) }
    ensures first { IfOk result (λ faults. (f : fault.ReadFault) → slice_get faults.items 0 ≡ Some f
        → DocumentFault bytes.now f) }
    ensures answered { IfOk result (λ faults. (f : fault.ReadFault) → DocumentFault bytes.now f
        → (f ≡ ReadFault.OutOfMemory) ⊎ (slice_get faults.items 0 ≡ Some f)) }
{
    all_faults(alloc, bytes)
}

/// All faults of a text.
fn all_faults(alloc: Global, bytes: &[u8]) -> Result<Vec<ReadFault>, OutOfMemory>
    ensures { IfOk result (λ faults. AreFaultsOf bytes.now faults.items) }
{
    if lawful_city(alloc, bytes).is_some() {
        return Ok(Vec::new(alloc));
    }
    match parse(alloc, bytes) {
        Ok(tree) => tree_faults(alloc, tree),
        Err(fault) => text_faults(alloc, fault),
    }
}

/// The fault of a text without a tree of whole numbers.
fn text_faults(alloc: Global, fault: TextFault) -> Result<Vec<ReadFault>, OutOfMemory>
    ensures { IfOk result (λ faults. (text : List ℕ) → IsRefused text fault → AreFaultsOf text faults.items) }
{
    match fault {
        TextFault::OutOfMemory => Err(OutOfMemory),
        TextFault::TooLong => alone(alloc, ReadFault::TooLong),
        TextFault::NotJson => alone(alloc, ReadFault::NotJson),
        TextFault::NotWhole => alone(alloc, ReadFault::NotWhole),
    }
}

/// The faults of a tree of whole numbers.
fn tree_faults(alloc: Global, tree: Value) -> Result<Vec<ReadFault>, OutOfMemory>
    requires { is_integral (view tree) ≡ true }
    ensures { IfOk result (λ faults. AreThose (IsFaultOfTree (view tree)) faults.items) }
{
    match judge(alloc, tree, false)? {
        Ok(_) => Ok(Vec::new(alloc)),
        Err(faults) => Ok(faults),
    }
}
