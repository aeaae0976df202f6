//! Finds all faults of a text of scripts.
ghost use Rattle.std.specs.Prelude.{◌≡◌, ◌⊎◌, ◌++◌, [], true, List, ℕ, Some, IfOk, OnOk, slice_get, map, length};
ghost use Rattle.serde_json.specs.Data.{Data};
ghost use Rattle.serde_json.specs.View.{view};
ghost use Rattle.city_members.specs.Integral.{is_integral};
ghost use Rattle.city_scripts.specs.declared.fault.ScriptFault as fault;
ghost use Rattle.city_scripts.specs.AllFaults.{AreFaultsOf, AreThose, IsAccepted, IsFaultOfTree, StandsAt};
ghost use Rattle.city_scripts.specs.Faults.{ScriptTextFault};
ghost use Rattle.city_scripts.specs.internal.Told.{numbered, numbered_view, too_many};
ghost use Rattle.city_doc.specs.internal.tree.TextFaults.{IsRefused};

use crate::each_fault::{BadCommand, BadVertex, tell_each};
use crate::fault::ScriptFault;
use crate::numbered::{NumberedForm, are_too_many, numbered_forms};
use city_doc::{TextFault, alone, into_array, parse};
use city_model::OutOfMemory;
use city_texts::streamed_scripts;
use serde_json::Value;
use std::alloc::Global;

/// All faults of a text of scripts: each fault of `ScriptFault`'s list at each of its scripts or commands,
/// in the order of the list, then of the scripts, then of the commands. There are none if `read_scripts`
/// reads the text, given enough memory; else the first is the answer of `read_scripts`.
///
/// A text with `TooLong`, `NotJson`, `NotWhole` or `NotScripts` has that fault alone. `TooMany` is told
/// once. Commands are judged in items with the form of a script. All items count as scripts. A command with
/// `BadCommand` doesn't have `BadVertex` as well. It fails only when out of memory.
pub fn script_faults_of(alloc: Global, bytes: &[u8]) -> Result<Vec<ScriptFault>, OutOfMemory>
    ensures faults { IfOk result (λ faults. AreFaultsOf bytes.now faults.items) }
    ensures accepted { IfOk result (λ faults. faults.items ≡ [] → IsAccepted bytes.now) }
    ensures none { IsAccepted bytes.now → IfOk result (λ faults. faults.items ≡ []) }
    ensures first { IfOk result (λ faults. (f : fault.ScriptFault) → slice_get faults.items 0 ≡ Some f
        → ScriptTextFault bytes.now f) }
    ensures answered { IfOk result (λ faults. (f : fault.ScriptFault) → ScriptTextFault bytes.now f
        → (f ≡ ScriptFault.OutOfMemory) ⊎ (slice_get faults.items 0 ≡ Some f)) }
{
    all_faults(alloc, bytes)
}

/// All faults of a text.
fn all_faults(alloc: Global, bytes: &[u8]) -> Result<Vec<ScriptFault>, OutOfMemory>
    ensures { IfOk result (λ faults. AreFaultsOf bytes.now faults.items) }
{
    if streamed_scripts(alloc, bytes).is_some() {
        return Ok(Vec::new(alloc));
    }
    match parse(alloc, bytes) {
        Ok(tree) => tree_faults(alloc, tree),
        Err(fault) => text_faults(alloc, fault),
    }
}

/// The fault of a text without a tree of whole numbers.
fn text_faults(alloc: Global, fault: TextFault) -> Result<Vec<ScriptFault>, OutOfMemory>
    ensures { IfOk result (λ faults. (text : List ℕ) → IsRefused text fault → AreFaultsOf text faults.items) }
{
    match fault {
        TextFault::OutOfMemory => Err(OutOfMemory),
        TextFault::TooLong => alone(alloc, ScriptFault::TooLong),
        TextFault::NotJson => alone(alloc, ScriptFault::NotJson),
        TextFault::NotWhole => alone(alloc, ScriptFault::NotWhole),
    }
}

/// The faults of a tree of whole numbers.
fn tree_faults(alloc: Global, tree: Value) -> Result<Vec<ScriptFault>, OutOfMemory>
    requires { is_integral (view tree) ≡ true }
    ensures { IfOk result (λ faults. AreThose (IsFaultOfTree (view tree)) faults.items) }
{
    match into_array(tree) {
        Some(items) => item_faults(alloc, items),
        None => alone(alloc, ScriptFault::NotScripts),
    }
}

/// The faults of an array of these items.
fn item_faults(alloc: Global, items: Vec<Value>) -> Result<Vec<ScriptFault>, OutOfMemory>
    ensures { IfOk result (λ faults. AreThose (StandsAt (map view items.items)) faults.items) }
{
    let count = items.len();
    let mut faults = Vec::new(alloc);
    let forms = numbered_forms(alloc, items, &mut faults)?;
    tell_too_many(count, forms.as_slice(), &mut faults)?;
    tell_each::<BadCommand>(forms.as_slice(), &mut faults)?;
    tell_each::<BadVertex>(forms.as_slice(), &mut faults)?;
    Ok(faults)
}

/// Adds `TooMany` if there are too many items, or too many commands in one.
fn tell_too_many(
    count: usize,
    forms: &[NumberedForm],
    faults: &mut Vec<ScriptFault>,
) -> Result<(), OutOfMemory>
    ensures { OnOk result ((ds : List Data) → length ds ≡ count → map numbered_view forms.now ≡ numbered 0 ds
        → faults.new.items ≡ faults.old.items ++ too_many ds) }
{
    if are_too_many(count, forms) {
        faults.push(ScriptFault::TooMany)?;
    }
    Ok(())
}
