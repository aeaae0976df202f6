//! Parses a text as a JSON tree of whole numbers.
ghost use Rattle.std.specs.Prelude.{◌≡◌, true, IfOk, IfErr};
ghost use Rattle.serde_json.specs.View.{view};
ghost use Rattle.city_members.specs.Integral.{is_integral};
ghost use Rattle.city_tokens.specs.tree.Texts.{HasTree};
ghost use Rattle.city_doc.specs.internal.tree.TextFaults.{IsRefused};

use crate::fault::ReadFault;
use city_members::integral::is_integral;
use city_tokens::MAX_TEXT;
use serde_json::Value;
use std::alloc::Global;

/// Why a text has no tree of whole numbers: its first fault in this list.
#[derive(Drop)]
pub enum TextFault {
    /// Memory ran out; this has no place in the order.
    OutOfMemory,
    /// The text has more than `MAX_TEXT` bytes.
    TooLong,
    /// The text isn't JSON.
    NotJson,
    /// A number isn't an `i64`.
    NotWhole,
}

/// The tree of a text, whatever its numbers are.
///
/// `TooLong` is judged before `NotJson`; `OutOfMemory` if memory ran out for the tree.
pub fn tree_of(alloc: Global, bytes: &[u8]) -> Result<Value, TextFault>
    ensures tree { IfOk result (λ v. HasTree bytes.now (view v)) }
    ensures fault { IfErr result (λ f. IsRefused bytes.now f) }
{
    if bytes.len() > MAX_TEXT {
        return Err(TextFault::TooLong);
    }
    match Value::from_slice(alloc, bytes) {
        Ok(tree) => Ok(tree),
        Err(e) => {
            if e.is_memory() {
                return Err(TextFault::OutOfMemory);
            }
            Err(TextFault::NotJson)
        }
    }
}

/// The tree of a text, with whole numbers alone.
///
/// `NotWhole` is judged after the faults of `tree_of`.
pub fn parse(alloc: Global, bytes: &[u8]) -> Result<Value, TextFault>
    ensures tree { IfOk result (λ v. HasTree bytes.now (view v)) }
    ensures integral { IfOk result (λ v. is_integral (view v) ≡ true) }
    ensures fault { IfErr result (λ f. IsRefused bytes.now f) }
{
    let tree = tree_of(alloc, bytes)?;
    if !is_integral(&tree) {
        return Err(TextFault::NotWhole);
    }
    Ok(tree)
}

impl From<TextFault> for ReadFault {
    ghost use Rattle.std.specs.Prelude.{◌≡◌};
    ghost use Rattle.city_doc.specs.internal.tree.TextFaults.{read_fault};

    ghost from_gives = { λ t f. f ≡ read_fault t };

    fn from(fault: TextFault) -> ReadFault {
        match fault {
            TextFault::OutOfMemory => ReadFault::OutOfMemory,
            TextFault::TooLong => ReadFault::TooLong,
            TextFault::NotJson => ReadFault::NotJson,
            TextFault::NotWhole => ReadFault::NotWhole,
        }
    }
}
