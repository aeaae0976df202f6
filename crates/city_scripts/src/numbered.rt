//! The scripts of a text, each with the number of its item.
ghost use Rattle.std.specs.Prelude.{◌≡◌, ◌++◌, ◌||◌, IfOk, OnOk, map, nat_lt};
ghost use Rattle.std.specs.List.{list_any};
ghost use Rattle.serde_json.specs.View.{view};
ghost use Rattle.city_tokens.specs.internal.ScriptItems.{has_too_many_commands};
ghost use Rattle.city_tokens.specs.script.Scripts.{max_scripts};
ghost use Rattle.city_scripts.specs.internal.Forms.{parts_view};
ghost use Rattle.city_scripts.specs.internal.Told.{bad_scripts, numbered, numbered_view};

use crate::fault::ScriptFault;
use crate::parts::{has_too_many_commands, parts_of};
use crate::script_form::ScriptForm;
use city_model::OutOfMemory;
use city_tokens::MAX_SCRIPTS;
use serde_json::Value;
use std::alloc::Global;

/// The form of a script, and the number of its item in the text.
#[derive(Drop)]
pub struct NumberedForm {
    pub number: usize,
    pub form: ScriptForm,
}

/// The items with the form of a script. Adds a fault for each of the others.
pub fn numbered_forms(
    alloc: Global,
    items: Vec<Value>,
    faults: &mut Vec<ScriptFault>,
) -> Result<Vec<NumberedForm>, OutOfMemory>
    ensures forms { IfOk result (λ fs. map numbered_view fs.items ≡ numbered 0 (map view items.items)) }
    ensures told { OnOk result (faults.new.items ≡ faults.old.items ++ bad_scripts 0 (map view items.items)) }
{
    let mut forms = Vec::new(alloc);
    for (number, item) in items.into_iter().enumerate() {
        match parts_of(item) {
            Some(form) => forms.push(NumberedForm { number, form })?,
            None => faults.push(ScriptFault::BadScript(number))?,
        }
    }
    Ok(forms)
}

/// Whether a script has too many commands.
fn any_overlong(forms: &[NumberedForm]) -> bool
    ensures { result ≡ list_any (λ f. has_too_many_commands (parts_view f.form)) forms.now }
{
    forms
        .iter()
        .any(|numbered| has_too_many_commands(&numbered.form))
}

/// Whether there are too many items, or too many commands in a script.
pub fn are_too_many(count: usize, forms: &[NumberedForm]) -> bool
    ensures { result ≡ (nat_lt max_scripts count
        || list_any (λ f. has_too_many_commands (parts_view f.form)) forms.now) }
{
    count > MAX_SCRIPTS || any_overlong(forms)
}
