//! The form around a value.
ghost use Rattle.std.specs.Prelude.{◌≡◌, ◌++◌, OnOk, decimal};
ghost use Rattle.json.specs.Tree.{json_tokens};
ghost use Rattle.city_decimals.specs.Shapes.{three};
ghost use Rattle.city_decimals.specs.internal.Forms.{tokens_before, tokens_after};

use crate::OutOfMemory;
use crate::shapes::{Form, TAG};
use json::Writer;

/// Writes the part of a form before its value.
pub(super) fn begin_form(form: Form, out: &mut Writer) -> Result<(), OutOfMemory>
    ensures before { OnOk result (out.new.before ≡ out.old.before) }
    ensures tokens { OnOk result (out.new.tokens ≡ out.old.tokens ++ tokens_before form) }
{
    match form {
        Form::Plain => Ok(()),
        Form::Shielded => out.begin_array(),
        Form::Framed => {
            out.begin_object()?;
            out.key(TAG)
        }
    }
}

/// Writes the part of a form after its value.
pub(super) fn end_form(form: Form, out: &mut Writer) -> Result<(), OutOfMemory>
    ensures before { OnOk result (out.new.before ≡ out.old.before) }
    ensures tokens { OnOk result (out.new.tokens ≡ out.old.tokens ++ tokens_after form) }
{
    match form {
        Form::Plain => Ok(()),
        Form::Shielded => out.end_array(),
        Form::Framed => {
            out.key("scale")?;
            write_three(1, out)?;
            out.key("translate")?;
            write_three(0, out)?;
            out.end_object()
        }
    }
}

/// Writes an array of three equal numbers.
fn write_three(n: u64, out: &mut Writer) -> Result<(), OutOfMemory>
    ensures before { OnOk result (out.new.before ≡ out.old.before) }
    ensures tokens { OnOk result (out.new.tokens ≡ out.old.tokens ++ json_tokens (three (decimal n))) }
{
    out.begin_array()?;
    out.u64(n)?;
    out.u64(n)?;
    out.u64(n)?;
    out.end_array()
}
