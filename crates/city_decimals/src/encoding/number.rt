//! Numbers.
ghost use Rattle.std.specs.Prelude.{◌≡◌, ◌++◌, OnOk};
ghost use Rattle.json.specs.Json.{number};
ghost use Rattle.json.specs.Print.{IsNumber};
ghost use Rattle.json.specs.Tree.{json_tokens};
ghost use Rattle.city_decimals.specs.Encoded.{encoded};

use crate::OutOfMemory;
use crate::numbers::is_whole;
use crate::shapes::TAG;
use json::Writer;

/// Writes an encoded number.
#[inline(always)]
pub(crate) fn encode_number(text: &str, out: &mut Writer) -> Result<(), OutOfMemory>
    requires number { IsNumber text.now }
    ensures before { OnOk result (out.new.before ≡ out.old.before) }
    ensures tokens { OnOk result (out.new.tokens
        ≡ out.old.tokens ++ json_tokens (encoded (number text.now))) }
{
    if is_whole(text) {
        return out.number(text);
    }
    out.begin_object()?;
    out.key(TAG)?;
    out.string(text)?;
    out.end_object()
}
