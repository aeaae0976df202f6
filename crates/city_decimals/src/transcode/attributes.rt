//! Values under `attributes`: they may be shielded or a shield.
ghost use Rattle.std.specs.Prelude.{◌≡◌, ◌++◌, OnOk};
ghost use Rattle.json.specs.Json.{number, array, item, no_items};
ghost use Rattle.json.specs.Print.{IsNumber};
ghost use Rattle.json.specs.Tree.{json_tokens, HasNumbers};
ghost use Rattle.json.specs.Value.{value_view};
ghost use Rattle.city_decimals.specs.internal.Directions.{changed, attributes_changed};
ghost use Rattle.city_decimals.specs.declared.direction.Direction.TheVariants.{Encode};

use crate::OutOfMemory;
use crate::decoding::decode_tree;
use crate::direction::Direction;
use crate::encoding::{encode_number, encode_tree};
use crate::numbers::is_whole;
use crate::shapes::is_text;
use json::{Value, Writer};

/// Writes a number, changed; if it is encoded and isn't whole, in a shield.
pub(super) fn write_attributes_number(
    way: Direction,
    text: &str,
    out: &mut Writer,
) -> Result<(), OutOfMemory>
    requires number { IsNumber text.now }
    ensures before { OnOk result (out.new.before ≡ out.old.before) }
    ensures tokens { OnOk result (out.new.tokens
        ≡ out.old.tokens ++ json_tokens (attributes_changed way (number text.now))) }
{
    match way {
        Direction::Encode => encode_attributes_number(text, out),
        Direction::Decode => out.number(text),
    }
}

/// Writes a number, encoded, in a shield if it isn't whole.
fn encode_attributes_number(text: &str, out: &mut Writer) -> Result<(), OutOfMemory>
    requires number { IsNumber text.now }
    ensures before { OnOk result (out.new.before ≡ out.old.before) }
    ensures tokens { OnOk result (out.new.tokens
        ≡ out.old.tokens ++ json_tokens (attributes_changed Encode (number text.now))) }
{
    if is_whole(text) {
        return out.number(text);
    }
    out.begin_array()?;
    encode_number(text, out)?;
    out.end_array()
}

/// Writes an array of this item alone, changed. Unless the item is a text, the array gets a shield
/// when encoded, and is one when decoded.
pub(super) fn write_single(
    way: Direction,
    only: &Value<'_>,
    out: &mut Writer,
) -> Result<(), OutOfMemory>
    requires numbers { HasNumbers (value_view only.now) }
    ensures before { OnOk result (out.new.before ≡ out.old.before) }
    ensures tokens { OnOk result (out.new.tokens ≡ out.old.tokens
        ++ json_tokens (attributes_changed way (array (item (value_view only.now) no_items)))) }
{
    if is_text(only) {
        return write_array(way, only, out);
    }
    match way {
        Direction::Encode => {
            out.begin_array()?;
            write_array(Direction::Encode, only, out)?;
            out.end_array()
        }
        Direction::Decode => decode_tree(only, out),
    }
}

/// Writes an array of this item alone, changed, but without a form.
fn write_array(way: Direction, only: &Value<'_>, out: &mut Writer) -> Result<(), OutOfMemory>
    requires numbers { HasNumbers (value_view only.now) }
    ensures before { OnOk result (out.new.before ≡ out.old.before) }
    ensures tokens { OnOk result (out.new.tokens ≡ out.old.tokens
        ++ json_tokens (changed way (array (item (value_view only.now) no_items)))) }
{
    out.begin_array()?;
    write_tree(way, only, out)?;
    out.end_array()
}

/// Writes a tree, changed.
pub(super) fn write_tree(
    way: Direction,
    value: &Value<'_>,
    out: &mut Writer,
) -> Result<(), OutOfMemory>
    requires numbers { HasNumbers (value_view value.now) }
    ensures before { OnOk result (out.new.before ≡ out.old.before) }
    ensures tokens { OnOk result (out.new.tokens
        ≡ out.old.tokens ++ json_tokens (changed way (value_view value.now))) }
{
    match way {
        Direction::Encode => encode_tree(value, out),
        Direction::Decode => decode_tree(value, out),
    }
}
