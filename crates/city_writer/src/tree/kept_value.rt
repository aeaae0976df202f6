//! Writes kept JSON values from their lists.
ghost use Rattle.std.specs.Prelude.{◌≡◌, ◌++◌, OnOk, true};
ghost use Rattle.city_members.specs.Integral.{is_integral, items_integral, members_integral};
ghost use Rattle.city_members.specs.internal.KeptValues.{value_data, items_data, members_data};
ghost use Rattle.city_writer.specs.internal.tree.PartTokens.{closing_items, closing_members};
ghost use Rattle.city_writer.specs.internal.tree.ReadsBack.{ReadsBack, ItemsReadBack, MembersReadBack};
ghost use Rattle.city_writer.specs.tree.Tokens.{tokens_of};

use crate::tree::text::write_number;
use city_members::kept::kept_value::KeptValue;
use city_model::OutOfMemory;
use json::Writer;

/// Writes a value of `i64` numbers.
#[cycle(write)]
pub fn write_kept(value: &KeptValue, out: &mut Writer) -> Result<(), OutOfMemory>
    requires integral { is_integral (value_data value.now) ≡ true }
    ensures before { OnOk result (out.new.before ≡ out.old.before) }
    ensures tokens { OnOk result (out.new.tokens ≡ out.old.tokens ++ tokens_of (value_data value.now)) }
    ensures reads { OnOk result (ReadsBack (value_data value.now)) }
{
    match value {
        KeptValue::Null => out.null(),
        KeptValue::Bool(b) => out.boolean(*b),
        KeptValue::Number(n) => write_number(n, out),
        KeptValue::String(s) => out.string(s.as_str()),
        KeptValue::Array(items) => {
            out.begin_array()?;
            write_items(items.as_slice(), out)
        }
        KeptValue::Object(members) => {
            out.begin_object()?;
            write_members(members.as_slice(), out)
        }
    }
}

/// Writes the items, and the closing bracket.
#[cycle(write)]
fn write_items(items: &[KeptValue], out: &mut Writer) -> Result<(), OutOfMemory>
    requires integral { items_integral (items_data items.now) ≡ true }
    ensures before { OnOk result (out.new.before ≡ out.old.before) }
    ensures tokens { OnOk result (out.new.tokens ≡ out.old.tokens ++ closing_items (items_data items.now)) }
    ensures reads { OnOk result (ItemsReadBack (items_data items.now)) }
{
    for item in items {
        write_kept(item, out)?;
    }
    out.end_array()
}

/// Writes the members, and the closing brace.
#[cycle(write)]
pub fn write_members(members: &[(String, KeptValue)], out: &mut Writer) -> Result<(), OutOfMemory>
    requires integral { members_integral (members_data members.now) ≡ true }
    ensures before { OnOk result (out.new.before ≡ out.old.before) }
    ensures tokens { OnOk result (out.new.tokens ≡ out.old.tokens ++ closing_members (members_data members.now)) }
    ensures reads { OnOk result (MembersReadBack (members_data members.now)) }
{
    for (key, member) in members {
        out.key(key.as_str())?;
        write_kept(member, out)?;
    }
    out.end_object()
}
