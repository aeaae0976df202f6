//! Writes kept JSON values.
ghost use Rattle.std.specs.Prelude.{◌≡◌, ◌++◌, OnOk, true};
ghost use Rattle.serde_json.specs.Data.{number};
ghost use Rattle.serde_json.specs.View.{view, number_view, items_view, members_view};
ghost use Rattle.city_members.specs.Integral.{is_integral, items_integral, members_integral};
ghost use Rattle.city_members.specs.Members.{AreOrdered};
ghost use Rattle.city_writer.specs.tree.Tokens.{tokens_of};
ghost use Rattle.city_writer.specs.internal.tree.PartTokens.{closing_items, closing_members};
ghost use Rattle.city_writer.specs.internal.tree.ReadsBack.{ReadsBack, ItemsReadBack};
ghost use Rattle.city_writer.specs.internal.tree.ReadsBack.{MembersReadBack};

use crate::tree::whole_numbers::write_i64;
use city_model::OutOfMemory;
use json::Writer;
use serde_json::{Map, Number, Value};

/// Writes an `i64` number.
pub fn write_number(n: &Number, out: &mut Writer) -> Result<(), OutOfMemory>
    requires integral { is_integral (number (number_view n.now)) ≡ true }
    ensures before { OnOk result (out.new.before ≡ out.old.before) }
    ensures tokens { OnOk result (out.new.tokens
        ≡ out.old.tokens ++ tokens_of (number (number_view n.now))) }
    ensures reads { OnOk result (ReadsBack (number (number_view n.now))) }
{
    match n.as_i64() {
        Some(z) => write_i64(z, out),
        // (no kept number is of this kind)
        None => out.null(),
    }
}

/// Writes a value of `i64` numbers.
#[cycle(write)]
pub fn write_value(value: &Value, out: &mut Writer) -> Result<(), OutOfMemory>
    requires integral { is_integral (view value.now) ≡ true }
    ensures before { OnOk result (out.new.before ≡ out.old.before) }
    ensures tokens { OnOk result (out.new.tokens ≡ out.old.tokens ++ tokens_of (view value.now)) }
    ensures reads { OnOk result (ReadsBack (view value.now)) }
{
    match value {
        Value::Null => out.null(),
        Value::Bool(b) => out.boolean(*b),
        Value::Number(n) => write_number(n, out),
        Value::String(s) => out.string(s.as_str()),
        Value::Array(items) => {
            out.begin_array()?;
            write_items(items, out)
        }
        Value::Object(members) => {
            out.begin_object()?;
            write_members(members, out)
        }
    }
}

/// Writes the items, and the closing bracket.
#[cycle(write)]
fn write_items(items: &Vec<Value>, out: &mut Writer) -> Result<(), OutOfMemory>
    requires integral { items_integral (items_view items.now.items) ≡ true }
    ensures before { OnOk result (out.new.before ≡ out.old.before) }
    ensures tokens { OnOk result (out.new.tokens
        ≡ out.old.tokens ++ closing_items (items_view items.now.items)) }
    ensures reads { OnOk result (ItemsReadBack (items_view items.now.items)) }
{
    for item in items {
        write_value(item, out)?;
    }
    out.end_array()
}

/// Writes the members, and the closing brace.
#[cycle(write)]
fn write_members(members: &Map<String, Value>, out: &mut Writer) -> Result<(), OutOfMemory>
    requires integral { members_integral (members_view members.now.entries) ≡ true }
    ensures before { OnOk result (out.new.before ≡ out.old.before) }
    ensures tokens { OnOk result (out.new.tokens
        ≡ out.old.tokens ++ closing_members (members_view members.now.entries)) }
    ensures reads { OnOk result (MembersReadBack (members_view members.now.entries)) }
    ensures ordered { AreOrdered (members_view members.now.entries) }
{
    for (key, member) in members.iter() {
        out.key(key.as_str())?;
        write_value(member, out)?;
    }
    out.end_object()
}
