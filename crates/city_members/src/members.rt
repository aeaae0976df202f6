//! The members of a JSON object.
ghost use Rattle.std.specs.Prelude.{◌≡◌, option_map, string_bytes, IfOk, OnOk};
ghost use Rattle.serde_json.specs.Data.{put};
ghost use Rattle.serde_json.specs.Find.{as_object, get_member};
ghost use Rattle.serde_json.specs.View.{view, members_view};
ghost use Rattle.city_members.specs.Members.{without, members_count, AreOrdered};

use crate::OutOfMemory;
use serde_json::{Map, Value};

/// The member of a name.
pub fn member<'v>(members: &'v Map<String, Value>, name: &str) -> Option<&'v Value>
    ensures { option_map (λ v. view v.now) result ≡ get_member name.now (members_view members.now.entries) }
{
    members.get(name)
}

/// Removes the member of a name, and returns it.
pub fn take(members: &mut Map<String, Value>, name: &str) -> Option<Value>
    ensures found { option_map view result ≡ get_member name.now (members_view members.old.entries) }
    ensures left { members_view members.new.entries ≡ without name.now (members_view members.old.entries) }
{
    members.remove(name)
}

/// The members of an object. Consumes it.
pub fn into_object(value: Value) -> Option<Map<String, Value>>
    ensures { option_map (λ m. members_view m.entries) result ≡ as_object (view value) }
{
    match value {
        Value::Object(members) => Some(members),
        _ => None,
    }
}

/// How many members there are; their names ascend.
pub fn members_count(members: &Map<String, Value>) -> usize
    ensures counted { result ≡ members_count (members_view members.now.entries) }
    ensures ordered { AreOrdered (members_view members.now.entries) }
{
    members.len()
}

/// Gives the members one of this name.
pub(crate) fn put(
    members: &mut Map<String, Value>,
    name: String,
    value: Value,
) -> Result<(), OutOfMemory>
    ensures { OnOk result (members_view members.new.entries
        ≡ put (string_bytes name) (view value) (members_view members.old.entries)) }
{
    let _before = members.insert(name, value)?;
    Ok(())
}

/// A copy of a map of members.
pub(crate) fn copy_of(members: &Map<String, Value>) -> Result<Map<String, Value>, OutOfMemory>
    ensures { IfOk result (λ copy. members_view copy.entries ≡ members_view members.now.entries) }
{
    let copy = members.clone()?;
    Ok(copy)
}
