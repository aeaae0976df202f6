//! The first number of a tree outside the whole numbers of 64 bits.
use crate::path::Step;
use city_model::OutOfMemory;
use serde_json::{Map, Value};
use std::alloc::Global;

/// Returns the path to the first number outside the whole numbers of 64 bits; no steps if there is none. Members come
/// in byte order of their names, items in their order.
pub fn path_to_fraction(alloc: Global, tree: &Value) -> Result<Vec<Step<'_>>, OutOfMemory> {
    let mut steps = Vec::new(alloc);
    let _found = add_steps(tree, &mut steps)?;
    steps.reverse();
    Ok(steps)
}

/// Adds the steps to the first such number, last step first. Returns whether there is one.
#[cycle(fraction)]
fn add_steps<'t>(value: &'t Value, steps: &mut Vec<Step<'t>>) -> Result<bool, OutOfMemory> {
    match value {
        Value::Number(number) => Ok(!number.is_i64()),
        Value::Array(items) => add_item_steps(items, steps),
        Value::Object(members) => add_member_steps(members, steps),
        Value::Null | Value::Bool(_) | Value::String(_) => Ok(false),
    }
}

#[cycle(fraction)]
fn add_item_steps<'t>(
    items: &'t Vec<Value>,
    steps: &mut Vec<Step<'t>>,
) -> Result<bool, OutOfMemory> {
    for (number, item) in items.iter().enumerate() {
        if add_steps(item, steps)? {
            steps.push(Step::Item(number))?;
            return Ok(true);
        }
    }
    Ok(false)
}

#[cycle(fraction)]
fn add_member_steps<'t>(
    members: &'t Map<String, Value>,
    steps: &mut Vec<Step<'t>>,
) -> Result<bool, OutOfMemory> {
    for (name, member) in members.iter() {
        if add_steps(member, steps)? {
            steps.push(Step::Member(name.as_str()))?;
            return Ok(true);
        }
    }
    Ok(false)
}
