//! A kept JSON value.
ghost use Rattle.std.specs.Prelude.{◌≡◌, IfOk};
ghost use Rattle.serde_json.specs.View.{view};
ghost use Rattle.city_members.specs.Attributes.{same_value};
ghost use Rattle.city_members.specs.Integral.{is_integral};
ghost use Rattle.city_members.specs.internal.KeptValues.{value_data};

use crate::OutOfMemory;
use crate::kept::few_members::FewMembers;
use crate::kept::kept_items::KeptItems;
use crate::kept::size::Size;
use crate::same_value::same_number;
use serde_json::{Number, Value};
use std::alloc::Global;

/// A JSON value in little room: its arrays and objects are lists. The node of a map has room for
/// eleven members, and most objects have fewer.
#[cycle(kept)]
#[derive(Drop)]
pub enum KeptValue {
    Null,
    Bool(bool),
    Number(Number),
    String(String),
    Array(KeptItems),
    Object(FewMembers),
}

impl KeptValue {
    /// The value of a tree. Takes over its texts.
    #[cycle(from)]
    pub fn from_value(alloc: Global, value: Value) -> Result<KeptValue, OutOfMemory>
        ensures { IfOk result (λ v. value_data v ≡ view value) }
    {
        match value {
            Value::Null => Ok(KeptValue::Null),
            Value::Bool(b) => Ok(KeptValue::Bool(b)),
            Value::Number(n) => Ok(KeptValue::Number(n)),
            Value::String(text) => Ok(KeptValue::String(text)),
            Value::Array(items) => {
                let items = KeptItems::from_values(alloc, items)?;
                Ok(KeptValue::Array(items))
            }
            Value::Object(members) => {
                let members = FewMembers::from_map(alloc, members)?;
                Ok(KeptValue::Object(members))
            }
        }
    }

    /// The value as a tree. Gives its texts over.
    #[cycle(into)]
    pub fn into_value(self, alloc: Global) -> Result<Value, OutOfMemory>
        ensures { IfOk result (λ v. view v ≡ value_data self) }
    {
        match self {
            KeptValue::Null => Ok(Value::Null),
            KeptValue::Bool(b) => Ok(Value::Bool(b)),
            KeptValue::Number(n) => Ok(Value::Number(n)),
            KeptValue::String(text) => Ok(Value::String(text)),
            KeptValue::Array(items) => {
                let items = items.into_values(alloc)?;
                Ok(Value::Array(items))
            }
            KeptValue::Object(members) => {
                let members = members.into_map(alloc)?;
                Ok(Value::Object(members))
            }
        }
    }

    /// A copy.
    #[cycle(copy)]
    pub fn copied(&self, alloc: Global) -> Result<KeptValue, OutOfMemory>
        ensures { IfOk result (λ v. value_data v ≡ value_data self.now) }
    {
        match self {
            KeptValue::Null => Ok(KeptValue::Null),
            KeptValue::Bool(b) => Ok(KeptValue::Bool(*b)),
            KeptValue::Number(n) => Ok(KeptValue::Number(*n)),
            KeptValue::String(text) => {
                let copy = text.clone()?;
                Ok(KeptValue::String(copy))
            }
            KeptValue::Array(items) => {
                let items = items.copied(alloc)?;
                Ok(KeptValue::Array(items))
            }
            KeptValue::Object(members) => {
                let members = members.copied(alloc)?;
                Ok(KeptValue::Object(members))
            }
        }
    }

    /// Whether a tree has the same value, as `same_value` compares two trees. Doesn't allocate.
    #[cycle(same)]
    pub fn is_same(&self, value: &Value) -> bool
        ensures { result ≡ same_value (view value.now) (value_data self.now) }
    {
        match (value, self) {
            (Value::Null, KeptValue::Null) => true,
            (Value::Bool(b), KeptValue::Bool(c)) => *b == *c,
            (Value::Number(number), KeptValue::Number(other)) => same_number(number, other),
            (Value::String(text), KeptValue::String(other)) => text.as_str() == other.as_str(),
            (Value::Array(items), KeptValue::Array(others)) => others.are_same(items),
            (Value::Object(members), KeptValue::Object(others)) => others.are_same(members),
            _ => false,
        }
    }

    /// Whether every number of the value is an `i64`. If so, its size is counted.
    #[cycle(integral)]
    pub(crate) fn is_integral(&self, size: &mut Size) -> bool
        ensures { result ≡ is_integral (value_data self.now) }
    {
        match self {
            KeptValue::Number(number) => number.is_i64(),
            KeptValue::Array(items) => items.are_integral(size),
            KeptValue::Object(members) => members.are_integral(size),
            KeptValue::String(text) => {
                size.count_text(text.as_str());
                true
            }
            KeptValue::Null | KeptValue::Bool(_) => true,
        }
    }
}
