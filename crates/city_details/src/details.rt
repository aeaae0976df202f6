//! Further members of a fault's line.
ghost use Rattle.std.specs.Prelude.{◌≡◌, ◌+◌, false, length, map, IfOk, OnOk};
ghost use Rattle.serde_json.specs.Data.{no_members, put, object, array, string, number as numeral, unsigned};
ghost use Rattle.serde_json.specs.Find.{of_integer};
ghost use Rattle.serde_json.specs.View.{view, items_of, items_view, members_view};
ghost use Rattle.serde_json.specs.Written.{has_float, items_have_float, members_have_float};
ghost use Rattle.city_writer.specs.shape.Vertices.{vertex_data};

use city_members::members::members_count;
use city_model::OutOfMemory;
use city_model::object::Point;
use serde_json::{Map, Value};
use std::alloc::Global;
use std::marker::Model;

/// Members of a fault's line: texts, whole numbers, points, and lists of such.
#[derive(Drop)]
pub struct Details {
    alloc: Global,
    members: Map<String, Value>,
}

impl Model for Details {
    ghost use Rattle.std.specs.Prelude.{◌≡◌, false};
    ghost use Rattle.serde_json.specs.Data.{Members};
    ghost use Rattle.serde_json.specs.View.{members_view};
    ghost use Rattle.serde_json.specs.Written.{members_have_float};
    ghost use Rattle.city_members.specs.internal.DataCode.{coded_members};

    ghost Value = { Members };

    ghost coded = { coded_members };

    ghost view = { λ a. members_view a.members.entries };

    ghost invariant = { λ a. members_have_float (members_view a.members.entries) ≡ false };
}

impl Details {
    ghost use Rattle.city_members.specs.Members.{AreOrdered};

    /// No members.
    pub fn new(alloc: Global) -> Details
        ensures { result ≡ no_members }
    {
        Details {
            alloc,
            members: Map::new(alloc),
        }
    }

    /// Adds a text.
    pub fn text(&mut self, name: &str, text: &str) -> Result<(), OutOfMemory>
        ensures { OnOk result (self.new ≡ put name.now (string text.now) self.old) }
    {
        let text = text.to_string(self.alloc)?;
        self.insert(name, Value::String(text))
    }

    /// Adds a count or a place in a list.
    pub fn number(&mut self, name: &str, number: usize) -> Result<(), OutOfMemory>
        ensures { OnOk result (self.new ≡ put name.now (numeral (unsigned number)) self.old) }
    {
        self.insert(name, Value::from(number))
    }

    /// Adds a whole number.
    pub fn integer(&mut self, name: &str, number: i64) -> Result<(), OutOfMemory>
        ensures { OnOk result (self.new ≡ put name.now (numeral (of_integer number)) self.old) }
    {
        self.insert(name, Value::from(number))
    }

    /// Adds a point, as an array of its coordinates.
    pub fn point(&mut self, name: &str, point: Point) -> Result<(), OutOfMemory>
        ensures { OnOk result (self.new ≡ put name.now (vertex_data point) self.old) }
    {
        let value = point_value(self.alloc, point)?;
        self.insert(name, value)
    }

    /// Adds a list of details, as an array of objects.
    pub fn list(&mut self, name: &str, items: Vec<Details>) -> Result<(), OutOfMemory>
        ensures { OnOk result (self.new ≡ put name.now (array (items_of (map object items.items))) self.old) }
    {
        let values = object_values(self.alloc, items)?;
        self.insert(name, Value::Array(values))
    }

    /// The members, by their names.
    pub fn into_members(self) -> Map<String, Value>
        ensures members { members_view result.entries ≡ self }
        ensures no_float { members_have_float self ≡ false }
        ensures ordered { AreOrdered self }
    {
        // (called for its contract: the names ascend)
        let _count = members_count(&self.members);
        self.members
    }

    fn insert(&mut self, name: &str, value: Value) -> Result<(), OutOfMemory>
        requires { has_float (view value) ≡ false }
        ensures { OnOk result (self.new ≡ put name.now (view value) self.old) }
    {
        let name = name.to_string(self.alloc)?;
        self.members.insert(name, value)?;
        Ok(())
    }
}

/// A point, as an array of its coordinates.
fn point_value(alloc: Global, point: Point) -> Result<Value, OutOfMemory>
    ensures value { IfOk result (λ v. view v ≡ vertex_data point) }
    ensures no_float { IfOk result (λ v. has_float (view v) ≡ false) }
{
    let mut coordinates = Vec::with_capacity(alloc, 3)?;
    coordinates.push(Value::from(point.x))?;
    coordinates.push(Value::from(point.y))?;
    coordinates.push(Value::from(point.z))?;
    Ok(Value::Array(coordinates))
}

/// Details as objects.
fn object_values(alloc: Global, items: Vec<Details>) -> Result<Vec<Value>, OutOfMemory>
    ensures values { IfOk result (λ vs. map view vs.items ≡ map object items.items) }
    ensures no_float { IfOk result (λ vs. items_have_float (items_view vs.items) ≡ false) }
{
    let mut values = Vec::with_capacity(alloc, items.len())?;
    for item in items {
        values.push(Value::Object(item.into_members()))?;
    }
    Ok(values)
}
