//! Lists within lists, as boundaries down to positions: their form, and their points.
ghost use Rattle.std.specs.Prelude.{◌≡◌, Bool, List, Option, IfOk};
ghost use Rattle.serde_json.specs.Data.{Data};
ghost use Rattle.serde_json.specs.View.{view, items_view};
ghost use Rattle.city_model.specs.declared.object.Point as p;
ghost use Rattle.city_tokens.specs.tree.Lists.{read_items, list_of};
ghost use Rattle.city_tokens.specs.shape.Geometries.{point_at};
ghost use Rattle.city_doc.specs.shape.Forms.{is_number, is_position, position_of, all_items, is_list_of};

use city_members::sequence::Sequence;
use city_model::OutOfMemory;
use city_model::object::Point;
use serde_json::Value;
use std::alloc::Global;

/// A test of a position.
pub trait Leaf {
    ghost test: { Self → Data → Bool };

    /// Whether the value may stand in a ring.
    fn admits(&self, value: &Value) -> bool
        ensures { result ≡ test self.now (view value.now) };
}

/// A number, whatever it names.
pub struct AnyNumber;

/// The position of one of so many vertices.
#[derive(Clone, Copy)]
pub struct PositionBelow(pub usize);

impl Leaf for AnyNumber {
    ghost test = { λ _. is_number };

    fn admits(&self, value: &Value) -> bool {
        value.is_number()
    }
}

/// The position of a value, unless it is negative.
fn position_of(value: &Value) -> Option<usize>
    ensures { result ≡ position_of (view value.now) }
{
    let position = value.as_i64()?;
    if position < 0 {
        None
    } else {
        Some(position as usize)
    }
}

impl Leaf for PositionBelow {
    ghost test = { λ s. is_position s.0 };

    fn admits(&self, value: &Value) -> bool {
        match position_of(value) {
            None => false,
            Some(position) => position < self.0,
        }
    }
}

/// The form of the trees of a type.
pub trait Formed {
    ghost has_form: { (Data → Bool) → Data → Bool };

    /// Whether a value has the form. The leaf judges the values in rings.
    fn has_form<L: Leaf>(leaf: &L, value: &Value) -> bool
        ensures { result ≡ has_form (L.test leaf.now) (view value.now) };
}

impl Formed for Point {
    ghost has_form = { λ leaf. leaf };

    fn has_form<L: Leaf>(leaf: &L, value: &Value) -> bool {
        leaf.admits(value)
    }
}

impl<T: Formed> Formed for Sequence<T> {
    ghost has_form = { λ leaf. is_list_of (T.has_form leaf) };

    fn has_form<L: Leaf>(leaf: &L, value: &Value) -> bool {
        match value.as_array() {
            None => false,
            Some(items) => all_have_form::<T, L>(leaf, items),
        }
    }
}

fn all_have_form<T: Formed, L: Leaf>(leaf: &L, items: &Vec<Value>) -> bool
    ensures { result ≡ all_items (T.has_form (L.test leaf.now)) (items_view items.now.items) }
{
    for item in items {
        if !T::has_form(leaf, item) {
            return false;
        }
    }
    true
}

/// A list of lists down to points, or a point.
pub trait Nested: Sized {
    ghost reads: { List p.Point → Data → Option Self };

    /// The value of a tree, with points in place of positions; None if it isn't nested like this, or if a position has
    /// no point.
    fn read(alloc: Global, points: &[Point], value: &Value) -> Result<Option<Self>, OutOfMemory>
        ensures { IfOk result (λ o. o ≡ reads points.now (view value.now)) };
}

impl Nested for Point {
    ghost reads = { point_at };

    fn read(_alloc: Global, points: &[Point], value: &Value) -> Result<Option<Point>, OutOfMemory> {
        let Some(position) = position_of(value) else {
            return Ok(None);
        };
        Ok(points.get(position).copied())
    }
}

impl<T: Nested + Drop> Nested for Sequence<T> {
    ghost reads = { λ points. list_of (T.reads points) };

    fn read(
        alloc: Global,
        points: &[Point],
        value: &Value,
    ) -> Result<Option<Sequence<T>>, OutOfMemory> {
        match value.as_array() {
            None => Ok(None),
            Some(items) => read_items(alloc, points, items),
        }
    }
}

fn read_items<T: Nested + Drop>(
    alloc: Global,
    points: &[Point],
    items: &Vec<Value>,
) -> Result<Option<Sequence<T>>, OutOfMemory>
    ensures { IfOk result (λ o. o ≡ read_items (T.reads points.now) (items_view items.now.items)) }
{
    let mut found = Sequence::with_capacity(alloc, items.len())?;
    for item in items {
        match T::read(alloc, points, item)? {
            Some(one) => found.push(one)?,
            None => return Ok(None),
        }
    }
    Ok(Some(found))
}
