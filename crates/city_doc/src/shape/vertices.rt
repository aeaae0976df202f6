//! Reads lists of vertices.
ghost use Rattle.std.specs.Prelude.{◌≡◌, ◌<◌, IfOk};
ghost use Rattle.serde_json.specs.View.{view, items_view};
ghost use Rattle.city_tokens.specs.tree.Lists.{read_items};
ghost use Rattle.city_tokens.specs.document.Cities.{points_in};
ghost use Rattle.city_doc.specs.document.Faults.{vertices_in};
ghost use Rattle.city_tokens.specs.tree.Triples.{point_of, points_of};

use city_members::sequence::Sequence;
use city_model::OutOfMemory;
use city_model::object::Point;
use city_tokens::triple_of;
use serde_json::Value;
use std::alloc::Global;

/// The point of an array of three whole numbers.
fn point_of(value: &Value) -> Option<Point>
    ensures { result ≡ point_of (view value.now) }
{
    let [x, y, z] = triple_of(value)?;
    Some(Point { x, y, z })
}

fn read_points(alloc: Global, items: &Vec<Value>) -> Result<Option<Sequence<Point>>, OutOfMemory>
    ensures { IfOk result (λ o. o ≡ read_items point_of (items_view items.now.items)) }
{
    let mut points = Sequence::with_capacity(alloc, items.len())?;
    for item in items {
        match point_of(item) {
            Some(point) => points.push(point)?,
            None => return Ok(None),
        }
    }
    Ok(Some(points))
}

/// The points of an array of arrays of three whole numbers.
pub fn points_of(alloc: Global, value: &Value) -> Result<Option<Sequence<Point>>, OutOfMemory>
    ensures { IfOk result (λ o. o ≡ points_of (view value.now)) }
{
    match value.as_array() {
        None => Ok(None),
        Some(items) => read_points(alloc, items),
    }
}

fn points_in(alloc: Global, tree: &Value) -> Result<Option<Sequence<Point>>, OutOfMemory>
    ensures { IfOk result (λ o. o ≡ points_in (view tree.now)) }
{
    match tree.get("vertices") {
        None => Ok(None),
        Some(vertices) => points_of(alloc, vertices),
    }
}

/// The points of a document's vertices; none if the tree has no vertices.
pub fn vertices_in(alloc: Global, tree: &Value) -> Result<Sequence<Point>, OutOfMemory>
    ensures { IfOk result (λ points. points ≡ vertices_in (view tree.now)) }
{
    match points_in(alloc, tree)? {
        Some(points) => Ok(points),
        None => Ok(Sequence::new(alloc)),
    }
}
