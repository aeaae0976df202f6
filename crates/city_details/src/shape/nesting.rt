//! How the boundaries of a geometry are nested, by its type (CityJSON 2.0, section 3).
use city_model::shape_type::ShapeType;
use serde_json::Value;

/// The items of the outermost array of boundaries.
#[derive(Clone, Copy)]
pub enum Nesting {
    Surfaces,
    Shells,
    Solids,
}

impl Nesting {
    /// The nesting of a type of geometry.
    pub fn of(kind: ShapeType) -> Nesting {
        match kind {
            ShapeType::MultiSurface | ShapeType::CompositeSurface => Nesting::Surfaces,
            ShapeType::Solid => Nesting::Shells,
            ShapeType::MultiSolid | ShapeType::CompositeSolid => Nesting::Solids,
        }
    }

    /// The number of arrays around a position.
    pub fn depth(self) -> usize {
        match self {
            Nesting::Surfaces => 3,
            Nesting::Shells => 4,
            Nesting::Solids => 5,
        }
    }

    /// Whether boundaries are numbers, nested like this.
    pub fn has(self, boundaries: &Value) -> bool {
        is_nested(boundaries, self.depth())
    }
}

/// Whether a value is numbers within `depth` arrays.
#[cycle(nested)]
fn is_nested(value: &Value, depth: usize) -> bool {
    if depth == 0 {
        return value.is_number();
    }
    match value.as_array() {
        None => false,
        Some(items) => are_nested(items.as_slice(), depth - 1),
    }
}

#[cycle(nested)]
fn are_nested(items: &[Value], depth: usize) -> bool {
    for item in items {
        if !is_nested(item, depth) {
            return false;
        }
    }
    true
}
