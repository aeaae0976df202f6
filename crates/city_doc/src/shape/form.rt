//! Recognises trees with the form of geometries (CityJSON 2.0, section 3).
ghost use Rattle.std.specs.Prelude.{◌≡◌, option_map};
ghost use Rattle.serde_json.specs.View.{view};
ghost use Rattle.city_doc.specs.shape.Forms.{is_boundaries, are_boundaries_of, is_geometry, are_geometries};

use crate::shape::nested::{Formed, Leaf};
use crate::tree::values::text_at;
use city_members::sequence::Sequence;
use city_model::object::{Geometry, Shell, Solid, Surface};
use city_model::shape_type::ShapeType;
use serde_json::Value;

/// Whether a value has the form of the boundaries of a geometry of this type.
fn is_boundaries<L: Leaf>(leaf: &L, kind: &str, value: &Value) -> bool
    ensures { result ≡ is_boundaries (L.test leaf.now) kind.now (view value.now) }
{
    let Some(kind) = ShapeType::of_name(kind) else {
        return false;
    };
    match kind {
        ShapeType::MultiSurface | ShapeType::CompositeSurface => {
            Sequence::<Surface>::has_form(leaf, value)
        }
        ShapeType::Solid => Sequence::<Shell>::has_form(leaf, value),
        ShapeType::MultiSolid | ShapeType::CompositeSolid => {
            Sequence::<Solid>::has_form(leaf, value)
        }
    }
}

fn are_boundaries_of<L: Leaf>(leaf: &L, kind: Option<&str>, value: Option<&Value>) -> bool
    ensures { result ≡ are_boundaries_of (L.test leaf.now)
        (option_map (λ s. s.now) kind.entry) (option_map (λ v. view v.now) value.entry) }
{
    match kind {
        None => false,
        Some(kind) => match value {
            None => false,
            Some(value) => is_boundaries(leaf, kind, value),
        },
    }
}

impl Formed for Geometry {
    ghost has_form = { is_geometry };

    fn has_form<L: Leaf>(leaf: &L, value: &Value) -> bool {
        text_at(value, "lod").is_some()
            && are_boundaries_of(leaf, text_at(value, "type"), value.get("boundaries"))
    }
}

/// Whether a member is absent, or an array of geometries. The leaf says what their rings may hold.
pub fn are_geometries<L: Leaf>(leaf: &L, member: Option<&Value>) -> bool
    ensures { result ≡ are_geometries (L.test leaf.now) (option_map (λ v. view v.now) member.entry) }
{
    match member {
        None => true,
        Some(value) => Sequence::<Geometry>::has_form(leaf, value),
    }
}
