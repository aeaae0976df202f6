//! Reads geometries before points replace their positions.
ghost use Rattle.std.specs.Prelude.{◌≡◌, ℕ, Some, IfSome};
ghost use Rattle.serde_json.specs.Data.{Data, Members, object};
ghost use Rattle.serde_json.specs.View.{members_view};
ghost use Rattle.city_model.specs.ShapeTypes.{type_name};
ghost use Rattle.city_tokens.specs.internal.Geometries.{AreBoundaries, IsShape, IsGeometry, IsGeometrySoFar};

use crate::boundaries::{Boundaries, read_boundaries};
use crate::list::FromTokens;
use crate::member_visitor::{MemberVisitor, read_object};
use crate::text::{is_name, read_str, text_of};
use city_members::kept::extra::Extra;
use city_members::text::Text;
use city_model::object::{Geometry, Shape};
use city_model::shape_type::ShapeType;
use city_reader::Reader;
use serde_json::{Map, Value};
use std::alloc::Global;

/// The shape of this type and these boundaries, if they fit each other.
fn shape_of(kind: ShapeType, boundaries: Boundaries) -> Option<Shape>
    ensures { IfSome result (λ shape. (d : Data) → AreBoundaries boundaries d
        → IsShape shape (type_name kind) d) }
{
    match boundaries {
        Boundaries::Surfaces(surfaces) => match kind {
            ShapeType::MultiSurface => Some(Shape::MultiSurface(surfaces)),
            ShapeType::CompositeSurface => Some(Shape::CompositeSurface(surfaces)),
            _ => None,
        },
        Boundaries::Shells(shells) => match kind {
            ShapeType::Solid => Some(Shape::Solid(shells)),
            _ => None,
        },
        Boundaries::Solids(solids) => match kind {
            ShapeType::MultiSolid => Some(Shape::MultiSolid(solids)),
            ShapeType::CompositeSolid => Some(Shape::CompositeSolid(solids)),
            _ => None,
        },
    }
}

/// The members of a geometry read so far.
#[derive(Drop)]
pub struct GeometryParts {
    pub kind: Option<ShapeType>,
    pub lod: Option<Text>,
    pub boundaries: Option<Boundaries>,
}

impl MemberVisitor for GeometryParts {
    ghost stands = { IsGeometrySoFar };

    fn visit_member(
        &mut self,
        alloc: Global,
        name: &str,
        reader: &mut Reader<'_>,
        depth: usize,
    ) -> Option<bool> {
        if is_name(name, "type") {
            let name = read_str(reader)?;
            self.kind = Some(ShapeType::of_name(name)?);
        } else if is_name(name, "lod") {
            let lod = Text::from_tokens(alloc, reader, depth)?;
            self.lod = Some(lod);
        } else if is_name(name, "boundaries") {
            let boundaries = read_boundaries(alloc, reader, depth)?;
            self.boundaries = Some(boundaries);
        } else {
            return Some(false);
        }
        Some(true)
    }
}

/// The geometry of all its members, read and kept.
fn geometry_of(parts: GeometryParts, kept: Map<String, Value>) -> Option<Geometry>
    ensures { IfSome result (λ g. (found : Members)
        → IsGeometrySoFar parts found (members_view kept.entries) → IsGeometry g (object found)) }
{
    let kind = parts.kind?;
    let lod = parts.lod?;
    let shape = shape_of(kind, parts.boundaries?)?;
    let extra = Extra::new(kept).ok()?;
    Some(Geometry { lod, shape, extra })
}

impl FromTokens for Geometry {
    const ROOM: usize = 2;

    ghost stands = { IsGeometry };

    fn from_tokens(alloc: Global, reader: &mut Reader<'_>, depth: usize) -> Option<Geometry> {
        let start = GeometryParts {
            kind: None,
            lod: None,
            boundaries: None,
        };
        let (parts, kept) = read_object(alloc, reader, depth, start)?;
        geometry_of(parts, kept)
    }
}
