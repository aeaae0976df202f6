//! City objects and their geometries.
ghost use Rattle.std.specs.Prelude.{◌≡◌};

use crate::object_type::ObjectType;
use crate::shared_ids::SharedIds;
use city_members::kept::extra::Extra;
use city_members::kept::shared_extra::SharedExtra;
use city_members::kept::site::AtGeometry;
use city_members::sequence::Sequence;
use city_members::shared::Shared;
use city_members::text::{Id, Text};

/// A point, in whole units; ordered by x, then y, then z.
#[derive(Clone, Copy, Debug, PartialEq, Eq, PartialOrd, Ord, Hash)]
pub struct Point {
    pub x: i64,
    pub y: i64,
    pub z: i64,
}

/// A closed line of points; the first isn't repeated at the end.
pub type Ring = Sequence<Point>;

/// An exterior ring, then interior ones.
pub type Surface = Sequence<Ring>;

/// The surfaces round a body.
pub type Shell = Sequence<Surface>;

/// An exterior shell, then interior ones.
pub type Solid = Sequence<Shell>;

/// The type of a geometry, with its boundaries (CityJSON 2.0, section 3.2).
#[derive(Drop)]
pub enum Shape {
    MultiSurface(Sequence<Surface>),
    CompositeSurface(Sequence<Surface>),
    Solid(Solid),
    MultiSolid(Sequence<Solid>),
    CompositeSolid(Sequence<Solid>),
}

/// A geometry of a city object.
#[derive(Drop)]
pub struct Geometry {
    /// The level of detail.
    pub lod: Text,
    pub shape: Shape,
    pub extra: Extra<AtGeometry>,
}

/// The geometries of a city object. A copy shares them: they may be long, and an edit of
/// attributes writes the object anew.
pub type Geometries = Shared<Sequence<Geometry>>;

/// All of an object but its relations, as a put gives it.
#[derive(Drop)]
pub struct Body {
    pub kind: ObjectType,
    pub geometry: Geometries,
    pub extra: SharedExtra,
}

/// A city object (CityJSON 2.0, section 2). A copy shares its body and the ids of its children.
#[derive(Drop)]
pub struct Object {
    pub body: Shared<Body>,
    pub parents: SharedIds,
    pub children: SharedIds,
}
