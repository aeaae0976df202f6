//! The types of geometries.
ghost use Rattle.std.specs.Prelude.{◌≡◌, IfSome};
ghost use Rattle.city_model.specs.ShapeTypes.{type_name, type_named, type_of};

use crate::object::Shape;

/// The type of a geometry (CityJSON 2.0, section 3.2).
#[derive(Clone, Copy, Debug, PartialEq, Eq)]
pub enum ShapeType {
    MultiSurface,
    CompositeSurface,
    Solid,
    MultiSolid,
    CompositeSolid,
}

impl ShapeType {
    /// The name of the type. Doesn't allocate.
    pub fn name(self) -> &'static str
        ensures { result.now ≡ type_name self }
    {
        match self {
            ShapeType::MultiSurface => "MultiSurface",
            ShapeType::CompositeSurface => "CompositeSurface",
            ShapeType::Solid => "Solid",
            ShapeType::MultiSolid => "MultiSolid",
            ShapeType::CompositeSolid => "CompositeSolid",
        }
    }

    /// The type of this name. Doesn't allocate.
    pub fn of_name(name: &str) -> Option<ShapeType>
        ensures found { result ≡ type_named name.now }
        ensures named { IfSome result (λ kind. name.now ≡ type_name kind) }
    {
        match name {
            "MultiSurface" => Some(ShapeType::MultiSurface),
            "CompositeSurface" => Some(ShapeType::CompositeSurface),
            "Solid" => Some(ShapeType::Solid),
            "MultiSolid" => Some(ShapeType::MultiSolid),
            "CompositeSolid" => Some(ShapeType::CompositeSolid),
            _ => None,
        }
    }
}

impl Shape {
    /// The type of the shape. Doesn't allocate.
    pub fn shape_type(&self) -> ShapeType
        ensures { result ≡ type_of self.now }
    {
        match self {
            Shape::MultiSurface(_) => ShapeType::MultiSurface,
            Shape::CompositeSurface(_) => ShapeType::CompositeSurface,
            Shape::Solid(_) => ShapeType::Solid,
            Shape::MultiSolid(_) => ShapeType::MultiSolid,
            Shape::CompositeSolid(_) => ShapeType::CompositeSolid,
        }
    }
}
