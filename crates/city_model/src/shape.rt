//! The boundaries of a shape, whatever its type.
ghost use Rattle.std.specs.Prelude.{◌≡◌};
ghost use Rattle.city_model.specs.internal.BorrowedBounds.{boundaries_of, bounds_view};

use crate::object::{Shape, Shell, Solid, Surface};
use city_members::sequence::Sequence;

/// The boundaries of a shape, borrowed from it.
#[derive(Clone, Copy)]
pub enum Bounds<'a> {
    /// Surfaces; they needn't close.
    Surfaces(&'a Sequence<Surface>),
    /// The shells of one solid.
    Shells(&'a Sequence<Shell>),
    Solids(&'a Sequence<Solid>),
}

impl Shape {
    /// The boundaries of the shape. Doesn't allocate.
    pub fn bounds(&self) -> Bounds<'_>
        ensures { bounds_view result ≡ boundaries_of self.now }
    {
        match self {
            Shape::MultiSurface(surfaces) | Shape::CompositeSurface(surfaces) => {
                Bounds::Surfaces(surfaces)
            },
            Shape::Solid(shells) => Bounds::Shells(shells),
            Shape::MultiSolid(solids) | Shape::CompositeSolid(solids) => Bounds::Solids(solids),
        }
    }
}
