//! Rings by their points, in a tree or in a model.
use crate::shape::place::SurfacesPlace;
use crate::shape::points::points_of;
use crate::shape::walk::{Surfaces, rings_of};
use city_model::OutOfMemory;
use city_model::object::{Geometry, Point, Ring, Shell, Surface};
use city_model::shape::Bounds;
use serde_json::Value;
use std::alloc::Global;

/// A ring by its points, or a surface without rings.
#[derive(Drop)]
pub struct PointRing {
    /// The number of the surface.
    pub surface: usize,
    /// The number of the ring; None for a surface without rings.
    pub ring: Option<usize>,
    pub points: Vec<Point>,
}

/// The rings of surfaces in a tree, in order.
pub fn rings_in_tree(
    alloc: Global,
    surfaces: &Surfaces<'_>,
    vertices: &[Point],
) -> Result<Vec<PointRing>, OutOfMemory> {
    let mut rings = Vec::new(alloc);
    for ring in &rings_of(alloc, surfaces)? {
        rings.push(PointRing {
            surface: ring.surface,
            ring: ring.ring,
            points: points_of(alloc, ring.positions, vertices)?,
        })?;
    }
    Ok(rings)
}

/// The surfaces of a model's shell, or of its geometry without shells.
#[derive(Clone, Copy)]
pub struct ModelSurfaces<'m> {
    pub place: SurfacesPlace<'m>,
    items: &'m [Surface],
}

/// The lists of surfaces of geometries: one for each shell, and one for a geometry without shells.
pub fn surfaces_in_model<'m>(
    alloc: Global,
    geometries: &'m [Geometry],
) -> Result<Vec<ModelSurfaces<'m>>, OutOfMemory> {
    let mut lists = Vec::new(alloc);
    for (number, geometry) in geometries.iter().enumerate() {
        let place = SurfacesPlace {
            geometry: number,
            lod: geometry.lod.as_str(),
            solid: None,
            shell: None,
        };
        push_bounds(place, geometry.shape.bounds(), &mut lists)?;
    }
    Ok(lists)
}

fn push_bounds<'m>(
    place: SurfacesPlace<'m>,
    bounds: Bounds<'m>,
    lists: &mut Vec<ModelSurfaces<'m>>,
) -> Result<(), OutOfMemory> {
    match bounds {
        Bounds::Surfaces(surfaces) => lists.push(ModelSurfaces {
            place,
            items: surfaces.as_slice(),
        })?,
        Bounds::Shells(shells) => push_shells(place, shells.as_slice(), lists)?,
        Bounds::Solids(solids) => {
            for (solid, shells) in solids.as_slice().iter().enumerate() {
                let place = SurfacesPlace {
                    geometry: place.geometry,
                    lod: place.lod,
                    solid: Some(solid),
                    shell: None,
                };
                push_shells(place, shells.as_slice(), lists)?;
            }
        }
    }
    Ok(())
}

fn push_shells<'m>(
    place: SurfacesPlace<'m>,
    shells: &'m [Shell],
    lists: &mut Vec<ModelSurfaces<'m>>,
) -> Result<(), OutOfMemory> {
    for (shell, surfaces) in shells.iter().enumerate() {
        let place = SurfacesPlace {
            geometry: place.geometry,
            lod: place.lod,
            solid: place.solid,
            shell: Some(shell),
        };
        lists.push(ModelSurfaces {
            place,
            items: surfaces.as_slice(),
        })?;
    }
    Ok(())
}

/// The rings of surfaces in a model, in order.
pub fn rings_in_model(
    alloc: Global,
    surfaces: &ModelSurfaces<'_>,
) -> Result<Vec<PointRing>, OutOfMemory> {
    let mut rings = Vec::new(alloc);
    for (surface, items) in surfaces.items.iter().enumerate() {
        push_rings(alloc, surface, items.as_slice(), &mut rings)?;
    }
    Ok(rings)
}

fn push_rings(
    alloc: Global,
    surface: usize,
    items: &[Ring],
    rings: &mut Vec<PointRing>,
) -> Result<(), OutOfMemory> {
    if items.is_empty() {
        rings.push(PointRing {
            surface,
            ring: None,
            points: Vec::new(alloc),
        })?;
    }
    for (number, ring) in items.iter().enumerate() {
        rings.push(PointRing {
            surface,
            ring: Some(number),
            points: ring.as_slice().to_vec(alloc)?,
        })?;
    }
    Ok(())
}
