//! The walk through boundaries: the lists of surfaces of an object, and the rings of such a list.
use crate::shape::nesting::Nesting;
use crate::shape::place::SurfacesPlace;
use city_model::OutOfMemory;
use city_model::shape_type::ShapeType;
use serde_json::Value;
use std::alloc::Global;

/// The items of a value; none if it isn't an array.
pub fn items_of(value: &Value) -> &[Value] {
    match value.as_array() {
        None => &[],
        Some(items) => items.as_slice(),
    }
}

/// The items of a member; none if it isn't an array.
fn items_at<'v>(object: &'v Value, name: &str) -> &'v [Value] {
    match object.get(name) {
        None => &[],
        Some(value) => items_of(value),
    }
}

/// The geometries of an object.
pub fn geometries_of(object: &Value) -> &[Value] {
    items_at(object, "geometry")
}

/// A geometry of an object, with its number.
#[derive(Clone, Copy)]
pub struct Geometry<'v> {
    pub number: usize,
    pub value: &'v Value,
}

/// The surfaces of a shell, or of a geometry without shells.
#[derive(Clone, Copy)]
pub struct Surfaces<'v> {
    pub geometry: Geometry<'v>,
    /// The number of the solid, if the geometry has several.
    pub solid: Option<usize>,
    /// The number of the shell, if there are shells.
    pub shell: Option<usize>,
    pub items: &'v [Value],
}

impl<'v> Surfaces<'v> {
    /// Their place.
    pub fn place(&self) -> SurfacesPlace<'v> {
        let lod = self.geometry.value.get("lod").and_then(Value::as_str);
        SurfacesPlace {
            geometry: self.geometry.number,
            lod: lod.unwrap_or(""),
            solid: self.solid,
            shell: self.shell,
        }
    }
}

/// The lists of surfaces of an object's geometries: one for each shell, and one for a geometry without shells.
pub fn surfaces_of<'v>(alloc: Global, object: &'v Value) -> Result<Vec<Surfaces<'v>>, OutOfMemory> {
    let mut lists = Vec::new(alloc);
    for (number, value) in geometries_of(object).iter().enumerate() {
        push_geometry(Geometry { number, value }, &mut lists)?;
    }
    Ok(lists)
}

fn push_geometry<'v>(
    geometry: Geometry<'v>,
    lists: &mut Vec<Surfaces<'v>>,
) -> Result<(), OutOfMemory> {
    let kind = geometry.value.get("type").and_then(Value::as_str);
    let items = items_at(geometry.value, "boundaries");
    match kind.and_then(ShapeType::of_name).map(Nesting::of) {
        None => {}
        Some(Nesting::Surfaces) => lists.push(Surfaces {
            geometry,
            solid: None,
            shell: None,
            items,
        })?,
        Some(Nesting::Shells) => push_shells(geometry, None, items, lists)?,
        Some(Nesting::Solids) => {
            for (solid, shells) in items.iter().enumerate() {
                push_shells(geometry, Some(solid), items_of(shells), lists)?;
            }
        }
    }
    Ok(())
}

fn push_shells<'v>(
    geometry: Geometry<'v>,
    solid: Option<usize>,
    shells: &'v [Value],
    lists: &mut Vec<Surfaces<'v>>,
) -> Result<(), OutOfMemory> {
    for (shell, surfaces) in shells.iter().enumerate() {
        lists.push(Surfaces {
            geometry,
            solid,
            shell: Some(shell),
            items: items_of(surfaces),
        })?;
    }
    Ok(())
}

/// A ring, or a surface without rings.
#[derive(Clone, Copy)]
pub struct Ring<'v> {
    /// The number of the surface.
    pub surface: usize,
    /// The number of the ring; None for a surface without rings.
    pub ring: Option<usize>,
    pub positions: &'v [Value],
}

/// The rings of surfaces, in order.
pub fn rings_of<'v>(alloc: Global, surfaces: &Surfaces<'v>) -> Result<Vec<Ring<'v>>, OutOfMemory> {
    let mut rings = Vec::new(alloc);
    for (surface, value) in surfaces.items.iter().enumerate() {
        push_rings(surface, items_of(value), &mut rings)?;
    }
    Ok(rings)
}

fn push_rings<'v>(
    surface: usize,
    items: &'v [Value],
    rings: &mut Vec<Ring<'v>>,
) -> Result<(), OutOfMemory> {
    if items.is_empty() {
        rings.push(Ring {
            surface,
            ring: None,
            positions: items,
        })?;
    }
    for (number, ring) in items.iter().enumerate() {
        rings.push(Ring {
            surface,
            ring: Some(number),
            positions: items_of(ring),
        })?;
    }
    Ok(())
}
