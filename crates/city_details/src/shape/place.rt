//! The place of a shell or a ring in an object's geometries.
use crate::diagnostic::Diagnostic;
use crate::quoted::Quoted;
use city_model::OutOfMemory;
use std::fmt::Write;

/// The place of a list of surfaces.
#[derive(Clone, Copy)]
pub struct SurfacesPlace<'v> {
    /// The number of the geometry.
    pub geometry: usize,
    pub lod: &'v str,
    /// The number of the solid, if the geometry has several.
    pub solid: Option<usize>,
    /// The number of the shell, if there are shells.
    pub shell: Option<usize>,
}

/// Narrows the place of a diagnostic to surfaces, and adds their numbers.
pub fn narrow_to_surfaces(
    place: &SurfacesPlace<'_>,
    diagnostic: &mut Diagnostic,
) -> Result<(), OutOfMemory> {
    let number = place.geometry;
    diagnostic.details.number("geometry", number)?;
    diagnostic.details.text("lod", place.lod)?;
    let lod = Quoted(place.lod);
    write!(diagnostic.narrowed()?, "geometry {number} (lod {lod})")?;
    narrow_to_part("solid", place.solid, diagnostic)?;
    narrow_to_part("shell", place.shell, diagnostic)
}

/// Narrows the place of a diagnostic to a ring of surfaces, and adds its numbers. Surfaces without rings have none.
pub fn narrow_to_ring(
    place: &SurfacesPlace<'_>,
    surface: usize,
    ring: Option<usize>,
    diagnostic: &mut Diagnostic,
) -> Result<(), OutOfMemory> {
    narrow_to_surfaces(place, diagnostic)?;
    narrow_to_part("surface", Some(surface), diagnostic)?;
    narrow_to_part("ring", ring, diagnostic)
}

/// Narrows the place to the part of this number, if there is one, and adds the number.
fn narrow_to_part(
    part: &str,
    number: Option<usize>,
    diagnostic: &mut Diagnostic,
) -> Result<(), OutOfMemory> {
    let Some(number) = number else {
        return Ok(());
    };
    write!(diagnostic.narrowed()?, "{part} {number}")?;
    diagnostic.details.number(part, number)
}
