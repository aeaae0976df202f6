//! Writes geometries, each point as its number.
ghost use Rattle.std.specs.Prelude.{◌≡◌, ◌++◌, ◌∷◌, [], List, OnOk, true, Bool, flat_map};
ghost use Rattle.std.specs.List.{list_all};
ghost use Rattle.serde_json.specs.Data.{Data};
ghost use Rattle.city_model.specs.declared.object.Point as p;
ghost use Rattle.city_writer.specs.tree.Lists.{list_data};
ghost use Rattle.city_writer.specs.shape.Canonical.{point_data, boundaries_data, geometry_data};
ghost use Rattle.city_writer.specs.internal.document.KeptMembers.{is_kept_geometry};
ghost use Rattle.city_model.specs.Nesting.{shape_name};
ghost use Rattle.city_writer.specs.Pool.{shape_points, geometry_points};
ghost use Rattle.city_writer.specs.internal.Pool.{with_points};
ghost use Rattle.city_writer.specs.tree.Tokens.{tokens_of};
ghost use Rattle.city_writer.specs.internal.tree.ReadsBack.{ReadsBackNumbered};

use crate::point_numbers::PointNumbers;
use crate::pool::VertexPool;
use crate::tree::kept_members::KeptMembers;
use crate::tree::whole_numbers::write_u64;
use city_members::sequence::Sequence;
use city_model::OutOfMemory;
use city_model::object::{Geometry, Point, Shape};
use city_model::shape::Bounds;
use json::Writer;

/// Written as JSON, each point as its number in a pool.
pub trait Written {
    ghost points: { Self → List p.Point };

    ghost written: { List p.Point → Self → Data };

    ghost is_kept: { Self → Bool };

    /// Writes the value. New points are added to the pool as they are met.
    fn write(&self, pool: &mut PointNumbers<'_>, out: &mut Writer) -> Result<(), OutOfMemory>
        ensures pool { OnOk result (pool.new ≡ with_points pool.old (points self.now)) }
        ensures before { OnOk result (out.new.before ≡ out.old.before) }
        ensures tokens { OnOk result ((later : List p.Point) → out.new.tokens
            ≡ out.old.tokens ++ tokens_of (written (with_points pool.new later) self.now)) }
        ensures reads { OnOk result (ReadsBackNumbered (λ ps. written ps self.now)) }
        ensures kept { OnOk result (is_kept self.now ≡ true) };

    /// Adds the points of the value to a pool, in the order of `write`.
    fn add_points(&self, pool: &mut VertexPool) -> Result<(), OutOfMemory>
        ensures { OnOk result (pool.new ≡ with_points pool.old (points self.now)) };
}

impl Written for Point {
    ghost points = { λ q. q ∷ [] };

    ghost written = { point_data };

    ghost is_kept = { λ _. true };

    fn write(&self, pool: &mut PointNumbers<'_>, out: &mut Writer) -> Result<(), OutOfMemory> {
        let number = pool.add(*self)?;
        write_u64(number as u64, out)
    }

    fn add_points(&self, pool: &mut VertexPool) -> Result<(), OutOfMemory> {
        let _ = pool.add(*self)?;
        Ok(())
    }
}

impl<T: Written> Written for Sequence<T> {
    ghost points = { λ xs. flat_map T.points xs };

    ghost written = { λ ps xs. list_data (T.written ps) xs };

    ghost is_kept = { λ xs. list_all T.is_kept xs };

    fn write(&self, pool: &mut PointNumbers<'_>, out: &mut Writer) -> Result<(), OutOfMemory> {
        out.begin_array()?;
        let items = self.as_slice();
        for item in items {
            item.write(pool, out)?;
        }
        out.end_array()
    }

    fn add_points(&self, pool: &mut VertexPool) -> Result<(), OutOfMemory> {
        let items = self.as_slice();
        for item in items {
            item.add_points(pool)?;
        }
        Ok(())
    }
}

impl Written for Shape {
    ghost points = { shape_points };

    ghost written = { boundaries_data };

    ghost is_kept = { λ _. true };

    fn write(&self, pool: &mut PointNumbers<'_>, out: &mut Writer) -> Result<(), OutOfMemory> {
        match self.bounds() {
            Bounds::Surfaces(surfaces) => surfaces.write(pool, out),
            Bounds::Shells(shells) => shells.write(pool, out),
            Bounds::Solids(solids) => solids.write(pool, out),
        }
    }

    fn add_points(&self, pool: &mut VertexPool) -> Result<(), OutOfMemory> {
        match self.bounds() {
            Bounds::Surfaces(surfaces) => surfaces.add_points(pool),
            Bounds::Shells(shells) => shells.add_points(pool),
            Bounds::Solids(solids) => solids.add_points(pool),
        }
    }
}

/// The name of a shape's type.
fn shape_name(shape: &Shape) -> &'static str
    ensures { result.now ≡ shape_name shape.now }
{
    shape.shape_type().name()
}

impl Written for Geometry {
    ghost points = { geometry_points };

    ghost written = { geometry_data };

    ghost is_kept = { is_kept_geometry };

    #[tactic(auto, unfolding(crate::specs::internal::document::KeptMembers::is_kept_geometry))]
    fn write(&self, pool: &mut PointNumbers<'_>, out: &mut Writer) -> Result<(), OutOfMemory> {
        let members = self.extra.map();
        let mut kept = KeptMembers::new(members);
        out.begin_object()?;
        kept.write_name("boundaries", out)?;
        self.shape.write(pool, out)?;
        kept.write_name("lod", out)?;
        out.string(self.lod.as_str())?;
        kept.write_name("type", out)?;
        out.string(shape_name(&self.shape))?;
        kept.write_last(out)
    }

    fn add_points(&self, pool: &mut VertexPool) -> Result<(), OutOfMemory> {
        self.shape.add_points(pool)
    }
}
