//! Objects without the parent required by their type.
ghost use Rattle.std.specs.Prelude.{◌≡◌, IfSome, IfNone};
ghost use Rattle.city_model.specs.CityMap.{object_at};
ghost use Rattle.city_model.specs.Relations.{is_orphan, HasNoOrphan, IsLeastOrphan};

use crate::city::City;
use crate::object::Object;
use crate::object_type::level;
use city_members::text::Id;

/// Whether an object is second-level and has no parent.
pub fn is_orphan(object: &Object) -> bool
    ensures { result ≡ is_orphan object.now }
{
    level(object.body.get().kind) == 2 && object.parents.is_empty()
}

/// The least id of an orphan, in byte order; `None` if no object is one. Doesn't allocate.
pub fn least_orphan(city: &City) -> Option<&Id>
    ensures least { IfSome result (λ id. IsLeastOrphan (object_at city.now.1) id.now) }
    ensures none { IfNone result (HasNoOrphan (object_at city.now.1)) }
{
    for (id, object) in city.iter() {
        if is_orphan(object) {
            return Some(id);
        }
    }
    None
}
