//! The object that keeps the room of an absent one.
ghost use Rattle.std.specs.Prelude.{◌≡◌, unwrap_or};
ghost use Rattle.city_txn.specs.Placeholder.{placeholder};

use city_members::kept::extra::Extra;
use city_members::kept::shared_extra::SharedExtra;
use city_members::sequence::Sequence;
use city_members::shared::Shared;
use city_model::object::{Body, Object};
use city_model::object_type::ObjectType;
use city_model::shared_ids::SharedIds;
use serde_json::Map;
use std::alloc::Global;

/// A generic object without geometry, kept members or relations, to keep the room of an absent
/// object. Doesn't allocate.
pub fn placeholder(alloc: Global) -> Object
    ensures { result ≡ placeholder }
{
    let Ok(extra) = Extra::new(Map::new(alloc)) else {
        unreachable!()
    };
    Object {
        body: Shared::unshared(Body {
            kind: ObjectType::GenericCityObject,
            geometry: Shared::unshared(Sequence::new(alloc)),
            extra: SharedExtra::unshared(extra),
        }),
        parents: SharedIds::new(alloc),
        children: SharedIds::new(alloc),
    }
}

/// The object, or a placeholder.
pub(crate) fn object_or_placeholder(alloc: Global, object: Option<Object>) -> Object
    ensures { result ≡ unwrap_or object placeholder }
{
    match object {
        Some(o) => o,
        None => placeholder(alloc),
    }
}
