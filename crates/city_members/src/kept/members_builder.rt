//! The members of an object, put in one by one.
ghost use Rattle.std.specs.Prelude.{◌≡◌, string_bytes, IfOk};
ghost use Rattle.serde_json.specs.Data.{no_members, put};
ghost use Rattle.city_members.specs.internal.KeptValues.{value_data, members_data, members_built};

use crate::OutOfMemory;
use crate::kept::few_members::FewMembers;
use crate::kept::kept_value::KeptValue;
use std::alloc::Global;
use std::collections::BTreeMap;

/// So many members are put into a list, more into a map: a list moves the members behind one that
/// is put in.
const FEW: usize = 256;

/// Members of a JSON object, put in one by one, in any order.
#[derive(Drop)]
pub enum MembersBuilder {
    Few(FewMembers),
    Many(BTreeMap<String, KeptValue>),
}

impl MembersBuilder {
    /// No members. Doesn't allocate.
    pub fn new(alloc: Global) -> Self
        ensures { members_built result ≡ no_members }
    {
        MembersBuilder::Few(FewMembers::new(alloc))
    }

    /// The members, and one of this name.
    pub fn with(self, alloc: Global, name: String, value: KeptValue) -> Result<Self, OutOfMemory>
        ensures { IfOk result (λ built. members_built built
            ≡ put (string_bytes name) (value_data value) (members_built self)) }
    {
        match self {
            MembersBuilder::Few(members) if members.len() < FEW => {
                let members = members.with(name, value)?;
                Ok(MembersBuilder::Few(members))
            }
            MembersBuilder::Few(members) => {
                let mut many = map_of(alloc, members)?;
                drop(many.insert(name, value)?);
                Ok(MembersBuilder::Many(many))
            }
            MembersBuilder::Many(members) => {
                let mut many = members;
                drop(many.insert(name, value)?);
                Ok(MembersBuilder::Many(many))
            }
        }
    }

    /// The members, in no more room than they need.
    pub fn finish(self, alloc: Global) -> Result<FewMembers, OutOfMemory>
        ensures { IfOk result (λ members. members ≡ members_built self) }
    {
        match self {
            MembersBuilder::Few(members) => {
                let mut members = members;
                members.shrink_to_fit();
                Ok(members)
            }
            MembersBuilder::Many(members) => FewMembers::from_values(alloc, members),
        }
    }
}

fn map_of(alloc: Global, members: FewMembers) -> Result<BTreeMap<String, KeptValue>, OutOfMemory>
    ensures { IfOk result (λ map. members_data map.entries ≡ members) }
{
    let mut map = BTreeMap::new(alloc);
    for (name, value) in members.into_vec() {
        drop(map.insert(name, value)?);
    }
    Ok(map)
}
