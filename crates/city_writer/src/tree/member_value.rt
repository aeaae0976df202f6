//! Writes the value of a kept member.
ghost use Rattle.std.specs.Prelude.{◌≡◌, ◌++◌, OnOk, true};
ghost use Rattle.city_members.specs.Integral.{is_integral, members_integral};
ghost use Rattle.city_members.specs.Members.{AreOrdered};
ghost use Rattle.city_writer.specs.internal.tree.MembersLeft.{value_of};
ghost use Rattle.city_writer.specs.internal.tree.PartTokens.{closing_members};
ghost use Rattle.city_writer.specs.internal.tree.ReadsBack.{ReadsBack, MembersReadBack};
ghost use Rattle.city_writer.specs.tree.Tokens.{tokens_of};

use crate::tree::kept_value::{write_kept, write_members};
use crate::tree::text::write_value;
use city_members::kept::few_members::FewMembers;
use city_members::kept::shared_members::SharedMembers;
use city_model::OutOfMemory;
use json::Writer;
use serde_json::Value;

/// The value of a kept member: any, or an object by its members.
#[derive(Clone, Copy, Drop)]
pub enum MemberValue<'a> {
    Any(&'a Value),
    Few(&'a FewMembers),
    Shared(&'a SharedMembers),
}

impl MemberValue<'_> {
    /// Writes the value, of `i64` numbers.
    pub fn write(&self, out: &mut Writer) -> Result<(), OutOfMemory>
        requires integral { is_integral (value_of self.now) ≡ true }
        ensures before { OnOk result (out.new.before ≡ out.old.before) }
        ensures tokens { OnOk result (out.new.tokens ≡ out.old.tokens ++ tokens_of (value_of self.now)) }
        ensures reads { OnOk result (ReadsBack (value_of self.now)) }
    {
        match self {
            MemberValue::Any(value) => write_value(value, out),
            MemberValue::Few(members) => {
                out.begin_object()?;
                write_members(members.as_slice(), out)
            }
            MemberValue::Shared(members) => {
                out.begin_object()?;
                write_shared(members, out)
            }
        }
    }
}

/// Writes the members, and the closing brace.
fn write_shared(members: &SharedMembers, out: &mut Writer) -> Result<(), OutOfMemory>
    requires integral { members_integral members.now ≡ true }
    ensures before { OnOk result (out.new.before ≡ out.old.before) }
    ensures tokens { OnOk result (out.new.tokens ≡ out.old.tokens ++ closing_members members.now) }
    ensures reads { OnOk result (MembersReadBack members.now) }
    ensures ordered { AreOrdered members.now }
{
    for member in members.iter() {
        let (key, value) = member.get();
        out.key(key.as_str())?;
        write_kept(value, out)?;
    }
    out.end_object()
}
