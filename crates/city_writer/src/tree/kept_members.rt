//! Writes the kept members of an object among its own.
ghost use Rattle.std.specs.Prelude.{◌≡◌, ◌++◌, ◌∷◌, [], IfNone, MatchOption, OnOk, true};
ghost use Rattle.json.specs.Token.{key, end_object};
ghost use Rattle.serde_json.specs.Data.{no_members, member, put};
ghost use Rattle.serde_json.specs.View.{members_view};
ghost use Rattle.city_members.specs.Integral.{is_integral, members_integral};
ghost use Rattle.city_members.specs.internal.KeptIn.{lent};
ghost use Rattle.city_writer.specs.internal.tree.MembersLeft.{members_left, value_of, with_first};
ghost use Rattle.city_writer.specs.internal.tree.Parted.{begins_before, members_before, members_from};
ghost use Rattle.city_writer.specs.internal.tree.PartTokens.{tokens_of_members};
ghost use Rattle.city_writer.specs.internal.tree.ReadsBack.{MembersReadBack};

use crate::tree::member_value::MemberValue;
use city_members::kept::shared_extra::LentMembers;
use city_model::OutOfMemory;
use json::Writer;
use serde_json::{Map, Value};
use std::cmp::Ordering;
use std::collections::btree_map::Iter;
use std::marker::Model;

/// The unwritten kept members of an object, by their names.
///
/// Most objects keep one or none, so the calls are short, and are inlined.
#[derive(Drop)]
pub struct KeptMembers<'a> {
    /// One that is in its place among the others.
    own: Option<(&'a str, MemberValue<'a>)>,
    /// The first of the others.
    first: Option<(&'a str, &'a Value)>,
    others: Iter<'a, String, Value>,
}

impl<'a> Model for KeptMembers<'a> {
    ghost use Rattle.serde_json.specs.Data.{Members};

    ghost Value = { Members };

    ghost use Rattle.city_members.specs.internal.DataCode.{coded_members};

    ghost coded = { coded_members };

    ghost use Rattle.std.specs.Prelude.{◌≡◌, IfNone, true};
    ghost use Rattle.serde_json.specs.Data.{no_members};
    ghost use Rattle.serde_json.specs.View.{members_view};
    ghost use Rattle.city_members.specs.Integral.{members_integral};
    ghost use Rattle.city_writer.specs.internal.tree.MembersLeft.{members_left, with_first};

    ghost view = { λ a. members_left a.own a.first a.others };

    ghost invariant = { λ a. IfNone a.first (members_view a.others ≡ no_members)
        × (members_integral (members_left a.own a.first a.others) ≡ true) };
}

/// Takes the first of these members.
#[inline(always)]
fn take_first<'a>(members: &mut Iter<'a, String, Value>) -> Option<(&'a str, &'a Value)>
    ensures taken { with_first result (members_view members.new) ≡ members_view members.old }
    ensures none { IfNone result (members_view members.new ≡ no_members) }
{
    let (name, value) = members.next()?;
    Some((name.as_str(), value))
}

/// Whether there is a first one, with a name before this one.
#[inline(always)]
fn begins_before(first: &Option<(&str, &Value)>, name: &str) -> bool
    ensures { result ≡ begins_before name.now (with_first first.now no_members) }
{
    match first {
        None => false,
        Some((first, _)) => first.cmp(name).is_lt(),
    }
}

impl<'a> KeptMembers<'a> {
    /// All members of a map of `i64` numbers. Doesn't allocate.
    pub fn new(map: &'a Map<String, Value>) -> Self
        requires integral { members_integral (members_view map.now.entries) ≡ true }
        ensures { result ≡ members_view map.now.entries }
    {
        let mut others = map.iter();
        let first = take_first(&mut others);
        KeptMembers {
            own: None,
            first,
            others,
        }
    }

    /// All members of a map, and one of this name and value in its place, `i64` their numbers.
    fn beside(map: &'a Map<String, Value>, name: &'a str, value: MemberValue<'a>) -> Self
        requires integral { members_integral (put name.now (value_of value) (members_view map.now.entries)) ≡ true }
        ensures { result ≡ put name.now (value_of value.entry) (members_view map.now.entries) }
    {
        let mut others = map.iter();
        let first = take_first(&mut others);
        KeptMembers {
            own: Some((name, value)),
            first,
            others,
        }
    }

    /// All members of an object, `i64` their numbers. Doesn't allocate.
    pub fn of_object(members: &'a LentMembers<'_>) -> Self
        requires integral { members_integral (lent members.now) ≡ true }
        ensures { result ≡ lent members.now }
    {
        match members {
            LentMembers::Together(members) => KeptMembers::new(members),
            LentMembers::Few(others, found) => {
                KeptMembers::beside(others, "attributes", MemberValue::Few(found))
            }
            LentMembers::Shared(others, found) => {
                KeptMembers::beside(others, "attributes", MemberValue::Shared(found))
            }
        }
    }

    /// Whether one is left with a name before this one.
    #[inline(always)]
    fn begin_before(&self, name: &str) -> bool
        ensures { result ≡ begins_before name.now self.now }
    {
        match self.own {
            None => begins_before(&self.first, name),
            Some((own, _)) => own.cmp(name).is_lt() || begins_before(&self.first, name),
        }
    }

    /// Takes the first one left.
    #[inline(always)]
    fn take(&mut self) -> Option<(&'a str, MemberValue<'a>)>
        ensures { MatchOption result ((self.old ≡ no_members) × (self.new ≡ no_members))
            (λ m. (self.old ≡ member m.0.now (value_of m.1) self.new) × (is_integral (value_of m.1) ≡ true)) }
    {
        let Some((own, value)) = self.own else {
            let (name, first) = self.first?;
            self.first = take_first(&mut self.others);
            return Some((name, MemberValue::Any(first)));
        };
        let Some((name, first)) = self.first else {
            self.own = None;
            return Some((own, value));
        };
        match name.cmp(own) {
            Ordering::Less => {
                self.first = take_first(&mut self.others);
                Some((name, MemberValue::Any(first)))
            }
            Ordering::Equal => {
                self.first = take_first(&mut self.others);
                self.own = None;
                Some((own, value))
            }
            Ordering::Greater => {
                self.own = None;
                Some((own, value))
            }
        }
    }

    /// Takes the first one left, if its name comes before this one.
    #[inline(always)]
    fn take_before(&mut self, name: &str) -> Option<(&'a str, MemberValue<'a>)>
        ensures { MatchOption result
            ((self.new ≡ self.old) × (members_before name.now self.old ≡ no_members)
            × (members_from name.now self.old ≡ self.old))
            (λ m. (self.old ≡ member m.0.now (value_of m.1) self.new)
            × (members_before name.now self.old ≡ member m.0.now (value_of m.1) (members_before name.now self.new))
            × (members_from name.now self.old ≡ members_from name.now self.new)
            × (is_integral (value_of m.1) ≡ true)) }
    {
        if self.begin_before(name) {
            self.take()
        } else {
            None
        }
    }

    /// Writes the members before a name, and leaves the others.
    #[inline(always)]
    pub fn write_before(&mut self, name: &str, out: &mut Writer) -> Result<(), OutOfMemory>
        ensures before { OnOk result (out.new.before ≡ out.old.before) }
        ensures tokens { OnOk result (out.new.tokens
            ≡ out.old.tokens ++ tokens_of_members (members_before name.now self.old)) }
        ensures left { OnOk result (self.new ≡ members_from name.now self.old) }
        ensures reads { OnOk result (MembersReadBack self.new → MembersReadBack self.old) }
    {
        while let Some((member_name, member)) = self.take_before(name) {
            out.key(member_name)?;
            member.write(out)?;
        }
        Ok(())
    }

    /// Writes the members before a name, and the name.
    #[inline(always)]
    pub fn write_name(&mut self, name: &str, out: &mut Writer) -> Result<(), OutOfMemory>
        ensures before { OnOk result (out.new.before ≡ out.old.before) }
        ensures tokens { OnOk result (out.new.tokens
            ≡ out.old.tokens ++ (tokens_of_members (members_before name.now self.old) ++ key name.now ∷ [])) }
        ensures left { OnOk result (self.new ≡ members_from name.now self.old) }
        ensures reads { OnOk result (MembersReadBack self.new → MembersReadBack self.old) }
    {
        self.write_before(name, out)?;
        out.key(name)
    }

    /// Writes all members left, and the closing brace.
    #[inline(always)]
    pub fn write_last(&mut self, out: &mut Writer) -> Result<(), OutOfMemory>
        ensures before { OnOk result (out.new.before ≡ out.old.before) }
        ensures tokens { OnOk result (out.new.tokens
            ≡ out.old.tokens ++ (tokens_of_members self.old ++ end_object ∷ [])) }
        ensures reads { OnOk result (MembersReadBack self.old) }
    {
        while let Some((name, member)) = self.take() {
            out.key(name)?;
            member.write(out)?;
        }
        out.end_object()
    }
}
