//! Reads the bodies of commands: objects without relations.
ghost use Rattle.std.specs.Prelude.{IfSome};
ghost use Rattle.city_tokens.specs.internal.Commands.{IsBody, IsBodySoFar};
ghost use Rattle.city_tokens.specs.internal.Standing.{IsReadAs};

use crate::member_visitor::{MemberVisitor, read_object};
use crate::object::{ObjectParts, object_of};
use crate::text::is_name;
use city_model::object::Body;
use city_reader::Reader;
use std::alloc::Global;

/// The members read so far of an object without relations.
#[derive(Drop)]
pub struct BodyParts {
    pub object: ObjectParts,
}

impl MemberVisitor for BodyParts {
    ghost stands = { IsBodySoFar };

    fn visit_member(
        &mut self,
        alloc: Global,
        name: &str,
        reader: &mut Reader<'_>,
        depth: usize,
    ) -> Option<bool> {
        if is_name(name, "parents") || is_name(name, "children") {
            return None;
        }
        self.object.visit_member(alloc, name, reader, depth)
    }
}

/// The next value, an object without relations, as put and add have it.
pub fn read_body(alloc: Global, reader: &mut Reader<'_>, depth: usize) -> Option<Body>
    ensures { IfSome result (λ b. IsReadAs IsBody b depth reader.old reader.new) }
{
    let start = BodyParts {
        object: ObjectParts::new(alloc),
    };
    let (parts, kept) = read_object(alloc, reader, depth, start)?;
    let object = object_of(alloc, parts.object, kept)?;
    let (body, _parents, _children) = object.into_parts();
    Some(body)
}
