//! Diagnostics of a document's top and of its objects.
//!
//! - `top`: missing or wrong members of the top
//! - `relatives`: the parents and children of all objects, in sets; `relation_faults`: broken rules on them
mod relation_faults;
mod relatives;
mod top;

use crate::diagnostic::Diagnostic;
use crate::document::relation_faults::tell_relations;
use crate::document::relatives::{RelativesById, all_relatives};
use crate::document::top::tell_wrong_member;
use crate::quoted::Quoted;
use crate::shape::ring::tell_bad_ring;
use crate::shape::shell::tell_open_shell;
use crate::shape::{tell_bad_geometry, tell_bad_vertex, tell_unknown_type, tell_unsupported};
use city_model::OutOfMemory;
use city_model::object::Point;
use city_tokens::triple_of;
use serde_json::Value;
use std::alloc::Global;
use std::collections::BTreeMap;
use std::fmt::Write;

/// A fault of a document's tree.
#[derive(Clone, Copy)]
pub enum ModelFault<'f> {
    /// The member of this name is wrong.
    WrongMember(&'f str),
    /// The object of this id is wrong.
    WrongObject(&'f str, ObjectFault),
}

/// What is wrong with an object.
#[derive(Clone, Copy)]
pub enum ObjectFault {
    UnknownType,
    Unsupported,
    BadGeometry,
    BadVertex,
    BadRing,
    Relations,
    OpenShell,
}

/// A document's tree, with its points and relatives for look-ups.
#[derive(Drop)]
pub struct Document<'t> {
    tree: &'t Value,
    /// Its vertices, if a ring or a shell is wrong.
    points: Vec<Point>,
    /// Its readable objects, if relations are wrong.
    relatives: RelativesById,
}

impl<'t> Document<'t> {
    /// Prepares diagnostics of these faults of a tree: all its faults, or only the first.
    pub fn new(
        alloc: Global,
        tree: &'t Value,
        faults: &[ModelFault<'_>],
    ) -> Result<Document<'t>, OutOfMemory> {
        let points = if faults.iter().any(needs_points) {
            points_in(alloc, tree)?
        } else {
            Vec::new(alloc)
        };
        let relatives = if faults.iter().any(needs_relatives) {
            all_relatives(alloc, tree, faults)?
        } else {
            BTreeMap::new(alloc)
        };
        Ok(Document {
            tree,
            points,
            relatives,
        })
    }

    /// Returns the diagnostic of a fault of this document.
    pub fn diagnostic(
        &self,
        alloc: Global,
        fault: ModelFault<'_>,
    ) -> Result<Diagnostic, OutOfMemory> {
        let mut diagnostic = Diagnostic::new(alloc);
        match fault {
            ModelFault::WrongMember(member) => {
                tell_wrong_member(alloc, self.tree, member, &mut diagnostic)?;
            }
            ModelFault::WrongObject(id, fault) => {
                let shown = Quoted(id);
                write!(diagnostic.narrowed()?, "object {shown}")?;
                if let Some(object) = self.object(id) {
                    self.tell_of_object(alloc, id, object, fault, &mut diagnostic)?;
                }
            }
        }
        Ok(diagnostic)
    }

    fn object(&self, id: &str) -> Option<&Value> {
        self.tree.get("CityObjects")?.get(id)
    }

    /// The number of vertices.
    fn vertex_count(&self) -> usize {
        match self.tree.get("vertices").and_then(Value::as_array) {
            None => 0,
            Some(vertices) => vertices.len(),
        }
    }

    fn tell_of_object(
        &self,
        alloc: Global,
        id: &str,
        object: &Value,
        fault: ObjectFault,
        diagnostic: &mut Diagnostic,
    ) -> Result<(), OutOfMemory> {
        let points = self.points.as_slice();
        match fault {
            ObjectFault::UnknownType => tell_unknown_type(object, diagnostic),
            ObjectFault::Unsupported => tell_unsupported(object, diagnostic),
            ObjectFault::BadGeometry => tell_bad_geometry(object, diagnostic),
            ObjectFault::BadVertex => {
                tell_bad_vertex(alloc, object, self.vertex_count(), diagnostic)
            }
            ObjectFault::BadRing => tell_bad_ring(alloc, object, points, diagnostic),
            ObjectFault::Relations => {
                tell_relations(alloc, &self.relatives, id, object, diagnostic)
            }
            ObjectFault::OpenShell => tell_open_shell(alloc, object, points, diagnostic),
        }
    }
}

/// Whether a diagnostic shows points of rings.
fn needs_points(fault: &ModelFault<'_>) -> bool {
    matches!(
        fault,
        ModelFault::WrongObject(_, ObjectFault::BadRing | ObjectFault::OpenShell)
    )
}

fn needs_relatives(fault: &ModelFault<'_>) -> bool {
    matches!(fault, ModelFault::WrongObject(_, ObjectFault::Relations))
}

/// The points of a document's vertices.
fn points_in(alloc: Global, tree: &Value) -> Result<Vec<Point>, OutOfMemory> {
    let mut points = Vec::new(alloc);
    if let Some(vertices) = tree.get("vertices").and_then(Value::as_array) {
        push_points(vertices, &mut points)?;
    }
    Ok(points)
}

fn push_points(vertices: &Vec<Value>, points: &mut Vec<Point>) -> Result<(), OutOfMemory> {
    for vertex in vertices {
        if let Some(point) = point_of(vertex) {
            points.push(point)?;
        }
    }
    Ok(())
}

fn point_of(vertex: &Value) -> Option<Point> {
    let [x, y, z] = triple_of(vertex)?;
    Some(Point { x, y, z })
}
