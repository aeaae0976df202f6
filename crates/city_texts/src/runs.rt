//! The objects and the vertices of a document, read beforehand by several workers.
ghost use Rattle.std.specs.Prelude.{◌≡◌, ◌++◌, ℕ, List, IfSome};
ghost use Rattle.city_model.specs.declared.object.Object.{Object};
ghost use Rattle.city_texts.specs.internal.Parts.{AreNext, IsNextObject, IsNextVertex};
ghost use Rattle.city_tokens.specs.internal.Positions.{IsVertex};
ghost use Rattle.city_texts.specs.internal.Runs.{IsRun};
ghost use Rattle.city_tokens.specs.internal.Standing.{IsArrayOf, IsReadAs};

use crate::cuts::Cuts;
use crate::items::read_items;
use crate::part::PART_DEPTH;
use crate::run::{Run, read_pieces};
use city_members::sequence::Sequence;
use city_members::text::Id;
use city_reader::Reader;
use city_tokens::object::UnresolvedObject;
use city_tokens::vertices::Vertex;
use std::alloc::Global;
use std::marker::Model;
use std::thread::Threads;

/// The objects and the vertices of a text, read beforehand. Contracts see the text.
#[derive(Drop)]
pub struct Runs<'t> {
    text: &'t str,
    objects: Run<(Id, UnresolvedObject)>,
    vertices: Run<Vertex>,
}

impl<'t> Model for Runs<'t> {
    ghost use Rattle.std.specs.Prelude.{ℕ, List};

    ghost Value = { List ℕ };

    ghost use Rattle.city_texts.specs.internal.DocumentRuns.{text_of, AreRuns};

    ghost view = { text_of };

    ghost invariant = { AreRuns };
}

impl<'t> Runs<'t> {
    /// Reads all pieces of a text with these cuts, each by a thread.
    pub fn read<R: Threads + Sync>(
        rt: &R,
        alloc: Global,
        text: &'t str,
        cuts: &Cuts,
    ) -> Option<Runs<'t>> {
        let objects = read_pieces(rt, alloc, text, &cuts.objects)?;
        let vertices = read_pieces(rt, alloc, text, &cuts.vertices)?;
        Some(Runs {
            text,
            objects,
            vertices,
        })
    }

    /// Passes the objects read beforehand, and appends them to the others, if the reader stands at
    /// their start.
    pub fn pass_objects(
        &mut self,
        alloc: Global,
        reader: &mut Reader<'_>,
        objects: &mut Vec<(Id, UnresolvedObject)>,
    ) -> Option<()>
        ensures { IfSome result (λ _. (more : List (List ℕ × Object))
            × AreNext IsNextObject more reader.old reader.new
            × (objects.new.items ≡ objects.old.items ++ more)) }
    {
        self.objects.pass(alloc, self.text, reader, objects)
    }

    /// The next value, an array of vertices, some read beforehand.
    pub fn read_vertices(
        &mut self,
        alloc: Global,
        reader: &mut Reader<'_>,
    ) -> Option<Sequence<Vertex>>
        ensures { IfSome result
            (λ vs. IsReadAs (IsArrayOf IsVertex) vs 126 reader.old reader.new) }
    {
        read_items(alloc, reader, PART_DEPTH, self.text, &mut self.vertices)
    }

    /// Whether everything read beforehand was passed.
    pub fn are_passed(&self) -> bool {
        self.objects.is_passed() && self.vertices.is_passed()
    }
}
