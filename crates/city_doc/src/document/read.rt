//! Reads a document: from its tokens, or else from its tree.
ghost use Rattle.std.specs.Prelude.{◌≡◌, ◌⊎◌, IfOk, IfErr, IfSome, OnOk};
ghost use Rattle.city_model.specs.CityMap.{object_at, CityValue};
ghost use Rattle.city_model.specs.Relations.{IsLawful, IsRelated};
ghost use Rattle.city_tokens.specs.document.Cities.{IsAdmitted};
ghost use Rattle.city_doc.specs.document.Faults.{DocumentFault};
ghost use Rattle.city_tokens.specs.tree.Texts.{IsReadable};

use crate::document::judge::judge;
use crate::fault::ReadFault;
use crate::tree::parse::parse;
use city_model::city::City;
use city_model::relations::relations_fault;
use city_texts::{Pieces, streamed_city, streamed_city_by};
use std::alloc::Global;
use std::thread::Threads;

/// Reads a document: the lawful city of its text.
///
/// Unless memory runs out, it is Ok exactly on admitted texts: not too long, of whole numbers, and
/// standing for a lawful city. It refuses any other text with its first fault in the order of
/// `ReadFault`'s list. If several objects have that fault, it names the least id in byte order.
/// `OutOfMemory` has no place in that order: it is answered if memory ran out for the tree, for an
/// object or for a fault's name. The text is only borrowed, so a refusal leaves nothing behind.
pub fn read_city(alloc: Global, bytes: &[u8]) -> Result<City, ReadFault>
    ensures lawful { IfOk result (λ c. IsLawful (object_at c.1)) }
    ensures readable { OnOk result (IsReadable bytes.now) }
    ensures admitted { IfOk result (λ c. IsAdmitted bytes.now c) }
    ensures fault { IfErr result (λ f. DocumentFault bytes.now f) }
    ensures refused { IfErr result (λ f. (f ≡ ReadFault.OutOfMemory)
        ⊎ ((c : CityValue) → IsAdmitted bytes.now c → ⊥)) }
{
    let city = lawful_city(alloc, bytes);
    or_of_tree(alloc, bytes, city)
}

/// Reads a document as `read_city` does, and answers the same. A large text is read in pieces, each by a thread.
pub fn read_city_by<R: Threads + Sync>(
    rt: &R,
    alloc: Global,
    bytes: &[u8],
    pieces: Pieces,
) -> Result<City, ReadFault>
    ensures lawful { IfOk result (λ c. IsLawful (object_at c.1)) }
    ensures readable { OnOk result (IsReadable bytes.now) }
    ensures admitted { IfOk result (λ c. IsAdmitted bytes.now c) }
    ensures fault { IfErr result (λ f. DocumentFault bytes.now f) }
    ensures refused { IfErr result (λ f. (f ≡ ReadFault.OutOfMemory)
        ⊎ ((c : CityValue) → IsAdmitted bytes.now c → ⊥)) }
{
    let city = lawful_city_by(rt, alloc, bytes, pieces);
    or_of_tree(alloc, bytes, city)
}

/// The lawful city of a text, read from its tokens; none if anything is odd.
pub fn lawful_city(alloc: Global, bytes: &[u8]) -> Option<City>
    ensures { IfSome result (λ c. IsAdmitted bytes.now c) }
{
    let city = streamed_city(alloc, bytes)?;
    related(city)
}

/// The same, read in pieces.
fn lawful_city_by<R: Threads + Sync>(
    rt: &R,
    alloc: Global,
    bytes: &[u8],
    pieces: Pieces,
) -> Option<City>
    ensures { IfSome result (λ c. IsAdmitted bytes.now c) }
{
    let city = streamed_city_by(rt, alloc, bytes, pieces)?;
    related(city)
}

/// The city, if the parents and children of all its objects agree.
fn related(city: City) -> Option<City>
    ensures { IfSome result (λ c. (c ≡ city) × IsRelated (object_at c.1)) }
{
    if relations_fault(&city).is_some() {
        return None;
    }
    Some(city)
}

/// The city from the text's tokens, if there is one. Otherwise reads the text from its tree, and finds its fault.
fn or_of_tree(alloc: Global, bytes: &[u8], city: Option<City>) -> Result<City, ReadFault>
    requires { IfSome city (λ c. IsAdmitted bytes.now c) }
    ensures lawful { IfOk result (λ c. IsLawful (object_at c.1)) }
    ensures readable { OnOk result (IsReadable bytes.now) }
    ensures admitted { IfOk result (λ c. IsAdmitted bytes.now c) }
    ensures fault { IfErr result (λ f. DocumentFault bytes.now f) }
    ensures refused { IfErr result (λ f. (f ≡ ReadFault.OutOfMemory)
        ⊎ ((c : CityValue) → IsAdmitted bytes.now c → ⊥)) }
{
    match city {
        Some(city) => Ok(city),
        None => read_tree(alloc, bytes),
    }
}

/// Reads a document from its tree.
fn read_tree(alloc: Global, bytes: &[u8]) -> Result<City, ReadFault>
    ensures admitted { IfOk result (λ c. IsAdmitted bytes.now c) }
    ensures fault { IfErr result (λ f. DocumentFault bytes.now f) }
    ensures refused { IfErr result (λ f. (f ≡ ReadFault.OutOfMemory)
        ⊎ ((c : CityValue) → IsAdmitted bytes.now c → ⊥)) }
{
    let tree = parse(alloc, bytes)?;
    match judge(alloc, tree, true)? {
        Ok(city) => Ok(city),
        Err(mut faults) => Err(faults.remove(0)),
    }
}
