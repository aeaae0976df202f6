//! The texts of files by their paths.
ghost use Rattle.std.specs.Prelude.{◌≡◌, ◌≢◌, ℕ, List, true, None, Some, nat_eq, IfOk, IfErr, OnOk, OnErr, IfSome};
ghost use Rattle.std.specs.Prelude.{MatchOption};
ghost use Rattle.std.specs.Cmp.Lexicographic.{pointwise};
ghost use Rattle.city_serve.specs.Served.{IsDeviceFault};
ghost use Rattle.city_scenarios.specs.NamedTexts.{text_at};
ghost use Rattle.city_scenarios.specs.Files.{known_text, read_of};

use crate::named::{Named, text_named};
use crate::reader::{Giving, Reads};
use city_model::OutOfMemory;
use city_serve::{Device, ServeFault, read_text};
use std::alloc::Global;
use std::io;
use std::marker::Model;

/// The system's number for a missing file.
const MISSING: i32 = 2;

/// A text that a file was replaced with. Contracts see its path and the text.
#[derive(Drop)]
pub struct Placed {
    path: String,
    text: Vec<u8>,
}

impl Model for Placed {
    ghost use Rattle.std.specs.Prelude.{string_bytes};
    ghost use Rattle.city_scenarios.specs.NamedTexts.{NamedText};

    ghost Value = { NamedText };

    ghost view = { λ p. (string_bytes p.path, p.text.items) };
}

impl Placed {
    /// Whether it is at this path.
    fn is_at(&self, path: &str) -> bool
        ensures { result ≡ pointwise nat_eq self.now.0 path.now }
    {
        self.path.as_str() == path
    }

    /// Its path.
    pub fn path(&self) -> &str {
        self.path.as_str()
    }

    /// Its text.
    pub fn text(&self) -> &[u8]
        ensures { result.now ≡ self.now.1 }
    {
        self.text.as_slice()
    }
}

/// The text at this path, if there is one.
fn text_placed<'t>(placed: &'t [Placed], path: &str) -> Option<&'t [u8]>
    ensures { MatchOption result (text_at placed.now path.now ≡ None) (λ t. text_at placed.now path.now ≡ Some t.now) }
{
    for one in placed {
        if one.is_at(path) {
            return Some(one.text());
        }
    }
    None
}

/// The texts of files by their paths: the named texts, read with habits, but for the files that were replaced.
#[derive(Drop)]
pub struct KnownTexts<'a> {
    names: &'a [Named<'a>],
    reads: Reads,
    /// What files were replaced with, the last one first.
    pub placed: Vec<Placed>,
}

impl<'a> KnownTexts<'a> {
    /// The named texts.
    pub fn new(alloc: Global, names: &'a [Named<'a>], reads: Reads) -> KnownTexts<'a> {
        KnownTexts {
            names,
            reads,
            placed: Vec::new(alloc),
        }
    }

    /// Whether a named text has this path.
    pub fn is_named(&self, path: &str) -> bool {
        text_named(self.names, path).is_some()
    }

    /// The text of a file. Beside a fault stands why, if the system says why.
    pub fn read(
        &self,
        alloc: Global,
        path: &str,
    ) -> Result<Vec<u8>, (ServeFault, Option<io::Error>)>
        ensures read { IfOk result (λ v. IfSome (known_text self.now path.now) (λ all. v.items ≡ all)) }
        ensures fault { IfErr result (λ f. IsDeviceFault true f.0) }
    {
        if let Some(text) = text_placed(self.placed.as_slice(), path) {
            return match text.to_vec(alloc) {
                Ok(text) => Ok(text),
                Err(memory) => Err((ServeFault::from(memory), None)),
            };
        }
        match text_named(self.names, path) {
            Some(text) => read_named(alloc, self.reads, text),
            None => Err((
                ServeFault::Read,
                Some(io::Error::from_raw_os_error(MISSING)),
            )),
        }
    }

    /// Gives a file this text. If memory runs out, nothing changes.
    pub fn place(&mut self, alloc: Global, path: &str, text: Vec<u8>) -> Result<(), OutOfMemory>
        ensures placed { OnOk result (known_text self.new path.now ≡ Some text.items) }
        ensures others { (other : List ℕ) → other ≢ path.now → known_text self.new other ≡ known_text self.old other }
        ensures err { OnErr result (known_text self.new ≡ known_text self.old) }
    {
        let path = String::from_str(alloc, path)?;
        self.placed.insert(0, Placed { path, text })?;
        Ok(())
    }
}

/// A named text, read with habits. Beside a fault stands why.
fn read_named(
    alloc: Global,
    reads: Reads,
    text: &[u8],
) -> Result<Vec<u8>, (ServeFault, Option<io::Error>)>
    ensures read { IfOk result (λ v. IfSome (read_of reads.endless text.now) (λ all. v.items ≡ all)) }
    ensures fault { IfErr result (λ f. IsDeviceFault true f.0) }
{
    let mut device = Device::new(Giving::new(reads, text));
    let read = read_text(alloc, &mut device);
    match read {
        Ok(text) => Ok(text),
        Err(fault) => Err((fault, device.failure())),
    }
}
