//! A shelf refuses a change.
ghost use Rattle.std.specs.Prelude.{◌≡◌, []};

use crate::refused::end_all;
use crate::runs::{ORPHAN, Run, city_of, scripts_of};
use city_desk::{Desk, ListShelf, Shelf, output_bytes};
use city_doc::FIXED_SEED;
use city_model::OutOfMemory;
use city_model::change::Change;
use std::alloc::Global;
use std::sync::Wait;
use std::test::Fail;

/// A list of changes. It refuses the first one as if memory had run out.
#[derive(Drop)]
pub struct Refusing {
    list: ListShelf,
    refused: bool,
}

impl Refusing {
    pub fn new(alloc: Global) -> Refusing
        ensures { result.list ≡ [] }
    {
        Refusing {
            list: ListShelf::new(alloc),
            refused: false,
        }
    }
}

impl Shelf for Refusing {
    type Note = ();

    ghost use Rattle.std.specs.Prelude.{None, []};

    ghost list = { λ shelf. shelf.list };

    ghost base = { λ shelf. None };

    ghost name = { λ shelf. [] };

    ghost published = { λ shelf. None };

    ghost tells = { λ shelf note. Unit {0} };

    fn take(&mut self, change: Change) -> Result<(), OutOfMemory> {
        if self.refused {
            return self.list.take(change);
        }
        self.refused = true;
        Err(OutOfMemory)
    }

    fn show<R: Wait>(&mut self, rt: &R) -> Result<(), OutOfMemory> {
        self.list.show(rt)
    }
}

/// The output of a run with such a shelf.
fn written(alloc: Global, run: &Run) -> Option<Vec<u8>> {
    let scripts = scripts_of(alloc, run.scripts)?;
    let city = city_of(alloc, run.document)?;
    let mut desk = Desk::open(alloc, city, scripts, Refusing::new(alloc)).ok()?;
    end_all(&mut desk);
    let (city, ends, _shelf) = desk.close();
    let (bytes, _) = output_bytes(alloc, FIXED_SEED, &city, ends.as_slice(), Vec::new(alloc)).ok()?;
    Some(bytes)
}

const REPORT: &str =
    r#"{"at":1,"cause":"Orphan","id":"p","name":"a","outcome":"refused","replies":["added"],"script":0,"since":0}
{"at":2,"name":"b","outcome":"nomemory","replies":["added","attached"],"script":1,"since":1}
"#;

#[test]
fn a_change_that_its_shelf_refuses_is_undone(rt: HostRuntime) -> Result<(), Fail> {
    let written = written(rt.alloc(), &ORPHAN).ok_or("not run")?;
    let wanted = format!(in rt.alloc(); "{REPORT}{}\n", ORPHAN.document)?;
    assert_eq!(rt; written.as_slice(), wanted.as_bytes());
    Ok(())
}
