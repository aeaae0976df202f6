//! The two texts of a run.
ghost use Rattle.std.specs.Prelude.{IfOk, IfErr};
ghost use Rattle.city_model.specs.CityMap.{object_at};
ghost use Rattle.city_model.specs.Relations.{IsLawful};
ghost use Rattle.city_desk.specs.RunFaults.{IsSerialFault};
ghost use Rattle.city_desk.specs.TextRuns.{IsReadFrom};

use crate::fault::RunFault;
use city_doc::{Pieces, read_city, read_city_by};
use city_members::sequence::Sequence;
use city_model::city::City;
use city_model::script::Script;
use city_scripts::{read_scripts, read_scripts_by};
use std::alloc::Global;
use std::thread::Threads;

/// Reads the city and the scripts from two texts. The document is judged before the scripts;
/// running out of memory for a text is `OutOfMemory`.
pub fn read_texts(
    alloc: Global,
    document: &[u8],
    scripts: &[u8],
) -> Result<(City, Sequence<Script>), RunFault>
    ensures read { IfOk result (λ r. IsReadFrom document.now scripts.now r.0 r.1) }
    ensures lawful { IfOk result (λ r. IsLawful (object_at r.0.1)) }
    ensures fault { IfErr result (λ f. IsSerialFault document.now scripts.now f) }
{
    let city = read_city(alloc, document)?;
    let scripts = read_scripts(alloc, scripts)?;
    Ok((city, scripts))
}

/// Reads two texts like `read_texts`, with the same answer, in pieces by several threads.
///
/// One piece needs no thread.
pub fn read_texts_by<R: Threads + Sync>(
    rt: &R,
    alloc: Global,
    document: &[u8],
    scripts: &[u8],
    pieces: Pieces,
) -> Result<(City, Sequence<Script>), RunFault>
    ensures read { IfOk result (λ r. IsReadFrom document.now scripts.now r.0 r.1) }
    ensures lawful { IfOk result (λ r. IsLawful (object_at r.0.1)) }
    ensures fault { IfErr result (λ f. IsSerialFault document.now scripts.now f) }
{
    if pieces.count < 2 {
        return read_texts(alloc, document, scripts);
    }
    let city = read_city_by(rt, alloc, document, pieces)?;
    let scripts = read_scripts_by(rt, alloc, scripts, pieces)?;
    Ok((city, scripts))
}
