//! The model and the journal at the start of a session.
ghost use Rattle.std.specs.Prelude.{IfOk};
ghost use Rattle.city_model.specs.CityMap.{object_at};
ghost use Rattle.city_model.specs.Relations.{IsLawful};

use crate::fault::LiveFault;
use crate::journal_store::JournalStore;
use city_decimals::decode;
use city_doc::{append_city, read_city};
use city_journal::{
    JournalFault, Journaling, Keys, ModelSum, ReadJournal, append_beginning, read_journal, restart,
};
use city_model::OutOfMemory;
use city_model::city::City;
use city_options::LiveLine;
use city_serve::{OutputFiles, ServeFault, Text, encode_text};
use std::alloc::Global;

/// A city, the sum of its canonical text, and whether it is that of the output file.
#[derive(Drop)]
struct Opened {
    city: City,
    sum: ModelSum,
    is_output: bool,
}

/// What a session starts with.
#[derive(Drop)]
pub(crate) struct Started<D: JournalStore + Drop> {
    pub city: City,
    pub version: u64,
    pub journal: Journaling<D>,
    /// How many lines the journal had, if the last one was cut.
    pub cut: Option<usize>,
    /// Whether the output file has this city.
    pub is_saved: bool,
}

/// Reads the model, and makes again what the journal has behind it.
pub(crate) fn start<F: OutputFiles, D: JournalStore + Drop>(
    alloc: Global,
    seed: u64,
    files: &mut F,
    journal: Option<D>,
    line: &LiveLine<'_>,
) -> Result<Started<D>, LiveFault>
    ensures { IfOk result (λ s. IsLawful (object_at s.city.1)) }
{
    let Some(mut journal) = journal else {
        let city = read_model(alloc, files, line.model, line.decimals)?;
        let journal = Journaling::new(alloc, seed, line.decimals, None, Keys::new(alloc));
        return Ok(Started {
            city,
            version: 0,
            journal,
            cut: None,
            is_saved: is_output(files, line, line.model),
        });
    };
    let Ok(bytes) = journal.read_all(alloc) else {
        return Err(LiveFault::JournalFile(ServeFault::Read));
    };
    if bytes.is_empty() {
        return begin(alloc, seed, files, journal, line);
    }
    let read = read_journal(alloc, bytes.as_slice(), line.decimals)?;
    let opened = open_for(alloc, seed, files, &read, line)?;
    resume(alloc, seed, opened, journal, read, line.decimals)
}

/// Whether the output file has this path.
fn is_output<F: OutputFiles>(files: &F, line: &LiveLine<'_>, path: &str) -> bool {
    match line.output {
        Some(output) => files.are_same(output, path),
        None => false,
    }
}

/// Begins a journal over a model.
fn begin<F: OutputFiles, D: JournalStore + Drop>(
    alloc: Global,
    seed: u64,
    files: &mut F,
    journal: D,
    line: &LiveLine<'_>,
) -> Result<Started<D>, LiveFault>
    ensures { IfOk result (λ s. IsLawful (object_at s.city.1)) }
{
    let mut journal = journal;
    let opened = open(alloc, seed, files, line, line.model)?;
    let keys = Keys::new(alloc);
    let room = Vec::new(alloc);
    let lines = append_beginning(alloc, room, &opened.sum, line.decimals, 0, &keys)?;
    if journal.begin(lines.as_slice(), 0).is_err() {
        return Err(LiveFault::JournalFile(ServeFault::Write));
    }
    Ok(Started {
        city: opened.city,
        version: 0,
        journal: Journaling::new(alloc, seed, line.decimals, Some(journal), keys),
        cut: None,
        is_saved: opened.is_output,
    })
}

/// Goes on behind the whole lines of a journal: makes its commits behind the model again. If a save was broken off once
/// the model was in place, it is finished.
fn resume<D: JournalStore + Drop>(
    alloc: Global,
    seed: u64,
    opened: Opened,
    journal: D,
    read: ReadJournal<'_>,
    decimals: bool,
) -> Result<Started<D>, LiveFault>
    requires { IsLawful (object_at opened.city.1) }
    ensures { IfOk result (λ s. IsLawful (object_at s.city.1)) }
{
    let Opened {
        city,
        sum,
        is_output,
    } = opened;
    let commits = read.commits_behind(&sum)?;
    let is_saved = is_output && commits.is_empty();
    let city = restart(alloc, decimals, city, &sum, &read)?;
    let mut journal = journal;
    if journal.open_behind(read.whole()).is_err() {
        return Err(LiveFault::JournalFile(ServeFault::Write));
    }
    let (version, is_broken_off) = (read.version(), read.is_saved_as(&sum));
    let cut = if read.is_cut() {
        Some(read.lines())
    } else {
        None
    };
    let mut journal = Journaling::new(alloc, seed, decimals, Some(journal), read.into_keys());
    if is_broken_off && journal.end_save(&sum, version).is_err() {
        return Err(LiveFault::JournalFile(ServeFault::Write));
    }
    Ok(Started {
        city,
        version,
        journal,
        cut,
        is_saved,
    })
}

/// The model that a journal is over: that of the output file if it has it, or else MODEL's.
fn open_for<F: OutputFiles>(
    alloc: Global,
    seed: u64,
    files: &mut F,
    read: &ReadJournal<'_>,
    line: &LiveLine<'_>,
) -> Result<Opened, LiveFault>
    ensures { IfOk result (λ o. IsLawful (object_at o.city.1)) }
{
    if let Some(path) = line.output {
        if !files.are_same(path, line.model) {
            if let Ok(opened) = open(alloc, seed, files, line, path) {
                if read.commits_behind(&opened.sum).is_ok() {
                    return Ok(opened);
                }
            }
        }
    }
    open(alloc, seed, files, line, line.model)
}

/// Reads a model, and its sum.
fn open<F: OutputFiles>(
    alloc: Global,
    seed: u64,
    files: &mut F,
    line: &LiveLine<'_>,
    path: &str,
) -> Result<Opened, LiveFault>
    ensures { IfOk result (λ o. IsLawful (object_at o.city.1)) }
{
    let city = read_model(alloc, files, path, line.decimals)?;
    let sum = sum_of(alloc, seed, line.decimals, &city)?;
    let is_output = is_output(files, line, path);
    Ok(Opened {
        city,
        sum,
        is_output,
    })
}

/// Reads a model.
fn read_model<F: OutputFiles>(
    alloc: Global,
    files: &mut F,
    path: &str,
    decimals: bool,
) -> Result<City, LiveFault>
    ensures { IfOk result (λ c. IsLawful (object_at c.1)) }
{
    let mut text = Text::given(files.read(path)?);
    if decimals {
        encode_text(alloc, &mut text)?;
    }
    let city = read_city(alloc, text.bytes.as_slice())?;
    Ok(city)
}

/// The sum of a city's canonical text.
fn sum_of(alloc: Global, seed: u64, decimals: bool, city: &City) -> Result<ModelSum, OutOfMemory> {
    let text = append_city(alloc, seed, Vec::new(alloc), city)?;
    if !decimals {
        return Ok(ModelSum::of(text.as_slice()));
    }
    // (what is written here is JSON, so only memory can run out)
    match decode(alloc, text.as_slice()) {
        Ok(decoded) => Ok(ModelSum::of(decoded.as_slice())),
        Err(_) => Err(OutOfMemory),
    }
}
