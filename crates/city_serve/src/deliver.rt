//! Writes the output of a run to its destination.
ghost use Rattle.std.specs.Prelude.{◌≡◌, ◌⊎◌, ◌≤◌, true, List, [], ◌∷◌, length, take, drop, Some, IfOk, IfErr, IfSome};
ghost use Rattle.std.specs.Prelude.{IsNone, IsSome, OnOk, option_map};
ghost use Rattle.std.specs.List.{list_any};
ghost use Rattle.std.specs.Io.KnownBytes.{Appends};
ghost use Rattle.city_serve.specs.declared.fault.ServeFault.{ServeFault};
ghost use Rattle.city_options.specs.RunOptions.{file_of};
ghost use Rattle.city_serve.specs.ServedTexts.{AppendsSome};
ghost use Rattle.city_serve.specs.Destinations.{outcome_failed, has_failed, is_withheld, bytes_to_writer, goes_nowhere};
ghost use Rattle.city_serve.specs.Destinations.{BreaksOff, IsBrokenOff, IsPlaced, IsReplaced};
ghost use Rattle.city_serve.specs.Steps.{Step, Takes, delivering, replacing};
ghost use Rattle.city_serve.specs.internal.Placing.{IsPut, IsSent, IsUnplaced};

use crate::device::Device;
use crate::fault::ServeFault;
use crate::output_files::OutputFiles;
use crate::serve::write_output;
use city_desk::Output;
use city_members::sequence::Sequence;
use city_model::end::{End, Outcome};
use city_options::Destination;
use std::io::Write;

/// The result of a run, once its output is written.
#[derive(Drop)]
pub struct Delivered {
    /// For each viewer, the numbers of the changes it saw.
    pub seen: Vec<Vec<u64>>,
    /// The ends of the scripts, oldest first.
    pub ends: Sequence<End>,
    /// Whether the model was written nowhere, since a script ended refused or out of memory.
    pub withheld: bool,
}

/// Writes a run's output to its destination: the report to the writer, and the model behind it, to
/// its file, or nowhere. `Write` if the writer fails or a step on the file is refused, `Changed` if the file
/// isn't what was read.
pub(crate) fn deliver<F: OutputFiles, W: Write>(
    files: &mut F,
    seed: u64,
    destination: Destination<'_>,
    writer: &mut Device<W>,
    output: Output,
) -> Result<Delivered, ServeFault>
    requires { output.report ≤ length output.bytes.items }
    ensures written { IfOk result (λ d.
        (d.seen ≡ output.seen) × (d.withheld ≡ is_withheld destination.entry output.ends)
        × Appends (W.contents writer.old.0) (W.contents writer.new.0)
        (bytes_to_writer (file_of destination.entry) (goes_nowhere destination.entry d.withheld)
        (take output.report output.bytes.items) (drop output.report output.bytes.items))
        × IsPlaced (file_of destination.entry) (goes_nowhere destination.entry d.withheld)
        (drop output.report output.bytes.items)
        (F.text files.old) (F.text files.new)
        × (writer.new.1 ≡ writer.old.1)
        × Takes (F.steps files.old) (F.steps files.new)
        (delivering (file_of destination.entry) (goes_nowhere destination.entry d.withheld))) }
    ensures fault { IfErr result (λ f. (steps : List Step)
        × IsBrokenOff (file_of destination.entry)
        (goes_nowhere destination.entry (is_withheld destination.entry output.ends))
        (take output.report output.bytes.items) (drop output.report output.bytes.items)
        (F.text files.old) (F.text files.new) (F.have_failed files.new)
        (W.contents writer.old.0) (W.contents writer.new.0) writer.new.1 steps f
        × Takes (F.steps files.old) (F.steps files.new) steps) }
{
    let withheld = destination.atomic && any_failed(output.ends.as_slice());
    let nowhere = destination.report_only || withheld;
    let bytes = output.bytes.as_slice();
    send(
        files,
        seed,
        destination.file,
        nowhere,
        writer,
        bytes,
        output.report,
    )?;
    Ok(Delivered {
        seen: output.seen,
        ends: output.ends,
        withheld,
    })
}

/// Sends the report, the bytes before a place, to the writer, and the model behind it to its file,
/// if there is one, or after the report, or nowhere.
fn send<F: OutputFiles, W: Write>(
    files: &mut F,
    seed: u64,
    file: Option<&str>,
    nowhere: bool,
    writer: &mut Device<W>,
    bytes: &[u8],
    at: usize,
) -> Result<(), ServeFault>
    requires { at ≤ length bytes.now }
    ensures sent { OnOk result (IsSent (option_map (λ s. s.now) file.entry) nowhere
        (take at bytes.now) (drop at bytes.now) (F.text files.old) (F.text files.new)
        (W.contents writer.old.0) (W.contents writer.new.0) writer.old.1 writer.new.1) }
    ensures steps { OnOk result (Takes (F.steps files.old) (F.steps files.new)
        (delivering (option_map (λ s. s.now) file.entry) nowhere)) }
    ensures fault { IfErr result (λ f. (steps : List Step)
        × IsBrokenOff (option_map (λ s. s.now) file.entry) nowhere
        (take at bytes.now) (drop at bytes.now)
        (F.text files.old) (F.text files.new) (F.have_failed files.new)
        (W.contents writer.old.0) (W.contents writer.new.0) writer.new.1 steps f
        × Takes (F.steps files.old) (F.steps files.new) steps) }
{
    let (report, model) = bytes.split_at(at);
    if nowhere {
        return write_all(writer, report);
    }
    match file {
        None => write_all(writer, bytes),
        Some(path) => replace(files, seed, path, model, writer, report),
    }
}

/// Writes all bytes and flushes, or is the fault `Write`.
fn write_all<W: Write>(writer: &mut Device<W>, bytes: &[u8]) -> Result<(), ServeFault>
    ensures written { OnOk result (Appends (W.contents writer.old.0) (W.contents writer.new.0) bytes.now) }
    ensures unfailed { OnOk result (writer.new.1 ≡ writer.old.1) }
    ensures fault { IfErr result (λ f. (f ≡ ServeFault.Write)
        × AppendsSome (W.contents writer.old.0) (W.contents writer.new.0) bytes.now × (writer.new.1 ≡ true)) }
{
    if write_output(writer, bytes) {
        Ok(())
    } else {
        Err(ServeFault::Write)
    }
}

/// Whether a script ended refused or out of memory.
fn any_failed(ends: &[End]) -> bool
    ensures { result ≡ list_any has_failed ends.now }
{
    for end in ends {
        if is_failed(&end.outcome) {
            return true;
        }
    }
    false
}

/// Whether a script with this end was refused, or ran out of memory.
fn is_failed(outcome: &Outcome) -> bool
    ensures { result ≡ outcome_failed outcome.now }
{
    match outcome {
        Outcome::Refused(..) | Outcome::NoMemory(_) => true,
        Outcome::Committed | Outcome::Aborted => false,
    }
}

/// Replaces the file of this path by the model, once the model is on its device and the report is
/// written. At every moment the file is the old one or the new one, whole, and until the rename it
/// is the old one.
fn replace<F: OutputFiles, W: Write>(
    files: &mut F,
    seed: u64,
    path: &str,
    model: &[u8],
    writer: &mut Device<W>,
    report: &[u8],
) -> Result<(), ServeFault>
    ensures written { OnOk result (Appends (W.contents writer.old.0) (W.contents writer.new.0) report.now) }
    ensures placed { OnOk result (IsReplaced path.now model.now (F.text files.old) (F.text files.new)) }
    ensures unfailed { OnOk result (writer.new.1 ≡ writer.old.1) }
    ensures steps { OnOk result (Takes (F.steps files.old) (F.steps files.new) (replacing path.now)) }
    ensures fault { IfErr result (λ f. (steps : List Step)
        × BreaksOff path.now report.now model.now (F.text files.old) (F.text files.new) (F.have_failed files.new)
        (W.contents writer.old.0) (W.contents writer.new.0) writer.new.1 steps f
        × Takes (F.steps files.old) (F.steps files.new) steps) }
{
    let Some(new) = filled_new(files, seed, path, model) else {
        return Err(ServeFault::Write);
    };
    if !write_output(writer, report) {
        files.give_up(new);
        return Err(ServeFault::Write);
    }
    place(files, new, path)
}

/// A new file for the file of this path, with the model on its device. `None` if a step is refused;
/// then nothing of it is left.
pub fn filled_new<F: OutputFiles>(
    files: &mut F,
    seed: u64,
    path: &str,
    model: &[u8],
) -> Option<F::New>
    ensures synced { IfSome result (λ new. F.is_synced new ≡ true) }
    ensures contents { IfSome result (λ new. F.are_known ≡ true → F.New.contents new ≡ Some model.now) }
    ensures texts { F.text files.new ≡ F.text files.old }
    ensures steps { IsSome result → Takes (F.steps files.old) (F.steps files.new)
        (Step.Created path.now ∷ Step.Synced ∷ []) }
    ensures unmade { IsNone result → Takes (F.steps files.old) (F.steps files.new) []
        ⊎ Takes (F.steps files.old) (F.steps files.new) (Step.Created path.now ∷ Step.GivenUp ∷ []) }
    ensures failed { IsNone result → F.have_failed files.new ≡ true }
{
    let new = files.create(path, seed)?;
    let mut device = Device::new(new);
    let filled = write_output(&mut device, model);
    let mut new = device.into_inner();
    if !filled || !files.sync(&mut new) {
        files.give_up(new);
        return None;
    }
    Some(new)
}

/// Puts a new file in the place of the file of this path, if that is still what was read.
pub fn place<F: OutputFiles>(files: &mut F, new: F::New, path: &str) -> Result<(), ServeFault>
    requires { F.is_synced new ≡ true }
    ensures placed { OnOk result (IsPut path.now F.are_known (F.New.contents new) (F.text files.old) (F.text files.new)) }
    ensures steps { OnOk result (Takes (F.steps files.old) (F.steps files.new)
        (Step.LookedAt path.now ∷ Step.Renamed path.now ∷ Step.FolderSynced path.now ∷ [])) }
    ensures fault { IfErr result (λ f. (steps : List Step)
        × IsUnplaced path.now F.are_known (F.New.contents new) (F.text files.old) (F.text files.new)
        (F.have_failed files.new) steps f × Takes (F.steps files.old) (F.steps files.new) steps) }
{
    if let Err(fault) = files.look_again(path) {
        files.give_up(new);
        return Err(fault);
    }
    if !files.rename(new, path) {
        return Err(ServeFault::Write);
    }
    if !files.sync_folder(path) {
        return Err(ServeFault::Write);
    }
    Ok(())
}
