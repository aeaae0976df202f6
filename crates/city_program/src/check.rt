//! Tells all faults of a model and of scripts, and warns of scripts; runs nothing.

ghost use Rattle.std.specs.Prelude.{◌≡◌, ◌⊎◌, ◌∷◌, [], true, Bool, List, ℕ, option_map, IfOk, IfErr, IfSome, OnOk};
ghost use Rattle.std.specs.Io.KnownBytes.{Appends, Keeps};
ghost use Rattle.city_serve.specs.declared.fault.ServeFault.{ServeFault};
ghost use Rattle.city_diagnostics.specs.Warnings.{AreWarnings};
ghost use Rattle.city_program.specs.Checks.{IsCheckOutput, AreModelLines, AreScriptsLines, IsJudged};
ghost use Rattle.city_program.specs.Checks.{AreFirstOf, OfFiles, reading_of};
ghost use Rattle.city_program.specs.internal.Telling.{MayRead};
ghost use Rattle.city_serve.specs.Steps.{Step, Takes};
ghost use Rattle.city_serve.specs.Served.{IsDeviceFault};
ghost use Rattle.city_serve.specs.ServedTexts.{AppendsSome};

use city_diagnostics::{check_document, check_scripts, warn_scripts};
use city_model::OutOfMemory;
use city_serve::serve::write_output;
use city_serve::{Device, ServeFault, Text, TextFiles, Texts, encode_text};
use std::alloc::Global;
use std::io::Write;

/// Writes a line for each fault of the model, then for each of the scripts if there are any, and
/// warnings behind them. Says whether there is a fault.
///
/// The model is read to its end before the scripts are opened. Nothing is written before all lines
/// are known, and each text is let go once its lines are.
pub(crate) fn check<F: TextFiles, W: Write>(
    alloc: Global,
    files: &mut F,
    texts: &mut Texts,
    decimals: bool,
    model: &str,
    scripts: Option<&str>,
    output: &mut Device<W>,
) -> Result<bool, ServeFault>
    ensures checked { IfOk result (λ faulty.
        OfFiles (F.text files.old) model.now (option_map (λ s. s.now) scripts.entry)
        (λ document commands. (lines : List ℕ) × IsCheckOutput decimals document commands faulty lines
        × Appends (W.contents output.old.0) (W.contents output.new.0) lines)) }
    ensures texts { F.text files.new ≡ F.text files.old }
    ensures steps { OnOk result (Takes (F.steps files.old) (F.steps files.new)
        (reading_of model.now (option_map (λ s. s.now) scripts.entry))) }
    ensures fault { IfErr result (λ f. (steps : List Step) × Takes (F.steps files.old) (F.steps files.new) steps
        × ((IsDeviceFault true f × Keeps (W.contents output.old.0) (W.contents output.new.0)
        × AreFirstOf (reading_of model.now (option_map (λ s. s.now) scripts.entry)) steps)
        ⊎ ((f ≡ ServeFault.Write) × (output.new.1 ≡ true)
        × (steps ≡ reading_of model.now (option_map (λ s. s.now) scripts.entry))
        × ((faulty : Bool) × OfFiles (F.text files.old) model.now (option_map (λ s. s.now) scripts.entry)
        (λ document commands. (lines : List ℕ) × IsCheckOutput decimals document commands faulty lines
        × AppendsSome (W.contents output.old.0) (W.contents output.new.0) lines))))) }
{
    let (lines, faulty) = all_lines(alloc, files, texts, decimals, model, scripts)?;
    if !write_output(output, lines.as_slice()) {
        return Err(ServeFault::Write);
    }
    Ok(faulty)
}

/// The lines of all faults of the model and the scripts, and the warnings behind them; and whether there is a fault.
fn all_lines<F: TextFiles>(
    alloc: Global,
    files: &mut F,
    texts: &mut Texts,
    decimals: bool,
    model: &str,
    scripts: Option<&str>,
) -> Result<(Vec<u8>, bool), ServeFault>
    ensures lines { IfOk result (λ v. OfFiles (F.text files.old) model.now (option_map (λ s. s.now) scripts.entry)
        (λ document commands. IsCheckOutput decimals document commands v.1 v.0.items)) }
    ensures texts { F.text files.new ≡ F.text files.old }
    ensures steps { OnOk result (Takes (F.steps files.old) (F.steps files.new)
        (reading_of model.now (option_map (λ s. s.now) scripts.entry))) }
    ensures fault { IfErr result (λ f. IsDeviceFault true f × ((steps : List Step)
        × Takes (F.steps files.old) (F.steps files.new) steps
        × AreFirstOf (reading_of model.now (option_map (λ s. s.now) scripts.entry)) steps)) }
{
    let mut lines = model_lines(alloc, files, texts, decimals, model)?;
    let Some(scripts) = scripts else {
        let faulty = !lines.is_empty();
        return Ok((lines, faulty));
    };
    let (more, warnings) = more_lines(alloc, files, texts, decimals, scripts)?;
    lines.extend_from_slice(more.as_slice())?;
    let faulty = !lines.is_empty();
    lines.extend_from_slice(warnings.as_slice())?;
    Ok((lines, faulty))
}

/// The lines of all faults of the model.
fn model_lines<F: TextFiles>(
    alloc: Global,
    files: &mut F,
    texts: &mut Texts,
    decimals: bool,
    model: &str,
) -> Result<Vec<u8>, ServeFault>
    ensures lines { IfOk result (λ v. IfSome (F.text files.old model.now)
        (λ all. AreModelLines decimals all v.items)) }
    ensures texts { F.text files.new ≡ F.text files.old }
    ensures steps { OnOk result (Takes (F.steps files.old) (F.steps files.new) (Step.Read model.now ∷ [])) }
    ensures fault { IfErr result (λ f. IsDeviceFault true f × MayRead model.now (F.steps files.old) (F.steps files.new)) }
{
    let text = files.read(model)?;
    texts.document = Text::given(text);
    let lines = document_lines(alloc, decimals, &mut texts.document)?;
    Ok(lines)
}

/// The lines of all faults of the scripts, and the warnings.
fn more_lines<F: TextFiles>(
    alloc: Global,
    files: &mut F,
    texts: &mut Texts,
    decimals: bool,
    scripts: &str,
) -> Result<(Vec<u8>, Vec<u8>), ServeFault>
    ensures lines { IfOk result (λ v. IfSome (F.text files.old scripts.now)
        (λ all. AreScriptsLines decimals all v.0.items)) }
    ensures warnings { IfOk result (λ v. AreWarnings v.1.items) }
    ensures texts { F.text files.new ≡ F.text files.old }
    ensures steps { OnOk result (Takes (F.steps files.old) (F.steps files.new) (Step.Read scripts.now ∷ [])) }
    ensures fault { IfErr result (λ f. IsDeviceFault true f
        × MayRead scripts.now (F.steps files.old) (F.steps files.new)) }
{
    let text = files.read(scripts)?;
    texts.scripts = Text::given(text);
    let lines = scripts_lines(alloc, decimals, &mut texts.scripts)?;
    Ok(lines)
}

/// Returns the lines of all faults of a document, and lets it go.
fn document_lines(alloc: Global, decimals: bool, text: &mut Text) -> Result<Vec<u8>, OutOfMemory>
    ensures { IfOk result (λ v. AreModelLines decimals text.old.bytes.items v.items) }
{
    judge(alloc, decimals, text)?;
    let lines = check_document(alloc, text.bytes.as_slice(), text.is_given())?;
    text.let_go(alloc);
    Ok(lines)
}

/// Returns the lines of all faults of scripts, and the warnings; lets the scripts go.
fn scripts_lines(
    alloc: Global,
    decimals: bool,
    text: &mut Text,
) -> Result<(Vec<u8>, Vec<u8>), OutOfMemory>
    ensures lines { IfOk result (λ v. AreScriptsLines decimals text.old.bytes.items v.0.items) }
    ensures warnings { IfOk result (λ v. AreWarnings v.1.items) }
{
    judge(alloc, decimals, text)?;
    let lines = check_scripts(alloc, text.bytes.as_slice(), text.is_given())?;
    let warnings = warn_scripts(alloc, text.bytes.as_slice())?;
    text.let_go(alloc);
    Ok((lines, warnings))
}

/// Prepares a text for judging: if numbers of any form are taken, it is encoded as for a run.
fn judge(alloc: Global, decimals: bool, text: &mut Text) -> Result<(), OutOfMemory>
    ensures { OnOk result (IsJudged decimals text.old.bytes.items text.new.bytes.items) }
{
    if decimals {
        encode_text(alloc, text)
    } else {
        Ok(())
    }
}
