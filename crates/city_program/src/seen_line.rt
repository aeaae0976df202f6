//! The line to report what a viewer saw.
ghost use Rattle.std.specs.Prelude.{◌≡◌, ◌++◌, IfOk, OnOk, codes, string_bytes};
ghost use Rattle.std.specs.Fmt.{decimal};
ghost use Rattle.city_program.specs.SeenTexts.{seen_text};

use city_model::OutOfMemory;
use std::alloc::Global;

/// The line to report the numbers of the changes seen by a viewer, without a newline:
/// `viewer 0: 0 1 3`. It fails only when out of memory.
pub fn seen_line(alloc: Global, viewer: usize, seen: &[u64]) -> Result<String, OutOfMemory>
    ensures { IfOk result (λ s. string_bytes s ≡ seen_text viewer seen.now) }
{
    let mut line = "viewer ".to_string(alloc)?;
    line.push_str(viewer.to_string(alloc)?.as_str())?;
    line.push_str(":")?;
    for number in seen {
        push_number(alloc, &mut line, *number)?;
    }
    Ok(line)
}

/// Adds a space and the number in decimal.
fn push_number(alloc: Global, line: &mut String, number: u64) -> Result<(), OutOfMemory>
    ensures { OnOk result (string_bytes line.new ≡ string_bytes line.old ++ codes " " ++ decimal number) }
{
    line.push_str(" ")?;
    line.push_str(number.to_string(alloc)?.as_str())
}
