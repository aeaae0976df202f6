//! Diagnostics of a missing mark.
use crate::details::Details;
use crate::diagnostic::Diagnostic;
use crate::quoted::Quoted;
use crate::refusal::past::Past;
use city_model::OutOfMemory;
use std::alloc::Global;
use std::fmt::Write;

const MARK: &str =
    "Mark before, or correct the name; a back to an older mark drops the newer ones.";

/// Most marks shown.
const MOST: usize = 10;

/// Says that there is no mark of a name, and which ones there are.
pub fn tell_no_mark(
    alloc: Global,
    name: &str,
    past: Option<&Past<'_>>,
    diagnostic: &mut Diagnostic,
) -> Result<(), OutOfMemory> {
    let shown = Quoted(name);
    write!(diagnostic.narrowed()?, "mark {shown}")?;
    diagnostic.details.text("mark", name)?;
    write!(diagnostic.told(MARK), "There is no mark {shown}")?;
    if let Some(past) = past {
        tell_marks(alloc, past, diagnostic)?;
    }
    diagnostic.message.push_str(".")
}

fn tell_marks(
    alloc: Global,
    past: &Past<'_>,
    diagnostic: &mut Diagnostic,
) -> Result<(), OutOfMemory> {
    let names = past.mark_names(alloc)?;
    let mut list = Vec::new(alloc);
    for name in names.iter().take(MOST) {
        let mut mark = Details::new(alloc);
        mark.text("mark", *name)?;
        list.push(mark)?;
        let before = if list.len() == 1 { "; there is " } else { ", " };
        let shown = Quoted(*name);
        write!(&mut diagnostic.message, "{before}{shown}")?;
    }
    diagnostic.details.list("marks", list)?;
    if names.is_empty() {
        return diagnostic.message.push_str(", and no other");
    }
    if names.len() > MOST {
        let more = names.len() - MOST;
        write!(&mut diagnostic.message, ", and {more} more")?;
        diagnostic.details.number("more", more)?;
    }
    Ok(())
}
