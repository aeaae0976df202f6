//! Paths to values of a tree, and how they are written.
use crate::quoted::Quoted;
use city_model::OutOfMemory;
use std::alloc::Global;
use std::fmt::Write;

/// A step from a value to one inside it.
#[derive(Clone, Copy)]
pub enum Step<'t> {
    /// To the member of this name.
    Member(&'t str),
    /// To the item at this place.
    Item(usize),
}

/// Shows a path: names with points between them, items as `[0]`.
pub fn path_text(alloc: Global, steps: &[Step<'_>]) -> Result<String, OutOfMemory> {
    let mut path = String::new(alloc);
    for step in steps {
        add_step(&mut path, *step)?;
    }
    Ok(path)
}

/// Adds a step to a path. A name is shown as it is if plain, else as a JSON text in brackets.
fn add_step(path: &mut String, step: Step<'_>) -> Result<(), OutOfMemory> {
    match step {
        Step::Item(number) => write!(path, "[{number}]")?,
        Step::Member(name) if is_plain(name) => {
            if !path.is_empty() {
                path.push_str(".")?;
            }
            path.push_str(name)?;
        }
        Step::Member(name) => {
            let name = Quoted(name);
            write!(path, "[{name}]")?;
        }
    }
    Ok(())
}

/// Whether a name is letters, digits and `_`, with no digit first.
fn is_plain(name: &str) -> bool {
    let bytes = name.as_bytes();
    match bytes.first() {
        None => false,
        Some(first) => {
            !first.is_ascii_digit()
                && bytes
                    .iter()
                    .all(|byte| byte.is_ascii_alphanumeric() || *byte == b'_')
        }
    }
}
