//! Whether shells are closed (CityJSON 2.0, section 3.2).
ghost use Rattle.std.specs.Prelude.{◌≡◌, not, IfOk};
ghost use Rattle.std.specs.List.{list_all, list_any};
ghost use Rattle.std.specs.List.Sorted.{IsSorted};
ghost use Rattle.std.specs.Ordering.{eq_by_cmp};
ghost use Rattle.city_model.specs.Shells.{occurs_once, is_closed, is_open_shell, has_open_shell};

use crate::OutOfMemory;
use crate::edges::edges_of;
use crate::object::{Shape, Shell, Solid};
use crate::shape::Bounds;
use std::alloc::Global;

/// Whether an item is repeated; the items are in order.
fn has_repeats<T: Ord>(items: &[T]) -> bool
    requires { IsSorted T.cmp items.now }
    ensures { result ≡ not (list_all (occurs_once (eq_by_cmp T.cmp) items.now) items.now) }
{
    for i in 1..items.len() {
        if items[i - 1].cmp(&items[i]).is_eq() {
            return true;
        }
    }
    false
}

/// Whether each edge of the shell is run once each way. For n edges it takes time in proportion to
/// n log n. Fails only when out of memory.
pub fn shell_closed(alloc: Global, shell: &Shell) -> Result<bool, OutOfMemory>
    ensures { IfOk result (λ b. b ≡ is_closed shell.now) }
{
    let mut edges = edges_of(alloc, shell)?;
    edges.up.sort_unstable();
    edges.down.sort_unstable();
    let up = edges.up.as_slice();
    Ok(!has_repeats(up) && up == edges.down.as_slice())
}

/// Whether a shell of one of the shape's solids isn't closed. Fails only when out of memory.
pub fn has_open_shell(alloc: Global, shape: &Shape) -> Result<bool, OutOfMemory>
    ensures { IfOk result (λ b. b ≡ has_open_shell shape.now) }
{
    match shape.bounds() {
        Bounds::Surfaces(_) => Ok(false),
        Bounds::Shells(shells) => any_open(alloc, shells.as_slice()),
        Bounds::Solids(solids) => any_open_in(alloc, solids.as_slice()),
    }
}

fn any_open_in(alloc: Global, solids: &[Solid]) -> Result<bool, OutOfMemory>
    ensures { IfOk result (λ b. b ≡ list_any (list_any is_open_shell) solids.now) }
{
    for solid in solids {
        if any_open(alloc, solid.as_slice())? {
            return Ok(true);
        }
    }
    Ok(false)
}

fn any_open(alloc: Global, shells: &[Shell]) -> Result<bool, OutOfMemory>
    ensures { IfOk result (λ b. b ≡ list_any is_open_shell shells.now) }
{
    for shell in shells {
        if !shell_closed(alloc, shell)? {
            return Ok(true);
        }
    }
    Ok(false)
}
