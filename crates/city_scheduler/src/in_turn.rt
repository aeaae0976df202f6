//! Runs the scripts of a desk one after the other.
ghost use Rattle.std.specs.Prelude.{◌≡◌, ◌<◌, ℕ, [], false, length, take, IfOk};
ghost use Rattle.city_model.specs.CityMap.{object_at};
ghost use Rattle.city_model.specs.Relations.{IsLawful};
ghost use Rattle.city_model.specs.Runs.{IsSerialHistory, model_after};
ghost use Rattle.city_scheduler.specs.declared.progress.Phase.{Phase};
ghost use Rattle.city_scheduler.specs.DeskState.{phase_of, is_open_phase};
ghost use Rattle.city_scheduler.specs.InTurn.{AreInTurn};
ghost use Rattle.city_scheduler.specs.internal.RunInTurn.{HasRun, HaveRun};

use crate::desk::{Desk, Finished};
use crate::null_shelf::NullShelf;
use crate::shelf::Shelf;
use crate::turn::Turn;
use city_members::sequence::Sequence;
use city_model::OutOfMemory;
use city_model::city::City;
use city_model::script::Script;
use std::alloc::Global;

/// Runs script n to its end, turn by turn, while no other transaction is open. So it neither waits
/// nor dies.
fn run_to_end<S: Shelf>(desk: &mut Desk<S>, n: usize)
    requires there { n < length desk.old.0.scripts }
    requires unbegun { phase_of desk.old.0 n ≡ Phase.NotBegun }
    requires alone { (k : ℕ) → is_open_phase (phase_of desk.old.0 k) ≡ false }
    ensures { HasRun n desk.old.0 desk.new.0 }
{
    loop {
        match desk.turn(n) {
            Turn::Ended => return,
            Turn::Began => {}
            Turn::Replied => {}
            Turn::Waits => unreachable!(),
            Turn::Died => unreachable!(),
            Turn::AlreadyEnded => unreachable!(),
        }
    }
}

/// Runs each script to its end, one after the other in their order.
fn run_in_turn<S: Shelf>(desk: &mut Desk<S>)
    requires empty { desk.old.0.ends ≡ [] }
    requires unbegun { (k : ℕ) → k < length desk.old.0.scripts → phase_of desk.old.0 k ≡ Phase.NotBegun }
    requires alone { (k : ℕ) → is_open_phase (phase_of desk.old.0 k) ≡ false }
    ensures { HaveRun desk.old.0 (length desk.old.0.scripts) desk.new.0 }
{
    for n in 0..desk.scripts() {
        run_to_end(desk, n);
    }
}

/// Runs the scripts on the city, one after the other in their order.
pub fn run_each(
    alloc: Global,
    city: City,
    scripts: Sequence<Script>,
) -> Result<Finished<NullShelf>, OutOfMemory>
    requires { IsLawful (object_at city.1) }
    ensures each_once { IfOk result (λ f. length f.ends ≡ length scripts) }
    ensures in_turn { IfOk result (λ f. AreInTurn 0 f.ends) }
    ensures fits { IfOk result (λ f. IsSerialHistory scripts (object_at city.1) f.ends) }
    ensures lawful { IfOk result (λ f. (n : ℕ) → IsLawful (model_after scripts (object_at city.1) (take n f.ends))) }
    ensures model { IfOk result (λ f. object_at f.city.1 ≡ model_after scripts (object_at city.1) f.ends) }
    ensures frame { IfOk result (λ f. f.city.0 ≡ city.0) }
{
    let mut desk = Desk::open(alloc, city, scripts, NullShelf::new())?;
    run_in_turn(&mut desk);
    let Ok(finished) = desk.finish() else {
        unreachable!()
    };
    Ok(finished)
}
