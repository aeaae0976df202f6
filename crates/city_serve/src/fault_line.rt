//! The line to report a fault.
ghost use Rattle.std.specs.Prelude.{◌≡◌, IfOk, string_bytes};
ghost use Rattle.city_serve.specs.FaultTexts.{fault_text};

use crate::fault::ServeFault;
use city_model::OutOfMemory;
use std::alloc::Global;

/// The line to report a fault, without a newline. It fails only when out of memory.
pub fn fault_line(alloc: Global, fault: &ServeFault) -> Result<String, OutOfMemory>
    ensures { IfOk result (λ s. string_bytes s ≡ fault_text fault.now) }
{
    format!(in alloc; "cityed: {fault}")
}
