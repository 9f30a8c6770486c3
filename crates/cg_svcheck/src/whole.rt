//! Whether a module is well formed.

ghost use Rattle.std.specs.Prelude.{◌≡◌};
ghost use Rattle.std.specs.Bool.{Decides};
ghost use Rattle.cg_svspec.specs.WellFormed.{WellFormed};
ghost use Rattle.cg_sv.specs.Views.{module_of};
ghost use Rattle.cg_svcheck.specs.Whole.{is_well_formed};

use crate::differing::{are_ports_driven, are_wires_driven, drivers_differ, names_differ};
use crate::fitting::entries_fit;
use crate::printing::is_printable;
use cg_sv::Module;

/// Whether a module passes the tests of one that is well formed, besides that it is printable.
#[tactic(auto, unfolding(crate::specs::Whole::is_well_formed))]
fn passes(module: &Module) -> bool
    ensures { result ≡ is_well_formed (module_of «module».now) }
{
    names_differ(module)
        && (entries_fit(module)
            && (drivers_differ(module)
                && (are_ports_driven(module, module.ports.as_slice())
                    && are_wires_driven(module, module.entries.as_slice()))))
}

/// Whether the module is well formed: it is printable, its names differ, every used net is declared and known above, all
/// widths agree, each output and each wire has one driver and no input has one, and known parts have their ports.
///
/// It takes no memory, and its time grows with the square of the module.
pub fn well_formed(module: &Module) -> bool
    ensures { Decides result (WellFormed (module_of «module».now)) }
{
    is_printable(module) && passes(module)
}
