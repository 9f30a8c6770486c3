//! A register module's states at reset, and its clock.

ghost use Rattle.std.specs.Prelude.{IfOk};
ghost use Rattle.cg_svspec.specs.Register.{IsRegister};
ghost use Rattle.cg_svspec.specs.Value.{IsReset, Valuation, Values};
ghost use Rattle.cg_svspec.specs.WellFormed.{WellFormed};
ghost use Rattle.cg_sv.specs.Views.{module_of};
ghost use Rattle.cg_sveval.specs.Cells.{AreCells, HasCells, InOrder, input_nets, output_nets, state_nets};

use crate::known::Known;
use crate::stages::{add_inputs, add_states, next_cells, output_cells, reset_cells, settle};
use crate::{Inputs, Outputs, State};
use cg_base::Memory;
use cg_sv::Module;
use std::alloc::Global;

/// The states of a register module at reset, in entry order. `Memory` where it is not found.
pub fn reset(alloc: Global, module: &Module) -> Result<State, Memory>
    requires well_formed { WellFormed (module_of «module».now) }
    requires register { IsRegister (module_of «module».now) }
    ensures cells { IfOk result (λ s. InOrder (state_nets (module_of «module».now).entries) s.cells) }
    ensures reset { IfOk result (λ s. (values : Values) → HasCells values (state_nets (module_of «module».now).entries) s.cells
        → IsReset (module_of «module».now) values) }
{
    let known = Known::new(alloc);
    let cells = reset_cells(alloc, &known, module.entries.as_slice())?;
    Ok(State { cells })
}

/// One clock of a register module: its states after it, in entry order, and its outputs in it, in port order, for these states and
/// inputs, whose cells may stand in any order. `Memory` where it is not found.
pub fn step(
    alloc: Global,
    module: &Module,
    state: &State,
    inputs: &Inputs,
) -> Result<(State, Outputs), Memory>
    requires well_formed { WellFormed (module_of «module».now) }
    requires register { IsRegister (module_of «module».now) }
    requires states { AreCells (state_nets (module_of «module».now).entries) state.now.cells }
    requires inputs { AreCells (input_nets (module_of «module».now).ports) inputs.now.cells }
    ensures states { IfOk result (λ r. InOrder (state_nets (module_of «module».now).entries) r.0.cells) }
    ensures outputs { IfOk result (λ r. InOrder (output_nets (module_of «module».now).ports) r.1.cells) }
    ensures means_states { IfOk result (λ r. (given held v next : Values) → HasCells given (input_nets (module_of «module».now).ports) inputs.now.cells
        → HasCells held (state_nets (module_of «module».now).entries) state.now.cells → Valuation (module_of «module».now) given held v next
        → HasCells next (state_nets (module_of «module».now).entries) r.0.cells) }
    ensures means_outputs { IfOk result (λ r. (given held v next : Values) → HasCells given (input_nets (module_of «module».now).ports) inputs.now.cells
        → HasCells held (state_nets (module_of «module».now).entries) state.now.cells → Valuation (module_of «module».now) given held v next
        → HasCells v (output_nets (module_of «module».now).ports) r.1.cells) }
{
    let mut known = Known::new(alloc);
    add_inputs(
        alloc,
        &mut known,
        inputs.cells.as_slice(),
        module.ports.as_slice(),
    )?;
    add_states(
        alloc,
        &mut known,
        state.cells.as_slice(),
        module.entries.as_slice(),
    )?;
    settle(alloc, &mut known, module.entries.as_slice())?;
    let cells = next_cells(alloc, &known, module.entries.as_slice())?;
    let outputs = output_cells(alloc, &known, module.ports.as_slice())?;
    Ok((State { cells }, Outputs { cells: outputs }))
}
