//! A whole register module.

ghost use Rattle.std.specs.Prelude.{◌≡◌, ◌<◌, ℕ, List, ◌++◌, length, map, Some, None, Err, IfOk, OnOk};
ghost use Rattle.cg_svspec.specs.Characters.{IsName, IsWord};
ghost use Rattle.cg_svspec.specs.Names.{module_names, first_repeat};
ghost use Rattle.cg_svspec.specs.Register.{access_ports};
ghost use Rattle.cg_desc.specs.Laid.{IsLaid};
ghost use Rattle.cg_desc.specs.Valid.{IsNameIfAny};
ghost use Rattle.cg_sv.specs.Views.{module_of, port_of, entry_of};
ghost use Rattle.cg_sv.specs.declared.fault.SvRegFault.TheVariants as SvRegFault;
ghost use Rattle.cg_regspec.specs.Meaning.{RegisterMeans};
ghost use Rattle.cg_regspec.specs.RegisterModule.{rows_ports, register_entries, register_module, register_module_name};
ghost use Rattle.cg_svreg.specs.Interface.{interface, interface_module};
ghost use Rattle.cg_svreg.specs.Narrow.{RowsAreNarrow};

use crate::answer::add_answer;
use crate::fields::add_rows_fields;
use crate::ports::{add_access_ports, add_rows_ports};
use crate::rows::add_rows;
use crate::states::{add_rows_flops, add_rows_states};
use crate::windows::add_rows_windows;
use cg_base::{List, Memory, Text};
use cg_desc::{LaidBlock, LaidFace, LaidRow};
use cg_regspec::register_module_means;
use cg_sv::{Entry, Module, Port, SvRegFault, names_differ};
use std::alloc::Global;

fn ports_of(alloc: Global, rows: &[LaidRow]) -> Result<List<Port>, Memory>
    ensures { IfOk result (λ ports. map port_of ports ≡ access_ports ++ rows_ports rows.now) }
{
    let mut ports = List::new(alloc);
    add_access_ports(alloc, &mut ports)?;
    add_rows_ports(alloc, &mut ports, rows)?;
    Ok(ports)
}

fn entries_of(alloc: Global, face: &LaidFace) -> Result<List<Entry>, Memory>
    requires { RowsAreNarrow face.now.rows }
    ensures { IfOk result (λ entries. map entry_of entries ≡ register_entries face.now) }
{
    let rows = face.rows.as_slice();
    let mut entries = List::new(alloc);
    add_rows_states(alloc, &mut entries, rows)?;
    add_rows(alloc, &mut entries, rows)?;
    add_answer(alloc, &mut entries, rows)?;
    add_rows_fields(alloc, &mut entries, rows)?;
    add_rows_windows(alloc, &mut entries, rows)?;
    add_rows_flops(alloc, &mut entries, rows)?;
    Ok(entries)
}

/// The module, whose names may clash.
#[tactic(auto, unfolding(cg_regspec::specs::RegisterModule::register_module))]
fn any_module(alloc: Global, name: &str, face: &LaidFace) -> Result<Module, Memory>
    requires { RowsAreNarrow face.now.rows }
    ensures { IfOk result (λ m. module_of m ≡ register_module name.now face.now) }
{
    let name = Text::of(alloc, name)?;
    let ports = ports_of(alloc, face.rows.as_slice())?;
    let entries = entries_of(alloc, face)?;
    Ok(Module {
        name,
        ports,
        entries,
    })
}

/// The register module of an interface, under this name.
///
/// Its entries stand in this order: the wires of all that is stored; six wires for each row; the answer to an access;
/// for each register that is shadowed whether a write commits, its next phase and its update error, and then each
/// field's next value, and what hardware sees of it; what hardware sees of each window; the flip-flops. `Clash` has the
/// first name that the module would declare twice, as `a_b_c_q` where register `A_B` has a field `C`, and register `A` a
/// field `B_C`. Under a good name the module acts as the interface's register block.
#[tactic(auto, using(crate::proofs::Printing::made_means))]
pub fn face_module(alloc: Global, name: &str, face: &LaidFace) -> Result<Module, SvRegFault>
    requires laid { IsLaid face.now }
    ensures made { IfOk result (λ m. module_of m ≡ register_module name.now face.now) }
    ensures means { IfOk result (λ m. IsName name.now → RegisterMeans name.now (module_of m) face.now) }
    ensures apart { OnOk result (first_repeat (module_names (register_module name.now face.now)) ≡ None) }
    ensures clash { (n : List ℕ) → result ≡ Err (SvRegFault.Clash n) → first_repeat (module_names (register_module name.now face.now)) ≡ Some n }
{
    register_module_means();
    let made = any_module(alloc, name, face)?;
    names_differ(alloc, &made)?;
    Ok(made)
}

/// The name of an interface's module: `<block>_reg_top`, or `<block>_<interface>_reg_top` for a named interface.
fn module_name(alloc: Global, block: &str, face: &LaidFace) -> Result<Text, Memory>
    ensures { IfOk result (λ name. name ≡ register_module_name block.now face.now.name) }
{
    let Some(interface) = &face.name else {
        let name = format!(in alloc; "{block}_reg_top")?;
        return Ok(Text::from_string(name));
    };
    let interface = interface.as_str();
    let name = format!(in alloc; "{block}_{interface}_reg_top")?;
    Ok(Text::from_string(name))
}

/// The register module of the block's device interface number `face`, counted from 0, under the name that block and
/// interface give it. `Clash` is as for `face_module`. With good names of both the module acts as the interface's register block.
#[tactic(auto, using(crate::proofs::Printing::interface_module_is_name))]
pub fn reg_module(alloc: Global, block: &LaidBlock, face: u32) -> Result<Module, SvRegFault>
    requires within { face < length block.now.faces }
    requires laid { IsLaid (interface block.now face) }
    ensures made { IfOk result (λ m. module_of m ≡ interface_module block.now face) }
    ensures means { IfOk result (λ m. IsWord block.now.desc.name → IsNameIfAny (interface block.now face).name
        → RegisterMeans (register_module_name block.now.desc.name (interface block.now face).name) (module_of m) (interface block.now face)) }
    ensures apart { OnOk result (first_repeat (module_names (interface_module block.now face)) ≡ None) }
    ensures clash { (n : List ℕ) → result ≡ Err (SvRegFault.Clash n) → first_repeat (module_names (interface_module block.now face)) ≡ Some n }
{
    let face = &block.faces.as_slice()[face as usize];
    let name = module_name(alloc, block.desc.name.as_str(), face)?;
    let made = face_module(alloc, name.as_str(), face)?;
    Ok(made)
}
