//! The names of a top's texts: modules, files, connected ports, and what the top's module declares.

ghost use Rattle.std.specs.Prelude.{◌≡◌, ◌++◌, [], ◌∷◌, IfOk, OnOk, codes, map, flat_map};
ghost use Rattle.cg_sv.specs.Clashes.{Answers};
ghost use Rattle.cg_sv.specs.Views.{module_of, connection_of};
ghost use Rattle.cg_svbus.specs.TopViewed.{node_id_of, names_of};
ghost use Rattle.cg_svspec.specs.Names.{module_names, first_repeat};
ghost use Rattle.cg_svspec.specs.WellFormed.{connection_names};
ghost use Rattle.cg_regspec.specs.RegisterModule.{register_module_name};
ghost use Rattle.cg_topspec.specs.Clashes.{crossbar_module_names, type_names, register_names, known_modules, type_files, file_names, first_clash};
ghost use Rattle.cg_topspec.specs.Top.{all_nodes};
ghost use Rattle.cg_topspec.specs.TopModule.{top_module_name, instance_connections};

use crate::top_instances::instance_connections;
use crate::top_nodes::TopNode;
use cg_base::{List, Memory, Text};
use cg_clkrst::Tie;
use cg_desc::{LaidBlock, MergedTop};
use cg_sv::{Conn, Module, SvRegFault, first_repeat};
use cg_svxbar::{add_name, declared_names};
use std::alloc::Global;

/// Names of which none may stand twice.
#[derive(Drop)]
pub struct NameList {
    pub names: List<Text>,
}

/// The name of a top's module.
pub fn top_module_name(alloc: Global, top: &MergedTop) -> Result<Text, Memory>
    ensures { IfOk result (λ name. name ≡ top_module_name top.now) }
{
    let top = top.top.name.as_str();
    let name = format!(in alloc; "top_{top}")?;
    Ok(Text::from_string(name))
}

/// Adds the names of the crossbars' modules.
fn add_crossbars(alloc: Global, names: &mut List<Text>, top: &MergedTop) -> Result<(), Memory>
    ensures { OnOk result (names.new ≡ names.old ++ crossbar_module_names top.now) }
{
    for xbar in top.xbars.as_slice() {
        let xbar = xbar.name.as_str();
        let name = format!(in alloc; "xbar_{xbar}")?;
        add_name(alloc, names, &name)?;
    }
    Ok(())
}

/// Adds the names of the types.
fn add_types(alloc: Global, names: &mut List<Text>, top: &MergedTop) -> Result<(), Memory>
    ensures { OnOk result (names.new ≡ names.old ++ type_names top.now) }
{
    for block in top.blocks.as_slice() {
        add_name(alloc, names, block.desc.name.as_str())?;
    }
    Ok(())
}

/// The name of an interface's register module.
fn register_name(alloc: Global, block: &str, face: &Option<Text>) -> Result<Text, Memory>
    ensures { IfOk result (λ name. name ≡ register_module_name block.now face.now) }
{
    match face {
        None => {
            let name = format!(in alloc; "{block}_reg_top")?;
            Ok(Text::from_string(name))
        }
        Some(face) => {
            let name = format!(in alloc; "{block}_{face}_reg_top")?;
            Ok(Text::from_string(name))
        }
    }
}

/// The names of the register modules of a type.
fn register_names(alloc: Global, block: &LaidBlock) -> Result<List<Text>, Memory>
    ensures { IfOk result (λ names. names ≡ register_names block.now) }
{
    let mut names = List::new(alloc);
    for face in block.faces.as_slice() {
        let name = register_name(alloc, block.desc.name.as_str(), &face.name)?;
        names.push(name)?;
    }
    Ok(names)
}

/// Adds copies of names.
fn add_names(alloc: Global, names: &mut List<Text>, more: &[Text]) -> Result<(), Memory>
    ensures { OnOk result (names.new ≡ names.old ++ more.now) }
{
    for name in more {
        add_name(alloc, names, name.as_str())?;
    }
    Ok(())
}

/// Adds the names of the register modules of all types.
fn add_registers(alloc: Global, names: &mut List<Text>, top: &MergedTop) -> Result<(), Memory>
    ensures { OnOk result (names.new ≡ names.old ++ flat_map register_names top.now.blocks) }
{
    for block in top.blocks.as_slice() {
        let registers = register_names(alloc, block)?;
        add_names(alloc, names, registers.as_slice())?;
    }
    Ok(())
}

/// All modules that the texts know: parts, the top, crossbars, types, register modules.
#[tactic(auto, unfolding(cg_topspec::specs::Clashes::known_modules))]
fn known_modules(alloc: Global, top: &MergedTop) -> Result<List<Text>, Memory>
    ensures { IfOk result (λ names. names ≡ known_modules top.now) }
{
    let mut names = List::new(alloc);
    add_name(alloc, &mut names, "prim_flop")?;
    add_name(alloc, &mut names, "tlul_socket_1n")?;
    add_name(alloc, &mut names, "tlul_socket_m1")?;
    add_name(alloc, &mut names, "tlul_fifo_async")?;
    let name = top_module_name(alloc, top)?;
    names.push(name)?;
    add_crossbars(alloc, &mut names, top)?;
    add_types(alloc, &mut names, top)?;
    add_registers(alloc, &mut names, top)?;
    Ok(names)
}

/// Adds the file whose name begins and ends so.
fn add_file(alloc: Global, files: &mut List<Text>, name: &str, end: &str) -> Result<(), Memory>
    ensures { OnOk result (files.new ≡ files.old ++ (name.now ++ end.now) ∷ []) }
{
    let file = format!(in alloc; "{name}{end}")?;
    files.push(Text::from_string(file))?;
    Ok(())
}

/// Adds the file of each module.
fn add_modules_files(alloc: Global, files: &mut List<Text>, modules: &[Text]) -> Result<(), Memory>
    ensures { OnOk result (files.new ≡ files.old ++ map (λ name. name ++ codes ".sv") modules.now) }
{
    for name in modules {
        add_file(alloc, files, name.as_str(), ".sv")?;
    }
    Ok(())
}

/// Adds the files of the crossbars' modules.
fn add_crossbars_files(alloc: Global, files: &mut List<Text>, top: &MergedTop) -> Result<(), Memory>
    ensures { OnOk result (files.new ≡ files.old ++ map (λ name. name ++ codes ".sv") (crossbar_module_names top.now)) }
{
    let mut modules = List::new(alloc);
    add_crossbars(alloc, &mut modules, top)?;
    add_modules_files(alloc, files, modules.as_slice())?;
    Ok(())
}

/// Adds the files of a type: its header, its completed description, its register modules.
fn add_type_files(alloc: Global, files: &mut List<Text>, block: &LaidBlock) -> Result<(), Memory>
    ensures { OnOk result (files.new ≡ files.old ++ type_files block.now) }
{
    let name = block.desc.name.as_str();
    add_file(alloc, files, name, "_regs.h")?;
    add_file(alloc, files, name, ".gen.hjson")?;
    let registers = register_names(alloc, block)?;
    add_modules_files(alloc, files, registers.as_slice())?;
    Ok(())
}

/// Adds the files of all types.
fn add_types_files(alloc: Global, files: &mut List<Text>, top: &MergedTop) -> Result<(), Memory>
    ensures { OnOk result (files.new ≡ files.old ++ flat_map type_files top.now.blocks) }
{
    for block in top.blocks.as_slice() {
        add_type_files(alloc, files, block)?;
    }
    Ok(())
}

/// All files of a top.
#[tactic(auto, unfolding(cg_topspec::specs::Clashes::file_names))]
fn file_names(alloc: Global, top: &MergedTop) -> Result<List<Text>, Memory>
    ensures { IfOk result (λ names. names ≡ file_names top.now) }
{
    let name = top_module_name(alloc, top)?;
    let mut files = List::new(alloc);
    add_file(alloc, &mut files, name.as_str(), ".sv")?;
    add_file(alloc, &mut files, name.as_str(), ".h")?;
    add_file(alloc, &mut files, name.as_str(), ".gen.hjson")?;
    add_crossbars_files(alloc, &mut files, top)?;
    add_types_files(alloc, &mut files, top)?;
    add_name(alloc, &mut files, "manifest.txt")?;
    Ok(files)
}

/// The names of ports that are connected.
fn connection_names(alloc: Global, conns: &[Conn]) -> Result<List<Text>, Memory>
    ensures { IfOk result (λ names. names ≡ connection_names (map connection_of conns.now)) }
{
    let mut names = List::new(alloc);
    for conn in conns {
        add_name(alloc, &mut names, conn.name.as_str())?;
    }
    Ok(names)
}

/// Adds the connected ports of each instance, where these are all nodes of the top.
fn add_port_lists(
    alloc: Global,
    lists: &mut List<NameList>,
    top: &MergedTop,
    nodes: &[TopNode],
    ties: &[Tie],
    insts: &[usize],
) -> Result<(), Memory>
    requires { map node_id_of nodes.now ≡ all_nodes top.now }
    ensures { OnOk result (map names_of lists.new ≡ map names_of lists.old
        ++ map (λ i. connection_names (instance_connections top.now ties.now i)) insts.now) }
{
    for inst in insts {
        let conns = instance_connections(alloc, top, nodes, ties, *inst)?;
        let names = connection_names(alloc, conns.as_slice())?;
        lists.push(NameList { names })?;
    }
    Ok(())
}

/// The lists of names of a top whose module is this one, where these are all nodes of the top.
pub fn name_lists(
    alloc: Global,
    top: &MergedTop,
    nodes: &[TopNode],
    ties: &[Tie],
    insts: &[usize],
    module: &Module,
) -> Result<List<NameList>, Memory>
    requires { map node_id_of nodes.now ≡ all_nodes top.now }
    ensures { IfOk result (λ lists. map names_of lists ≡ known_modules top.now ∷ file_names top.now
        ∷ (map (λ i. connection_names (instance_connections top.now ties.now i)) insts.now ++ (module_names (module_of «module».now) ∷ []))) }
{
    let mut lists = List::new(alloc);
    let names = known_modules(alloc, top)?;
    lists.push(NameList { names })?;
    let names = file_names(alloc, top)?;
    lists.push(NameList { names })?;
    add_port_lists(alloc, &mut lists, top, nodes, ties, insts)?;
    let names = declared_names(alloc, module)?;
    lists.push(NameList { names })?;
    Ok(lists)
}

/// The first of the names that repeats an earlier one.
fn first_repeated(alloc: Global, list: &NameList) -> Result<Option<Text>, Memory>
    ensures { IfOk result (λ found. found ≡ first_repeat list.now.names) }
{
    let mut names = Vec::new(alloc);
    for name in list.names.as_slice() {
        names.push(name.as_str())?;
    }
    match first_repeat(alloc, names.as_slice())? {
        None => Ok(None),
        Some(name) => {
            let name = Text::of(alloc, name)?;
            Ok(Some(name))
        }
    }
}

/// Tells whether no list has a name twice, and else the first name that repeats an earlier one, in the first list that has one.
pub fn lists_differ(alloc: Global, lists: &[NameList]) -> Result<(), SvRegFault>
    ensures { Answers result (first_clash (map names_of lists.now)) }
{
    for list in lists {
        if let Some(name) = first_repeated(alloc, list)? {
            return Err(SvRegFault::Clash { name });
        }
    }
    Ok(())
}
