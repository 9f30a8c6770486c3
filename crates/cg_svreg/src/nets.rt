//! The names of a register module's nets, and the nets as expressions.

ghost use Rattle.std.specs.Prelude.{◌≡◌, ◌++◌, IfOk};
ghost use Rattle.std.specs.Fmt.{decimal};
ghost use Rattle.cg_svspec.specs.Tree.{net};
ghost use Rattle.cg_regspec.specs.RegisterModule.{slice, written_bits};
ghost use Rattle.cg_sv.specs.Views.{expression_of};
ghost use Rattle.cg_regspec.specs.NetNames.{base, next_phase_net, flop_instance, staged_instance, update_error_net, window_base};

use cg_base::{Memory, Text};
use cg_desc::{FieldDesc, RegDesc, WindowDesc};
use cg_sv::{Expr, make};
use std::alloc::Global;

/// The name of a row's net, as `hit_12`.
pub fn row_net(alloc: Global, stem: &str, number: usize) -> Result<Text, Memory>
    ensures { IfOk result (λ name. name ≡ stem.now ++ decimal number) }
{
    let name = format!(in alloc; "{stem}{number}")?;
    Ok(Text::from_string(name))
}

/// The name of a field's net, as `ctrl_enable_q`: register and field in lower case, and what the net is for.
#[tactic(auto, unfolding(cg_regspec::specs::NetNames::base))]
pub fn field_net(
    alloc: Global,
    register: &RegDesc,
    field: &FieldDesc,
    suffix: &str,
) -> Result<Text, Memory>
    ensures { IfOk result (λ name. name ≡ base register.now field.now ++ suffix.now) }
{
    let register = register.name.as_str().to_ascii_lowercase(alloc)?;
    let field = field.name.as_str().to_ascii_lowercase(alloc)?;
    let name = format!(in alloc; "{register}_{field}{suffix}")?;
    Ok(Text::from_string(name))
}

/// The name of the flip-flop that stores a field.
pub fn flop_instance(alloc: Global, register: &RegDesc, field: &FieldDesc) -> Result<Text, Memory>
    ensures { IfOk result (λ name. name ≡ flop_instance register.now field.now) }
{
    let net = field_net(alloc, register, field, "")?;
    let name = format!(in alloc; "u_{net}")?;
    Ok(Text::from_string(name))
}

/// The name of the flip-flop that stores a field's staged value.
pub fn staged_instance(alloc: Global, register: &RegDesc, field: &FieldDesc) -> Result<Text, Memory>
    ensures { IfOk result (λ name. name ≡ staged_instance register.now field.now) }
{
    let net = field_net(alloc, register, field, "_t")?;
    let name = format!(in alloc; "u_{net}")?;
    Ok(Text::from_string(name))
}

/// The name of a row's next phase, as `ph_12_n`.
pub fn next_phase_net(alloc: Global, number: usize) -> Result<Text, Memory>
    ensures { IfOk result (λ name. name ≡ next_phase_net number) }
{
    let name = format!(in alloc; "ph_{number}_n")?;
    Ok(Text::from_string(name))
}

/// The name of a shadowed register's port, as `upd_ctrl_err`.
#[tactic(auto, unfolding(cg_regspec::specs::NetNames::update_error_net))]
pub fn update_error_net(alloc: Global, register: &RegDesc) -> Result<Text, Memory>
    ensures { IfOk result (λ name. name ≡ update_error_net register.now) }
{
    let register = register.name.as_str().to_ascii_lowercase(alloc)?;
    let name = format!(in alloc; "upd_{register}_err")?;
    Ok(Text::from_string(name))
}

/// The name of a window's port, as `win_buffer_we`.
#[tactic(auto, unfolding(cg_regspec::specs::NetNames::window_base))]
pub fn window_net(alloc: Global, window: &WindowDesc, suffix: &str) -> Result<Text, Memory>
    ensures { IfOk result (λ name. name ≡ window_base window.now ++ suffix.now) }
{
    let window = window.name.as_str().to_ascii_lowercase(alloc)?;
    let name = format!(in alloc; "win_{window}{suffix}")?;
    Ok(Text::from_string(name))
}

/// A row's net.
pub fn row(alloc: Global, stem: &str, number: usize) -> Result<Expr, Memory>
    ensures { IfOk result (λ x. expression_of x ≡ net (stem.now ++ decimal number)) }
{
    let name = row_net(alloc, stem, number)?;
    let net = make::net(alloc, name.as_str())?;
    Ok(net)
}

/// A field's net.
pub fn field(
    alloc: Global,
    register: &RegDesc,
    field: &FieldDesc,
    suffix: &str,
) -> Result<Expr, Memory>
    ensures { IfOk result (λ x. expression_of x ≡ net (base register.now field.now ++ suffix.now)) }
{
    let name = field_net(alloc, register, field, suffix)?;
    let net = make::net(alloc, name.as_str())?;
    Ok(net)
}

/// The bits `msb` down to `lsb` of a net of this width: the bare name where all its bits are meant.
pub fn slice(alloc: Global, name: &str, width: u32, msb: u8, lsb: u8) -> Result<Expr, Memory>
    ensures { IfOk result (λ x. expression_of x ≡ slice name.now width msb lsb) }
{
    let (msb, lsb) = (u32::from(msb), u32::from(lsb));
    if lsb == 0 && msb + 1 == width {
        let net = make::net(alloc, name)?;
        return Ok(net);
    }
    let cut = make::cut(alloc, name, msb, lsb)?;
    Ok(cut)
}

/// The field's bits of the write data.
pub fn written_bits(alloc: Global, field: &FieldDesc) -> Result<Expr, Memory>
    ensures { IfOk result (λ x. expression_of x ≡ written_bits field.now) }
{
    let bits = slice(alloc, "reg_wdata", 32, field.msb, field.lsb)?;
    Ok(bits)
}
