//! Which ports a field has, and what its kinds have to do with them.

ghost use Rattle.std.specs.Prelude.{◌≡◌};
ghost use Rattle.cg_regspec.specs.RegisterModule.{width_of, is_in_word, takes_data, hardware_gets, hardware_sets, has_q, has_qe, has_re, has_d, has_de, has_shadow};

use cg_desc::{FieldDesc, HwAccess, RegDesc, SwAccess};

/// How many bits the field has.
pub fn width_of(field: &FieldDesc) -> u32
    ensures { result ≡ width_of field.now }
{
    (u32::from(field.msb) + 1).saturating_sub(u32::from(field.lsb))
}

/// Whether a register's word has the bits of a field of this kind.
pub fn is_in_word(kind: SwAccess) -> bool
    ensures { result ≡ is_in_word kind }
{
    match kind {
        SwAccess::Ro | SwAccess::Rc | SwAccess::Rw => true,
        SwAccess::Rw1s | SwAccess::Rw1c | SwAccess::Rw0c => true,
        SwAccess::R0w1c | SwAccess::Wo | SwAccess::Nothing => false,
    }
}

/// Whether a field of this kind takes bits of the write data.
fn takes_data(kind: SwAccess) -> bool
    ensures { result ≡ takes_data kind }
{
    match kind {
        SwAccess::Rw | SwAccess::R0w1c | SwAccess::Rw1s => true,
        SwAccess::Rw1c | SwAccess::Rw0c | SwAccess::Wo => true,
        SwAccess::Ro | SwAccess::Rc | SwAccess::Nothing => false,
    }
}

/// Whether a stored field of this kind has inputs from hardware.
pub fn hardware_sets(kind: HwAccess) -> bool
    ensures { result ≡ hardware_sets kind }
{
    match kind {
        HwAccess::Hrw | HwAccess::Hwo => true,
        HwAccess::Hro | HwAccess::Nothing => false,
    }
}

/// Whether a stored field of this kind has an output for hardware.
fn hardware_gets(kind: HwAccess) -> bool
    ensures { result ≡ hardware_gets kind }
{
    match kind {
        HwAccess::Hro | HwAccess::Hrw => true,
        HwAccess::Hwo | HwAccess::Nothing => false,
    }
}

/// Whether the field has the output `q`, its value.
pub fn has_q(register: &RegDesc, field: &FieldDesc) -> bool
    ensures { result ≡ has_q register.now field.now }
{
    if register.hwext {
        takes_data(field.sw)
    } else {
        hardware_gets(field.hw)
    }
}

/// Whether the field has the output `qe`, the strobe of a write.
pub fn has_qe(register: &RegDesc, field: &FieldDesc) -> bool
    ensures { result ≡ has_qe register.now field.now }
{
    if register.hwext {
        takes_data(field.sw)
    } else {
        register.hwqe
    }
}

/// Whether the field has the output `re`, the strobe of a read.
pub fn has_re(register: &RegDesc, field: &FieldDesc) -> bool
    ensures { result ≡ has_re register.now field.now }
{
    if register.hwext {
        is_in_word(field.sw)
    } else {
        register.hwre
    }
}

/// Whether the field has the input `d`, hardware's value.
pub fn has_d(register: &RegDesc, field: &FieldDesc) -> bool
    ensures { result ≡ has_d register.now field.now }
{
    if register.hwext {
        is_in_word(field.sw)
    } else {
        hardware_sets(field.hw)
    }
}

/// Whether the field has the input `de`, the strobe of hardware's value.
pub fn has_de(register: &RegDesc, field: &FieldDesc) -> bool
    ensures { result ≡ has_de register.now field.now }
{
    !register.hwext && hardware_sets(field.hw)
}

/// Whether the register has a phase, and its fields staged values.
pub fn has_shadow(register: &RegDesc) -> bool
    ensures { result ≡ has_shadow register.now }
{
    !register.hwext && register.shadowed
}
