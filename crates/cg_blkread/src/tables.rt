//! The keys of a block's objects, with the forms of their values.

ghost use Rattle.std.specs.Prelude.{◌≡◌, map};
ghost use Rattle.cg_keys.specs.Table.{key_of};
ghost use Rattle.cg_blkread.specs.Tables.{alert_keys, block_keys, clocking_keys, copy_keys, field_keys, interface_keys, interrupt_keys, parameter_keys, pin_keys, register_keys, window_keys};

use cg_keys::{Form, Row, Words};

/// The largest number of 32 bits.
const WORD: u64 = 0xffff_ffff;

const BLOCK: [Row; 13] = [
    Row {
        key: "name",
        forms: &[Form::Name],
        needed: true,
    },
    Row {
        key: "clocking",
        forms: &[Form::Items],
        needed: true,
    },
    Row {
        key: "bus_interfaces",
        forms: &[Form::Items],
        needed: true,
    },
    Row {
        key: "registers",
        forms: &[Form::Items, Form::Object],
        needed: true,
    },
    Row {
        key: "interrupt_list",
        forms: &[Form::Items],
        needed: false,
    },
    Row {
        key: "alert_list",
        forms: &[Form::Items],
        needed: false,
    },
    Row {
        key: "no_auto_intr_regs",
        forms: &[Form::Boolean],
        needed: false,
    },
    Row {
        key: "no_auto_alert_regs",
        forms: &[Form::Boolean],
        needed: false,
    },
    Row {
        key: "param_list",
        forms: &[Form::Items],
        needed: false,
    },
    Row {
        key: "regwidth",
        forms: &[Form::Number(0, WORD)],
        needed: false,
    },
    Row {
        key: "available_input_list",
        forms: &[Form::Items],
        needed: false,
    },
    Row {
        key: "available_output_list",
        forms: &[Form::Items],
        needed: false,
    },
    Row {
        key: "available_inout_list",
        forms: &[Form::Items],
        needed: false,
    },
];

const CLOCKING: [Row; 2] = [
    Row {
        key: "clock",
        forms: &[Form::Name],
        needed: true,
    },
    Row {
        key: "reset",
        forms: &[Form::Name],
        needed: false,
    },
];

const INTERFACE: [Row; 3] = [
    Row {
        key: "protocol",
        forms: &[Form::Text],
        needed: true,
    },
    Row {
        key: "direction",
        forms: &[Form::Word(Words::Direction)],
        needed: true,
    },
    Row {
        key: "name",
        forms: &[Form::Name],
        needed: false,
    },
];

const INTERRUPT: [Row; 3] = [
    Row {
        key: "name",
        forms: &[Form::Name],
        needed: true,
    },
    Row {
        key: "type",
        forms: &[Form::Word(Words::InterruptType)],
        needed: false,
    },
    Row {
        key: "width",
        forms: &[Form::Number(1, 32)],
        needed: false,
    },
];

const ALERT: [Row; 1] = [Row {
    key: "name",
    forms: &[Form::Name],
    needed: true,
}];

const PARAMETER: [Row; 2] = [
    Row {
        key: "name",
        forms: &[Form::ParameterName],
        needed: true,
    },
    Row {
        key: "default",
        forms: &[Form::Number(0, WORD), Form::Text],
        needed: false,
    },
];

const PIN: [Row; 2] = [
    Row {
        key: "name",
        forms: &[Form::Name],
        needed: true,
    },
    Row {
        key: "width",
        forms: &[Form::Number(1, 64)],
        needed: false,
    },
];

const REGISTER: [Row; 10] = [
    Row {
        key: "name",
        forms: &[Form::Name],
        needed: true,
    },
    Row {
        key: "swaccess",
        forms: &[Form::Word(Words::Software)],
        needed: false,
    },
    Row {
        key: "hwaccess",
        forms: &[Form::Word(Words::Hardware)],
        needed: false,
    },
    Row {
        key: "hwext",
        forms: &[Form::Boolean],
        needed: false,
    },
    Row {
        key: "hwqe",
        forms: &[Form::Boolean],
        needed: false,
    },
    Row {
        key: "hwre",
        forms: &[Form::Boolean],
        needed: false,
    },
    Row {
        key: "shadowed",
        forms: &[Form::Boolean],
        needed: false,
    },
    Row {
        key: "regwen",
        forms: &[Form::Text],
        needed: false,
    },
    Row {
        key: "resval",
        forms: &[Form::Number(0, WORD), Form::Boolean],
        needed: false,
    },
    Row {
        key: "fields",
        forms: &[Form::Items],
        needed: true,
    },
];

const COPY: [Row; 4] = [
    Row {
        key: "count",
        forms: &[Form::Number(0, WORD), Form::ParameterName],
        needed: true,
    },
    Row {
        key: "cname",
        forms: &[Form::Text],
        needed: false,
    },
    Row {
        key: "regwen_multi",
        forms: &[Form::Boolean],
        needed: false,
    },
    Row {
        key: "compact",
        forms: &[Form::Boolean],
        needed: false,
    },
];

const WINDOW: [Row; 4] = [
    Row {
        key: "name",
        forms: &[Form::Name],
        needed: true,
    },
    Row {
        key: "items",
        forms: &[Form::Number(0, WORD), Form::ParameterName],
        needed: true,
    },
    Row {
        key: "byte-write",
        forms: &[Form::Boolean],
        needed: false,
    },
    Row {
        key: "swaccess",
        forms: &[Form::Word(Words::WindowAccess)],
        needed: false,
    },
];

const FIELD: [Row; 6] = [
    Row {
        key: "bits",
        forms: &[Form::Text, Form::Number(0, WORD)],
        needed: true,
    },
    Row {
        key: "name",
        forms: &[Form::Name],
        needed: false,
    },
    Row {
        key: "swaccess",
        forms: &[Form::Word(Words::Software)],
        needed: false,
    },
    Row {
        key: "hwaccess",
        forms: &[Form::Word(Words::Hardware)],
        needed: false,
    },
    Row {
        key: "resval",
        forms: &[
            Form::Number(0, WORD),
            Form::Boolean,
            Form::Word(Words::Unknown),
        ],
        needed: false,
    },
    Row {
        key: "mubi",
        forms: &[Form::Boolean],
        needed: false,
    },
];

/// The keys of a block.
pub(crate) fn block_rows() -> &'static [Row]
    ensures { map key_of result.now ≡ block_keys }
{
    &BLOCK
}

/// The keys of a clock.
pub(crate) fn clocking_rows() -> &'static [Row]
    ensures { map key_of result.now ≡ clocking_keys }
{
    &CLOCKING
}

/// The keys of a bus interface.
pub(crate) fn interface_rows() -> &'static [Row]
    ensures { map key_of result.now ≡ interface_keys }
{
    &INTERFACE
}

/// The keys of an interrupt.
pub(crate) fn interrupt_rows() -> &'static [Row]
    ensures { map key_of result.now ≡ interrupt_keys }
{
    &INTERRUPT
}

/// The keys of an alert.
pub(crate) fn alert_rows() -> &'static [Row]
    ensures { map key_of result.now ≡ alert_keys }
{
    &ALERT
}

/// The keys of a parameter.
pub(crate) fn parameter_rows() -> &'static [Row]
    ensures { map key_of result.now ≡ parameter_keys }
{
    &PARAMETER
}

/// The keys of a pin.
pub(crate) fn pin_rows() -> &'static [Row]
    ensures { map key_of result.now ≡ pin_keys }
{
    &PIN
}

/// The keys of a register.
pub(crate) fn register_rows() -> &'static [Row]
    ensures { map key_of result.now ≡ register_keys }
{
    &REGISTER
}

/// The keys of a multireg beside those of a register.
pub(crate) fn copy_rows() -> &'static [Row]
    ensures { map key_of result.now ≡ copy_keys }
{
    &COPY
}

/// The keys of a window.
pub(crate) fn window_rows() -> &'static [Row]
    ensures { map key_of result.now ≡ window_keys }
{
    &WINDOW
}

/// The keys of a field.
pub(crate) fn field_rows() -> &'static [Row]
    ensures { map key_of result.now ≡ field_keys }
{
    &FIELD
}
