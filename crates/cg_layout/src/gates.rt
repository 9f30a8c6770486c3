//! Which registers gate others.

ghost use Rattle.std.specs.Prelude.{◌≡◌, [], ◌∷◌, option_map};
ghost use Rattle.std.specs.List.{flat_map};
ghost use Rattle.cg_desc.specs.AccessTable.{is_readable};
ghost use Rattle.cg_finding.specs.Finding.{first_of};
ghost use Rattle.cg_finding.specs.Found.{sees};
ghost use Rattle.cg_layout.specs.Inner.Gates.{faults_of_gate, faults_of_regwen, gate_faults};
ghost use Rattle.cg_desc.specs.Gates.{is_gate, is_gate_field, register_among};

use cg_base::Text;
use cg_desc::{FieldDesc, Item, RegDesc, SwAccess};
use cg_finding::{Found, Rule, first_in_all};

/// Whether software reads a field of this kind.
fn is_readable(kind: SwAccess) -> bool
    ensures { result ≡ is_readable kind }
{
    match kind {
        SwAccess::Ro | SwAccess::Rc | SwAccess::Rw => true,
        SwAccess::Rw1s | SwAccess::Rw1c | SwAccess::Rw0c => true,
        SwAccess::R0w1c | SwAccess::Wo | SwAccess::Nothing => false,
    }
}

/// Whether a stored register with this field alone is a gate.
fn is_gate_field(field: &FieldDesc) -> bool
    ensures { result ≡ is_gate_field field.now }
{
    field.msb == field.lsb && is_readable(field.sw) && !field.mubi
}

/// Whether the register can be a gate: it stores one field of one bit, which software reads and which is no
/// multi-bit boolean.
fn is_gate(register: &RegDesc) -> bool
    ensures { result ≡ is_gate register.now }
{
    match register.fields.as_slice() {
        [field] => !register.hwext && is_gate_field(field),
        _ => false,
    }
}

/// The item's register, if it is one and has the name, without regard to case.
fn named<'r>(item: &'r Item, name: &str) -> Option<&'r RegDesc>
    ensures { option_map (λ r. r.now) result ≡ register_among (item.now ∷ []) name.now }
{
    match item {
        Item::Reg(register) if register.name.as_str().eq_ignore_ascii_case(name) => Some(register),
        _ => None,
    }
}

/// The first register among the items that has the name, without regard to case.
fn register_among<'r>(items: &'r [Item], name: &str) -> Option<&'r RegDesc>
    ensures { option_map (λ r. r.now) result ≡ register_among items.now name.now }
{
    for item in items {
        if let Some(register) = named(item, name) {
            return Some(register);
        }
    }
    None
}

/// The rules on the gate that a register names, among the items of its interface.
#[derive(Drop)]
struct GateRule<'r> {
    items: &'r [Item],
}

impl<'r> GateRule<'r> {
    /// What breaks the rules at a register whose gate has this name.
    #[tactic(auto, using(cg_finding::proofs::Firsts::firsts), unfolding(crate::specs::Inner::Gates::faults_of_gate))]
    fn first_of_gate(&self, register: &'r RegDesc, name: &'r str) -> Option<Found<'r>>
        ensures { sees result ≡ first_of (faults_of_gate register.now name.now (register_among self.now.items.now name.now)) }
    {
        match register_among(self.items, name) {
            None => Some(Found::unknown_gate(register.regwen_at, name)),
            Some(gate) => {
                if is_gate(gate) {
                    None
                } else {
                    Some(Found::bad_gate(register.regwen_at, name))
                }
            }
        }
    }
}

impl<'r> Rule<'r, Item> for GateRule<'r> {
    ghost faults = { λ rule item. gate_faults rule.items.now item };

    #[tactic(auto, using(cg_finding::proofs::Firsts::firsts), unfolding(crate::specs::Inner::Gates::gate_faults, crate::specs::Inner::Gates::faults_of_regwen))]
    fn first(&self, item: &'r Item) -> Option<Found<'r>> {
        match item {
            Item::Reg(register) => match &register.regwen {
                Some(name) => self.first_of_gate(register, name.as_str()),
                None => None,
            },
            _ => None,
        }
    }
}

/// The first register of the items whose gate is absent or no gate.
pub fn first_in_gates<'r>(items: &'r [Item]) -> Option<Found<'r>>
    ensures { sees result ≡ first_of (flat_map (gate_faults items.now) items.now) }
{
    first_in_all(&GateRule { items }, items)
}
