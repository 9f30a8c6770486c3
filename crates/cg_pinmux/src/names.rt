//! What a signal's text names among the ports of a block.

ghost use Rattle.std.specs.Prelude.{◌≡◌, ◌<◌, ◌==◌, ◌++◌, ℕ, [], IfSome, None, Some, length, position};
ghost use Rattle.std.specs.Str.{bytes_eq};
ghost use Rattle.cg_desc.specs.Valid.{AreValidPins};
ghost use Rattle.cg_pinmux.specs.Brackets.{bit_number, one_digit, two_digits};
ghost use Rattle.cg_pinmux.specs.Regions.{IsPart, bit_text};

use crate::region::Region;
use cg_desc::IoDesc;

/// The most bits that a port has.
const MOST_BITS: u32 = 64;

/// The number in brackets, of one digit.
#[tactic(auto, unfolding(crate::specs::Brackets::one_digit))]
fn one_digit(first: u8, one: u8, close: u8) -> Option<u32>
    ensures { result ≡ one_digit first one close }
{
    if first == b'[' && one >= b'0' && one <= b'9' && close == b']' {
        Some((one - b'0') as u32)
    } else {
        None
    }
}

/// The number in brackets, of two digits, of which the first is no zero.
#[tactic(auto, unfolding(crate::specs::Brackets::two_digits))]
fn two_digits(first: u8, ten: u8, one: u8, close: u8) -> Option<u32>
    ensures { result ≡ two_digits first ten one close }
{
    if first == b'[' && ten > b'0' && ten <= b'9' && one >= b'0' && one <= b'9' && close == b']' {
        Some((ten - b'0') as u32 * 10 + (one - b'0') as u32)
    } else {
        None
    }
}

/// The number that is written in brackets, of at most two digits and without leading zeros.
fn bit_number(text: &[u8]) -> Option<u32>
    ensures { result ≡ bit_number text.now }
{
    match text {
        [first, one, close] => one_digit(*first, *one, *close),
        [first, ten, one, close] => two_digits(*first, *ten, *one, *close),
        _ => None,
    }
}

/// The number of the first port of this name.
fn port_named(ports: &[IoDesc], name: &[u8]) -> Option<usize>
    ensures place { result ≡ position (λ port. bytes_eq port.name name.now) ports.now }
    ensures within { IfSome result (λ place. place < length ports.now) }
{
    ports
        .iter()
        .position(|port| port.name.as_str().as_bytes() == name)
}

/// Where an opening bracket first stands.
fn bracket_in(text: &[u8]) -> Option<usize>
    ensures place { result ≡ position (λ c. c == 91) text.now }
    ensures within { IfSome result (λ place. place < length text.now) }
{
    text.iter().position(|c| *c == b'[')
}

/// All bits of all ports.
fn all_ports(inst: u32, ports: &[IoDesc]) -> Option<Region>
    requires { AreValidPins ports.now }
    ensures { IsPart ports.now inst [] result }
{
    if ports.is_empty() {
        return None;
    }
    Some(Region {
        inst,
        first: 0,
        end: ports.len() as u32,
        low: 0,
        high: MOST_BITS,
    })
}

/// All bits of the first port of this name.
fn port_in(inst: u32, ports: &[IoDesc], name: &[u8]) -> Option<Region>
    requires valid { AreValidPins ports.now }
    requires some { 0 < length name.now }
    requires plain { position (λ c. c == 91) name.now ≡ None }
    ensures { IsPart ports.now inst name.now result }
{
    match port_named(ports, name) {
        Some(port) => Some(Region {
            inst,
            first: port as u32,
            end: port as u32 + 1,
            low: 0,
            high: MOST_BITS,
        }),
        None => None,
    }
}

/// One bit of the first port of this name, if the port has it.
fn bit_in(inst: u32, ports: &[IoDesc], name: &[u8], bit: u32) -> Option<Region>
    requires valid { AreValidPins ports.now }
    requires plain { position (λ c. c == 91) name.now ≡ None }
    requires few { bit < 100 }
    ensures { IsPart ports.now inst (name.now ++ bit_text bit) result }
{
    let Some(port) = port_named(ports, name) else {
        return None;
    };
    if bit >= ports[port].width {
        return None;
    }
    Some(Region {
        inst,
        first: port as u32,
        end: port as u32 + 1,
        low: bit,
        high: bit + 1,
    })
}

/// What a text with a bracket at a place names.
fn numbered_in(inst: u32, ports: &[IoDesc], text: &[u8], bracket: usize) -> Option<Region>
    requires valid { AreValidPins ports.now }
    requires place { position (λ c. c == 91) text.now ≡ Some bracket }
    requires within { bracket < length text.now }
    ensures { IsPart ports.now inst text.now result }
{
    match bit_number(&text[bracket..]) {
        Some(bit) => bit_in(inst, ports, &text[..bracket], bit),
        None => None,
    }
}

/// What a signal's text names among the ports of its instance's block: nothing names all ports, `p` all bits of the first port of that
/// name, and `p[k]` one bit of it.
pub(crate) fn region_in(inst: u32, ports: &[IoDesc], text: &str) -> Option<Region>
    requires { AreValidPins ports.now }
    ensures { IsPart ports.now inst text.now result }
{
    let text = text.as_bytes();
    if text.is_empty() {
        return all_ports(inst, ports);
    }
    match bracket_in(text) {
        Some(bracket) => numbered_in(inst, ports, text, bracket),
        None => port_in(inst, ports, text),
    }
}
