//! Whether a module is printable: whether it is a tree of the grammar.

ghost use Rattle.std.specs.Prelude.{◌≡◌, ◌&&◌, map};
ghost use Rattle.std.specs.Bool.{Decides};
ghost use Rattle.std.specs.List.{list_all};
ghost use Rattle.cg_svspec.specs.Tree.{expressions};
ghost use Rattle.cg_svspec.specs.Printable.{IsPrintable};
ghost use Rattle.cg_svspec.specs.Characters.{is_first, is_name_character, is_keyword};
ghost use Rattle.cg_sv.specs.Views.{expression_of, port_of, parameter_of, connection_of, entry_of, module_of};
ghost use Rattle.cg_svcheck.specs.Printing as test;

use cg_sv::{Conn, Entry, Expr, Module, Param, Port};

/// A letter or an underscore, with which a name begins.
fn is_first(byte: u8) -> bool
    ensures { result ≡ is_first byte }
{
    (97 <= byte && byte <= 122) || ((65 <= byte && byte <= 90) || byte == 95)
}

/// What a name goes on with.
fn is_name_character(byte: u8) -> bool
    ensures { result ≡ is_name_character byte }
{
    is_first(byte) || (48 <= byte && byte <= 57)
}

/// Whether the bytes are a letter or an underscore, then letters, digits and underscores.
fn is_word(bytes: &[u8]) -> bool
    ensures { result ≡ test.is_word bytes.now }
{
    match bytes.split_first() {
        None => false,
        Some((first, rest)) => is_first(*first) && are_name_characters(rest),
    }
}

/// Whether a name may go on with these bytes.
fn are_name_characters(bytes: &[u8]) -> bool
    ensures { result ≡ list_all is_name_character bytes.now }
{
    for byte in bytes {
        if !is_name_character(*byte) {
            return false;
        }
    }
    true
}

/// Whether the grammar quotes the word.
fn is_keyword(word: &str) -> bool
    ensures { result ≡ is_keyword word.now }
{
    word == "module"
        || (word == "endmodule"
            || (word == "input" || (word == "output" || (word == "wire" || word == "assign"))))
}

/// Whether the text is a name.
#[tactic(auto, unfolding(crate::specs::Printing::is_name))]
fn is_name(text: &str) -> bool
    ensures { result ≡ test.is_name text.now }
{
    is_word(text.as_bytes()) && !is_keyword(text)
}

/// Whether a literal has 1 to 32 bits and a value below 2^width.
#[tactic(auto, unfolding(crate::specs::Printing::is_literal))]
fn is_literal(width: u32, value: u64) -> bool
    ensures { result ≡ test.is_literal width value }
{
    0 < width && (width <= 32 && value < 1 << width)
}

/// Whether a concatenation has a part.
fn has_part(parts: &[Expr]) -> bool
    ensures { result ≡ test.has_part (expressions (map expression_of parts.now)) }
{
    !parts.is_empty()
}

/// Whether an expression is printable and at most so deep.
#[cycle(expressions)]
#[tactic(auto, using(cg_sv::proofs::Views::views))]
fn is_printable_within(expr: &Expr, depth: u32) -> bool
    ensures { result ≡ test.printable_within depth (expression_of expr.now) }
{
    if depth == 0 {
        return false;
    }
    let left = depth - 1;
    match expr {
        Expr::Net(name) => is_name(name.as_str()),
        Expr::Cut { net, msb, lsb } => is_name(net.as_str()) && (*msb < 65536 && *lsb < 65536),
        Expr::Lit { width, value } => is_literal(*width, *value),
        Expr::Cat(parts) => has_part(parts.as_slice())
            && are_printable_within(parts.as_slice(), left),
        Expr::Not(part) => is_printable_within(part, left),
        Expr::Any(part) => is_printable_within(part, left),
        Expr::And(first, second) => {
            is_printable_within(first, left) && is_printable_within(second, left)
        }
        Expr::Or(first, second) => {
            is_printable_within(first, left) && is_printable_within(second, left)
        }
        Expr::Equal(first, second) => {
            is_printable_within(first, left) && is_printable_within(second, left)
        }
        Expr::Pick(condition, one, zero) => {
            is_printable_within(condition, left)
                && (is_printable_within(one, left) && is_printable_within(zero, left))
        }
    }
}

/// Whether the parts of a concatenation are printable and at most so deep.
#[cycle(expressions)]
fn are_printable_within(parts: &[Expr], depth: u32) -> bool
    ensures { result ≡ test.parts_within depth (expressions (map expression_of parts.now)) }
{
    for part in parts {
        if !is_printable_within(part, depth) {
            return false;
        }
    }
    true
}

/// Whether an expression is one of the grammar.
#[tactic(auto, unfolding(crate::specs::Printing::is_expression))]
fn is_expression(expr: &Expr) -> bool
    ensures { result ≡ test.is_expression (expression_of expr.now) }
{
    is_printable_within(expr, 128)
}

/// Whether a width is from 1 to 2^16.
#[tactic(auto, unfolding(crate::specs::Printing::is_width))]
fn is_width(width: u32) -> bool
    ensures { result ≡ test.is_width width }
{
    0 < width && width <= 65536
}

/// Whether a port is printable.
#[tactic(auto, unfolding(crate::specs::Printing::is_printable_port))]
fn is_printable_port(port: &Port) -> bool
    ensures { result ≡ test.is_printable_port (port_of port.now) }
{
    is_width(port.width) && is_name(port.name.as_str())
}

/// Whether a parameter's value is a literal, or a plain number below 2^16.
#[tactic(auto, using(cg_sv::proofs::Views::views))]
fn is_number_or_literal(value: &Expr) -> bool
    ensures { result ≡ test.is_number_or_literal (expression_of value.now) }
{
    match value {
        Expr::Lit { width, value } => {
            if *width == 0 {
                *value < 65536
            } else {
                is_literal(*width, *value)
            }
        }
        _ => false,
    }
}

/// Whether a parameter is printable.
#[tactic(auto, unfolding(crate::specs::Printing::is_printable_parameter))]
fn is_printable_parameter(parameter: &Param) -> bool
    ensures { result ≡ test.is_printable_parameter (parameter_of parameter.now) }
{
    is_name(parameter.name.as_str()) && is_number_or_literal(&parameter.value)
}

/// Whether a connection is printable.
#[tactic(auto, unfolding(crate::specs::Printing::is_printable_connection))]
fn is_printable_connection(connection: &Conn) -> bool
    ensures { result ≡ test.is_printable_connection (connection_of connection.now) }
{
    is_name(connection.name.as_str()) && is_expression(&connection.value)
}

/// Whether each parameter is printable.
fn are_printable_parameters(parameters: &[Param]) -> bool
    ensures { result ≡ list_all test.is_printable_parameter (map parameter_of parameters.now) }
{
    for parameter in parameters {
        if !is_printable_parameter(parameter) {
            return false;
        }
    }
    true
}

/// Whether each connection is printable, and there is one.
fn are_printable_connections(connections: &[Conn]) -> bool
    ensures { result ≡ (test.is_some_of (map connection_of connections.now) && list_all test.is_printable_connection (map connection_of connections.now)) }
{
    if connections.is_empty() {
        return false;
    }
    for connection in connections {
        if !is_printable_connection(connection) {
            return false;
        }
    }
    true
}

/// Whether an entry is printable.
fn is_printable_entry(entry: &Entry) -> bool
    ensures { result ≡ test.is_printable_entry (entry_of entry.now) }
{
    match entry {
        Entry::Wire {
            width,
            name,
            value: None,
        } => is_width(*width) && is_name(name.as_str()),
        Entry::Wire {
            width,
            name,
            value: Some(value),
        } => is_width(*width) && (is_name(name.as_str()) && is_expression(value)),
        Entry::Assign { name, value } => is_name(name.as_str()) && is_expression(value),
        Entry::Inst {
            module,
            params,
            name,
            conns,
        } => {
            is_name(module.as_str())
                && (are_printable_parameters(params.as_slice())
                    && (is_name(name.as_str()) && are_printable_connections(conns.as_slice())))
        }
    }
}

/// Whether each port is printable, and there is one.
fn are_printable_ports(ports: &[Port]) -> bool
    ensures { result ≡ (test.is_some_of (map port_of ports.now) && list_all test.is_printable_port (map port_of ports.now)) }
{
    if ports.is_empty() {
        return false;
    }
    for port in ports {
        if !is_printable_port(port) {
            return false;
        }
    }
    true
}

/// Whether each entry is printable.
fn are_printable_entries(entries: &[Entry]) -> bool
    ensures { result ≡ list_all test.is_printable_entry (map entry_of entries.now) }
{
    for entry in entries {
        if !is_printable_entry(entry) {
            return false;
        }
    }
    true
}

/// Whether the module passes each test of what is printable.
#[tactic(auto, unfolding(crate::specs::Printing::is_printable))]
fn passes(module: &Module) -> bool
    ensures { result ≡ test.is_printable (module_of «module».now) }
{
    is_name(module.name.as_str())
        && (are_printable_ports(module.ports.as_slice())
            && are_printable_entries(module.entries.as_slice()))
}

/// Whether the module is printable: a tree of the grammar, of expressions at most 128 deep.
///
/// It takes no memory, and goes down no further than 128 levels.
pub fn is_printable(module: &Module) -> bool
    ensures { Decides result (IsPrintable (module_of «module».now)) }
{
    passes(module)
}
