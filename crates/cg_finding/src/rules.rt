//! A constructor for each rule: what breaks it, with its phase and its number.
//!
//! Each takes the place, and the name with which the fault's line ends, as far as they vary. A file is judged phase by phase.

ghost use Rattle.std.specs.Prelude.{◌≡◌};
ghost use Rattle.cg_finding.specs.Finding.{finding};
ghost use Rattle.cg_finding.specs.Found.{seen};
ghost use Rattle.cg_finding.specs.Rules as rules;

use crate::Found;
use cg_desc::At;

/// The first character of a file.
const FILE_START: At = At {
    byte: 0,
    line: 1,
    column: 1,
};

impl<'a> Found<'a> {
    /// A rule of a phase that is broken at a place.
    fn of(phase: u8, rule: u8, at: At, name: &'a str) -> Found<'a>
        ensures { seen result ≡ finding phase rule at name.now }
    {
        Found {
            phase,
            rule,
            at,
            name,
        }
    }

    // Phase 0: the file

    /// Rule 10: there is no such file.
    pub fn file_absent() -> Found<'a>
        ensures { seen result ≡ rules.file_absent }
    {
        Found::of(0, 10, FILE_START, "")
    }

    /// Rule 11: the file, or the files up to it together, are too large.
    pub fn file_too_large() -> Found<'a>
        ensures { seen result ≡ rules.file_too_large }
    {
        Found::of(0, 11, FILE_START, "")
    }

    /// Rule 12: the file is not UTF-8; at the first byte that is wrong.
    pub fn not_utf8(at: At) -> Found<'a>
        ensures { seen result ≡ rules.not_utf8 at }
    {
        Found::of(0, 12, at, "")
    }

    // Phase 1: the document

    /// Rule 15: the text is no document.
    pub fn not_a_document(at: At) -> Found<'a>
        ensures { seen result ≡ rules.not_a_document at }
    {
        Found::of(1, 15, at, "")
    }

    /// Rule 16: an object or a list stands too deep; at its opener.
    pub fn too_deep(at: At) -> Found<'a>
        ensures { seen result ≡ rules.too_deep at }
    {
        Found::of(1, 16, at, "")
    }

    // Phase 2: keys, kinds and the profile

    /// Rule 20: an object has a key twice; at the later key.
    pub fn duplicate_key(at: At, key: &'a str) -> Found<'a>
        ensures { seen result ≡ rules.duplicate_key at key.now }
    {
        Found::of(2, 20, at, key)
    }

    /// Rule 21: a needed key is absent; at the object's opener.
    pub fn missing_key(at: At, key: &'a str) -> Found<'a>
        ensures { seen result ≡ rules.missing_key at key.now }
    {
        Found::of(2, 21, at, key)
    }

    /// Rule 22: a value of a wrong kind or choice, or a list of a wrong length; at the value.
    pub fn wrong_kind(at: At, key: &'a str) -> Found<'a>
        ensures { seen result ≡ rules.wrong_kind at key.now }
    {
        Found::of(2, 22, at, key)
    }

    /// Rule 24: a value that is to be a number is none, or out of its range; at the value.
    pub fn not_a_number(at: At, key: &'a str) -> Found<'a>
        ensures { seen result ≡ rules.not_a_number at key.now }
    {
        Found::of(2, 24, at, key)
    }

    /// Rule 25: a value that is to be a name is none; at the value.
    pub fn bad_name(at: At, key: &'a str) -> Found<'a>
        ensures { seen result ≡ rules.bad_name at key.now }
    {
        Found::of(2, 25, at, key)
    }

    /// Rule 26: what is asked for is outside the profile; at the value.
    pub fn outside_the_profile(at: At, key: &'a str) -> Found<'a>
        ensures { seen result ≡ rules.outside_the_profile at key.now }
    {
        Found::of(2, 26, at, key)
    }

    // Phase 3: bits, reset values and counts of a block

    /// Rule 30: `bits` is neither a number up to 31 nor two of them; at the value, with the register's name.
    pub fn bad_bits(at: At, register: &'a str) -> Found<'a>
        ensures { seen result ≡ rules.bad_bits at register.now }
    {
        Found::of(3, 30, at, register)
    }

    /// Rule 31: a field shares a bit with an earlier one; at its `bits`, with its name.
    pub fn fields_overlap(at: At, field: &'a str) -> Found<'a>
        ensures { seen result ≡ rules.fields_overlap at field.now }
    {
        Found::of(3, 31, at, field)
    }

    /// Rule 32: a reset value does not fit; at the value, with the register's name.
    pub fn reset_too_wide(at: At, register: &'a str) -> Found<'a>
        ensures { seen result ≡ rules.reset_too_wide at register.now }
    {
        Found::of(3, 32, at, register)
    }

    /// Rule 33: a register has no field; at its `fields`, with its name.
    pub fn no_fields(at: At, register: &'a str) -> Found<'a>
        ensures { seen result ≡ rules.no_fields at register.now }
    {
        Found::of(3, 33, at, register)
    }

    /// Rule 37: the number of copies is none or out of its range; at `count`, with the register's name.
    pub fn bad_count(at: At, register: &'a str) -> Found<'a>
        ensures { seen result ≡ rules.bad_count at register.now }
    {
        Found::of(3, 37, at, register)
    }

    /// Rule 40: the number of a window's words is none or out of its range; at `items`, with the window's name.
    pub fn bad_window(at: At, window: &'a str) -> Found<'a>
        ensures { seen result ≡ rules.bad_window at window.now }
    {
        Found::of(3, 40, at, window)
    }

    // Phase 4: the items of a block

    /// Rule 34: a register, a window or a field has the name of an earlier one.
    pub fn name_twice(at: At, name: &'a str) -> Found<'a>
        ensures { seen result ≡ rules.name_twice at name.now }
    {
        Found::of(4, 34, at, name)
    }

    /// Rule 38: a block has too many registers and windows, or fields; at its `registers`.
    pub fn too_many(at: At) -> Found<'a>
        ensures { seen result ≡ rules.too_many at }
    {
        Found::of(4, 38, at, "")
    }

    /// Rule 42: interrupts have too many bits, or there are too many alerts; at their list.
    pub fn too_many_interrupt_bits(at: At) -> Found<'a>
        ensures { seen result ≡ rules.too_many_interrupt_bits at }
    {
        Found::of(4, 42, at, "")
    }

    // Phase 5: offsets and gates of a block

    /// Rule 33: an interface has no register and no window; at its list, with its name.
    pub fn no_items(at: At, face: &'a str) -> Found<'a>
        ensures { seen result ≡ rules.no_items at face.now }
    {
        Found::of(5, 33, at, face)
    }

    /// Rule 35: `regwen` names no register of the interface; at the value, with the name that is looked for.
    pub fn unknown_gate(at: At, gate: &'a str) -> Found<'a>
        ensures { seen result ≡ rules.unknown_gate at gate.now }
    {
        Found::of(5, 35, at, gate)
    }

    /// Rule 36: the register that `regwen` names cannot be a gate; at the value, with the name that is looked for.
    pub fn bad_gate(at: At, gate: &'a str) -> Found<'a>
        ensures { seen result ≡ rules.bad_gate at gate.now }
    {
        Found::of(5, 36, at, gate)
    }

    /// Rule 39: `skipto` is no multiple of 4, or below the next offset; at the value.
    pub fn skip_back(at: At) -> Found<'a>
        ensures { seen result ≡ rules.skip_back at }
    {
        Found::of(5, 39, at, "")
    }

    /// Rule 41: an item is the first of its interface that ends above the limit.
    pub fn past_the_end(at: At, item: &'a str) -> Found<'a>
        ensures { seen result ≡ rules.past_the_end at item.now }
    {
        Found::of(5, 41, at, item)
    }

    // Phase 6: the nodes and connections of a crossbar

    /// Rule 50: a node has an earlier node's name, or a connection names a device twice; at the later one.
    pub fn node_twice(at: At, node: &'a str) -> Found<'a>
        ensures { seen result ≡ rules.node_twice at node.now }
    {
        Found::of(6, 50, at, node)
    }

    /// Rule 51: a connection's key is no host, or its element is no device.
    pub fn unknown_node(at: At, text: &'a str) -> Found<'a>
        ensures { seen result ≡ rules.unknown_node at text.now }
    {
        Found::of(6, 51, at, text)
    }

    /// Rule 52: a host has no connection, or one to no device; at its name.
    pub fn host_without_device(at: At, node: &'a str) -> Found<'a>
        ensures { seen result ≡ rules.host_without_device at node.now }
    {
        Found::of(6, 52, at, node)
    }

    /// Rule 53: no host connects to a device; at its name.
    pub fn device_without_host(at: At, node: &'a str) -> Found<'a>
        ensures { seen result ≡ rules.device_without_host at node.now }
    {
        Found::of(6, 53, at, node)
    }

    // Phase 7: the nodes, instances and spaces of a top

    /// Rule 50: two nodes of a top have one spelling, or name one interface; at the later one's name.
    pub fn node_twice_in_top(at: At, node: &'a str) -> Found<'a>
        ensures { seen result ≡ rules.node_twice_in_top at node.now }
    {
        Found::of(7, 50, at, node)
    }

    /// Rule 51: a node of a top names no interface, is not outside, and has no partner; at its name.
    pub fn unknown_node_in_top(at: At, node: &'a str) -> Found<'a>
        ensures { seen result ≡ rules.unknown_node_in_top at node.now }
    {
        Found::of(7, 51, at, node)
    }

    /// Rule 57: an address space stands twice or is not listed, or a nested crossbar is in another space.
    pub fn bad_space(at: At, name: &'a str) -> Found<'a>
        ensures { seen result ≡ rules.bad_space at name.now }
    {
        Found::of(7, 57, at, name)
    }

    /// Rule 60: an instance or a crossbar has the name of an earlier one; at its name.
    pub fn instance_twice(at: At, name: &'a str) -> Found<'a>
        ensures { seen result ≡ rules.instance_twice at name.now }
    {
        Found::of(7, 60, at, name)
    }

    /// Rule 62: a device interface of an instance has no base; at the instance's name.
    pub fn base_missing(at: At, name: &'a str) -> Found<'a>
        ensures { seen result ≡ rules.base_missing at name.now }
    {
        Found::of(7, 62, at, name)
    }

    // Phase 8: the ranges of crossbars

    /// Rule 54: a device has no range, or one of a wrong shape; at its name.
    pub fn bad_range(at: At, node: &'a str) -> Found<'a>
        ensures { seen result ≡ rules.bad_range at node.now }
    {
        Found::of(8, 54, at, node)
    }

    /// Rule 55: a device has a range that shares an address with another; at its name.
    pub fn ranges_overlap(at: At, node: &'a str) -> Found<'a>
        ensures { seen result ≡ rules.ranges_overlap at node.now }
    {
        Found::of(8, 55, at, node)
    }

    /// Rule 56: a nested crossbar leads back to its own; at the node's name.
    pub fn crossbars_in_a_circle(at: At, node: &'a str) -> Found<'a>
        ensures { seen result ≡ rules.crossbars_in_a_circle at node.now }
    {
        Found::of(8, 56, at, node)
    }

    // Phases 9 to 12: numbers, ties, pins and texts

    /// Rule 66: there are too many interrupts or alerts with this instance; at its name.
    pub fn too_many_sources(at: At, name: &'a str) -> Found<'a>
        ensures { seen result ≡ rules.too_many_sources at name.now }
    {
        Found::of(9, 66, at, name)
    }

    /// Rule 63: a clock port has no source, or an unknown one; at its owner's name, with the port.
    pub fn bad_clock(at: At, port: &'a str) -> Found<'a>
        ensures { seen result ≡ rules.bad_clock at port.now }
    {
        Found::of(10, 63, at, port)
    }

    /// Rule 64: a reset port has no source, or an unknown one; at its instance's name, with the port.
    pub fn bad_reset(at: At, port: &'a str) -> Found<'a>
        ensures { seen result ≡ rules.bad_reset at port.now }
    {
        Found::of(10, 64, at, port)
    }

    /// Rule 65: a signal names nothing that is there, or asks for what it cannot have; at its opener, with its instance.
    pub fn bad_pin(at: At, name: &'a str) -> Found<'a>
        ensures { seen result ≡ rules.bad_pin at name.now }
    {
        Found::of(11, 65, at, name)
    }

    /// Rule 70: a list of generated names has a repeat; at the opener of the file's object, with the first repeat.
    pub fn names_clash(at: At, name: &'a str) -> Found<'a>
        ensures { seen result ≡ rules.names_clash at name.now }
    {
        Found::of(12, 70, at, name)
    }
}
