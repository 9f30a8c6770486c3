//! One bus interface.

ghost use Rattle.std.specs.Prelude.{◌≡◌, option_map};
ghost use Rattle.cg_blkread.specs.Interfaces.{has_text, interface_name, is_device, is_host};

use cg_hjson::Tree;
use cg_keys::{members, text_at};

fn has_text(tree: &Tree, key: &str, word: &str) -> bool
    ensures { result ≡ has_text key.now word.now tree.now }
{
    match text_at(members(tree), key) {
        Some(text) => word == text,
        None => false,
    }
}

/// Whether an interface is a device's.
pub(crate) fn is_device(tree: &Tree) -> bool
    ensures { result ≡ is_device tree.now }
{
    has_text(tree, "direction", "device")
}

/// Whether an interface is a host's.
pub(crate) fn is_host(tree: &Tree) -> bool
    ensures { result ≡ is_host tree.now }
{
    has_text(tree, "direction", "host")
}

/// The name of an interface, which it need not have.
pub(crate) fn interface_name(tree: &Tree) -> Option<&str>
    ensures { option_map (λ name. name.now) result ≡ interface_name tree.now }
{
    text_at(members(tree), "name")
}
