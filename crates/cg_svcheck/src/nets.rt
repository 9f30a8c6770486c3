//! Where the widths of nets are looked up, and which of them are known.

ghost use Rattle.std.specs.Prelude.{◌≡◌, ℕ, Bool, List, Option, map};
ghost use Rattle.cg_sv.specs.Views.{port_of, entry_of, module_of};
ghost use Rattle.cg_svcheck.specs.Widths as wide;

use crate::drivers::{expressions_count, instances_count, is_input};
use crate::widths::width_above;
use cg_sv::{Entry, Module};

/// What is known at an entry of a module.
pub trait Nets {
    /// The widths of the nets that are declared above.
    ghost widths: { Self → List ℕ → Option ℕ };

    /// Whether a net is an input, one that an instance drives, or one that an expression above drives.
    ghost known: { Self → List ℕ → Bool };

    /// The width of the net with the name, where it is declared above.
    fn width(&self, name: &str) -> Option<u32>
        ensures { result ≡ widths self.now name.now };

    /// Whether the net may be used here.
    fn is_known(&self, name: &str) -> bool
        ensures { result ≡ known self.now name.now };
}

/// A module, and those of its entries that stand above, which are gone through at each question.
#[derive(Drop)]
pub struct Scan<'a> {
    pub module: &'a Module,
    pub above: &'a [Entry],
}

impl<'a> Nets for Scan<'a> {
    ghost widths = { λ s. wide.width_above (map port_of s.«module».now.ports) (map entry_of s.above.now) };

    ghost known = { λ s. wide.is_known (module_of s.«module».now) (map entry_of s.above.now) };

    fn width(&self, name: &str) -> Option<u32> {
        width_above(self.module.ports.as_slice(), self.above, name)
    }

    #[tactic(auto, unfolding(crate::specs::Widths::is_known))]
    fn is_known(&self, name: &str) -> bool {
        let ports = self.module.ports.as_slice();
        is_input(ports, name)
            || (0 < instances_count(ports, self.module.entries.as_slice(), name)
                || 0 < expressions_count(self.above, name))
    }
}
