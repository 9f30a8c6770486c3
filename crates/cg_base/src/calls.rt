ghost use Rattle.std.specs.Prelude.{◌≡◌, IsTrue};

use crate::List;

/// The calls of one kind that a fake takes: the numbers of those that are to fail, counted from 1,
/// how many were made, and how many of these failed. Both counts stop at 2^64 - 1.
#[derive(Drop)]
pub struct Calls {
    pub to_fail: List<u64>,
    pub made: u64,
    pub faults: u64,
}

impl Calls {
    ghost use Rattle.cg_base.specs.Calls.{none_made, Counts};

    /// No call was made yet.
    pub fn new(to_fail: List<u64>) -> Calls
        ensures { result ≡ none_made to_fail }
    {
        Calls {
            to_fail,
            made: 0,
            faults: 0,
        }
    }

    /// Counts one call, and tells whether it is to fail.
    pub fn next_fails(&mut self) -> bool
        ensures { Counts (IsTrue result) self.old self.new }
    {
        self.made = self.made.saturating_add(1);
        if self.to_fail.as_slice().contains(&self.made) {
            self.faults = self.faults.saturating_add(1);
            return true;
        }
        false
    }
}
