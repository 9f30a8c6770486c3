ghost use Rattle.std.specs.Prelude.{◌≡◌, ◌++◌, length, take, min};

use crate::List;
use std::marker::Model;

// Copies as much as fits, and tells how much that is.
fn copy_front(from: &[u8], to: &mut [u8]) -> usize
    ensures count { result ≡ min (length from.now) (length to.old) }
    ensures len { length to.new ≡ length to.old }
    ensures front { take result to.new ≡ take result from.now }
{
    let n = from.len().min(to.len());
    to[..n].copy_from_slice(&from[..n]);
    n
}

/// Bytes that are given from the front.
#[derive(Drop)]
pub struct Rest {
    bytes: List<u8>,
    given: usize,
}

impl Model for Rest {
    ghost use Rattle.std.specs.Prelude.{List, ℕ, drop, length, ◌≤◌};

    ghost Value = { List ℕ };

    ghost view = { λ r. drop r.given r.bytes };

    ghost invariant = { λ r. r.given ≤ length r.bytes };
}

impl Rest {
    /// All these bytes are left.
    pub fn new(bytes: List<u8>) -> Rest
        ensures { result ≡ bytes }
    {
        Rest { bytes, given: 0 }
    }

    /// Gives the next bytes, as many as there are and fit into `buf`.
    pub fn give(&mut self, buf: &mut [u8]) -> usize
        ensures count { result ≡ min (length self.old) (length buf.old) }
        ensures len { length buf.new ≡ length buf.old }
        ensures given { self.old ≡ take result buf.new ++ self.new }
    {
        let (_, rest) = self.bytes.as_slice().split_at(self.given);
        let n = copy_front(rest, buf);
        self.given += n;
        n
    }
}
