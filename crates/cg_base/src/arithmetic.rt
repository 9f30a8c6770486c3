ghost use Rattle.std.specs.Prelude.{◌≡◌, ◌↔◌, ◌≤◌, ◌<◌, ◌-◌, ◌^◌, ℕ, IfSome, IsNone};
ghost use Rattle.std.specs.Int.{IsPowerOfTwo};
ghost use Rattle.cg_base.specs.Arithmetic.{IsLeastMultiple};

/// The number whose lowest `width` bits are set and no other.
pub fn mask(width: u32) -> u64
    requires { width ≤ 64 }
    ensures { result ≡ 2 ^ width - 1 }
{
    ((1u128 << width) - 1) as u64
}

/// The least multiple of `to` that is not below `n`; `None` exactly where that is above 2^32.
///
/// `to` is a power of two, at most 2^32.
pub fn align_up(n: u64, to: u64) -> Option<u64>
    requires power { IsPowerOfTwo to }
    requires within { to ≤ 2 ^ 32 }
    ensures least { IfSome result (λ m. IsLeastMultiple to n m) }
    ensures bound { IfSome result (λ m. m ≤ 2 ^ 32) }
    ensures none { IsNone result ↔ ((m : ℕ) → IsLeastMultiple to n m → 2 ^ 32 < m) }
{
    if n > 1 << 32 {
        return None;
    }
    Some(n.div_ceil(to) * to)
}
