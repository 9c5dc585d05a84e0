// Checked and wrapping arithmetic on machine integers. Each function answers for all its arguments; its contract is a
// definition of `specs/Defs.antt`.
#![tactic(auto)]

ghost use Rattle.std.specs.Prelude.{◌≡◌, ◌+◌, ◌*◌, pos, nat_abs, neg_ℤ, ◌+ℤ◌, ◌*ℤ◌};
ghost use Rattle.integer.specs.Defs.{checked, checked_u, wrap32};

pub fn checked_add_i64(a: i64, b: i64) -> Option<i64>
    ensures { result ≡ checked (a +ℤ b) }
{
    a.checked_add(b)
}

pub fn checked_neg_i64(a: i64) -> Option<i64>
    ensures { result ≡ checked (neg_ℤ a) }
{
    a.checked_neg()
}

pub fn checked_add_u64(m: u64, n: u64) -> Option<u64>
    ensures { result ≡ checked_u (m + n) }
{
    m.checked_add(n)
}

pub fn checked_mul_u64(m: u64, n: u64) -> Option<u64>
    ensures { result ≡ checked_u (m * n) }
{
    m.checked_mul(n)
}

// |a|, which is 2^63 for the least i64.
pub fn magnitude_i64(a: i64) -> u64
    ensures { result ≡ nat_abs a }
{
    a.unsigned_abs()
}

pub fn checked_mul_i64(a: i64, b: i64) -> Option<i64>
    ensures { result ≡ checked (a *ℤ b) }
{
    a.checked_mul(b)
}

pub fn u64_to_i64(x: u64) -> Option<i64>
    ensures { result ≡ checked (pos x) }
{
    i64::try_from(x).ok()
}

// The sum modulo 2^32, in −2^31 .. 2^31 − 1.
pub fn wrapping_add_i32(a: i32, b: i32) -> i32
    ensures { result ≡ wrap32 (a +ℤ b) }
{
    a.wrapping_add(b)
}
