// Powers of two and places, for integer work on bit patterns.
ghost use Rattle.std.specs.Prelude.{◌≡◌, ◌-◌, ◌*◌, ◌<◌, ◌≤◌, ◌^◌};

// 2^k. The only shift of this crate: everywhere else digits move by products and quotients, which the proofs read as arithmetic.
pub(crate) fn power(k: u64) -> u64
    requires { k < 64 }
    ensures { result ≡ 2 ^ k }
{
    1u64 << k
}

// By how many places m's leading digit stands below bit p - 1: 0 for the digits of a normal value, p as many as its format has.
pub(crate) fn places(m: u64, p: u64) -> u64
    requires { (0 < m) × (m < 2 ^ p) × (p ≤ 64) }
    ensures { (result < p) × (2 ^ (p - 1) ≤ m * 2 ^ result) × (m * 2 ^ result < 2 ^ p) }
{
    m.leading_zeros() as u64 - (64 - p)
}
