// The sign of a whole number and its size without it, as the machine's 64-bit integers hold them.
ghost use Rattle.std.specs.Prelude.{◌≡◌, nat_abs};
ghost use Rattle.base_digits.specs.digits.Figures.{capped};
ghost use Rattle.base_digits.specs.signs.Signs.{signed_of, is_minus};

use crate::digits;

// Minus n, or n; from the limit on, the limit.
#[tactic(auto, unfolding(crate::specs::signs::Signs::signed_of))]
pub fn signed(minus: bool, n: u64) -> i64
    ensures { result ≡ signed_of minus (capped n) }
{
    let m = digits::cap(n) as i64;
    if minus { -m } else { m }
}

// Whether z is below zero.
pub fn below_zero(z: i64) -> bool
    ensures { result ≡ is_minus z }
{
    z < 0
}

// z without its sign.
pub fn magnitude(z: i64) -> u64
    ensures { result ≡ nat_abs z }
{
    z.unsigned_abs()
}
