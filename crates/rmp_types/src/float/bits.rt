//! The bits of doubles, made by whole-number operations.
ghost use Rattle.std.specs.Prelude.{ℕ, ◌≡◌, ◌<◌, ◌≤◌, ◌%◌, ◌^◌, MatchOption};
ghost use Rattle.rmp_types.specs.Floats.{IsWhole, Widens};
ghost use Rattle.rmp_types.specs.FloatBits.{IsPlaced, IsSize, IsSame, NoSize};

// The place of a double's exponent: below it are 52 bits of its significand.
const EXPONENT: u64 = 1 << 52;

// The place of its sign.
const SIGN: u64 = 1 << 63;

// Makes the bits of the double m * 2 ^ (base - 1074), without its sign, of an m of at most 53 bits.
#[tactic(auto, using(crate::proofs::Placing::placed_is, crate::proofs::Placing::placed_below, crate::proofs::Placing::many_zeros))]
fn placed(m: u64, base: u64) -> u64
    requires some { 0 < m }
    requires small { m < 2 ^ 53 }
    requires low { 53 ≤ base }
    requires high { base < 2046 }
    ensures value { IsPlaced m base result }
    ensures below { result < 2 ^ 63 }
{
    let zeros = m.leading_zeros() - 11;
    let digits = m << zeros;
    (base - u64::from(zeros)) * EXPONENT + digits
}

// The bits of the double of a size, if there is one.
fn size_bits(size: u128) -> Option<u64>
    requires { 0 < size }
    ensures value { MatchOption result (NoSize size) (IsSize size) }
    ensures below { MatchOption result (Unit {0}) (λ b. b < 2 ^ 63) }
{
    let zeros = size.trailing_zeros();
    let odd = size >> zeros;
    if odd < 1 << 53 {
        Some(placed(odd as u64, 1074 + u64::from(zeros)))
    } else {
        None
    }
}

// The bits of the double that is a whole number, if there is one.
pub(crate) fn whole_bits(number: i128) -> Option<u64>
    ensures { MatchOption result ((b : ℕ) → IsWhole number b → ⊥) (IsWhole number) }
{
    if number == 0 {
        return Some(0);
    }
    let bits = size_bits(number.unsigned_abs())?;
    Some(if number < 0 { SIGN + bits } else { bits })
}

// The bits of a double, without its sign, by the exponent's field and the digits of a float of 32 bits.
fn unsigned_bits(field: u64, digits: u64) -> u64
    requires field { field < 256 }
    requires digits { digits < 2 ^ 23 }
    ensures same { IsSame field digits result }
    ensures below { result < 2 ^ 63 }
{
    if field == 255 {
        2047 * EXPONENT + digits * (1 << 29)
    } else if field > 0 {
        placed(digits + (1 << 23), 924 + field)
    } else if digits > 0 {
        placed(digits, 925)
    } else {
        0
    }
}

// The bits of the double that is a float of 32 bits.
pub(crate) fn widened(bits: u32) -> u64
    ensures { Widens bits result }
{
    let bits = u64::from(bits);
    let sign = bits / (1 << 31) * SIGN;
    sign + unsigned_bits(bits / (1 << 23) % 256, bits % (1 << 23))
}
