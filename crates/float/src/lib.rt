// Rust's methods of f64 with the contracts that the modules cite. Each is total on every f64.
#![tactic(auto)]

ghost use Rattle.std.specs.Prelude.{◌≡◌, from_bits};
ghost use Rattle.std.specs.Float.{binary64};
ghost use Rattle.std.specs.Float.Ieee.{of_int, to_signed};
ghost use Rattle.std.specs.Float.Ieee.Scale.{finite};
ghost use Rattle.float.specs.Rounding.{round_of, floor_of, ceil_of, abs_of, nint_of};
ghost use Rattle.float.specs.Sqrt.{sqrt_of};

// 2^53: every whole number up to here is an f64.
const EXACT: i64 = 0x20_0000_0000_0000;

// The f64 of a bit pattern, a NaN's too.
pub fn of_bits(bits: u64) -> f64
    ensures { result ≡ from_bits binary64 bits }
{
    std::num::f64_from_bits_with_nan(bits)
}

// To the nearest whole number, halves away from zero.
#[tactic(auto, using(crate::proofs::Library::round_is))]
pub fn round(x: f64) -> f64
    ensures { result ≡ round_of x }
{
    x.round()
}

// To the largest whole number that is not above x.
#[tactic(auto, using(crate::proofs::Library::floor_is))]
pub fn floor(x: f64) -> f64
    ensures { result ≡ floor_of x }
{
    x.floor()
}

// To the least whole number that is not below x.
#[tactic(auto, using(crate::proofs::Library::ceil_is))]
pub fn ceil(x: f64) -> f64
    ensures { result ≡ ceil_of x }
{
    x.ceil()
}

// Rust's `x as i64`: toward zero, out of range to the nearest end, 0 for a NaN.
pub fn to_i64(x: f64) -> i64
    ensures { result ≡ to_signed 63 x }
{
    std::num::saturating_f64_to_i64(x)
}

// Rust's `x.round() as i64`.
#[tactic(auto, unfolding(crate::specs::Rounding::nint_of))]
pub fn nint(x: f64) -> i64
    ensures { result ≡ nint_of x }
{
    to_i64(round(x))
}

// Rust's `n as f64`: exact up to 2^53, and beyond it the nearest f64. Up to 2^53 it is one instruction, which the library's function,
// by the two halves of n, is not.
pub fn to_f64(n: i64) -> f64
    ensures { result ≡ of_int binary64 n }
{
    if -EXACT <= n && n <= EXACT {
        n as f64
    } else {
        std::num::nearest_i64_to_f64(n)
    }
}

// Without its sign, a zero's too.
#[tactic(auto, using(crate::proofs::Library::abs_is))]
pub fn abs(x: f64) -> f64
    ensures { result ≡ abs_of x }
{
    x.abs()
}

// Neither an infinity nor a NaN.
#[tactic(auto, using(crate::proofs::Library::finite_is))]
pub fn is_finite(x: f64) -> bool
    ensures { result ≡ finite x }
{
    x.is_finite()
}

// The f64 nearest to the square root; a zero of itself, a NaN below zero.
#[tactic(auto, using(crate::proofs::SqrtLibrary::sqrt_is))]
pub fn sqrt(x: f64) -> f64
    ensures { result ≡ sqrt_of x }
{
    x.sqrt()
}
