// Checked operations on i64, functions of f64 and the extended gcd, which numbers_archive exports for the
// comparison with the Rust's own. No part of the archive for the camera, zone_archive.
#![tactic(auto)]

// Public modules: a function that stands in a private one is no value in another crate.
pub mod floats;
pub mod gcd;

ghost use Rattle.std.specs.Prelude.{neg_ℤ, ◌+ℤ◌, ◌-ℤ◌, ◌*ℤ◌};
ghost use Rattle.std.specs.Int.Signed.{quot_z, rem_z};
ghost use Rattle.integer.specs.Checked.{checked, divided};
ghost use Rattle.integer.specs.Division.{div_euclid, rem_euclid};
ghost use Rattle.numbers_c.specs.Told.{Told};

use common::Refusal;
pub use floats::{
    zone_abs, zone_ceil, zone_floor, zone_is_finite, zone_nint, zone_round, zone_sqrt, zone_to_f64,
    zone_to_i64,
};
pub use gcd::zone_extended_gcd;
use integer::ArithmeticError;

// A divisor of 0 is an overflow too, as every panic of the Rust's arithmetic is.
fn tell(answer: Result<i64, ArithmeticError>, out: &mut [i64]) -> i64
    ensures { Told answer out.old result out.new }
{
    out.fill(-1);
    if out.len() != 1 {
        return Refusal::WrongLength.answer();
    }
    let Ok(v) = answer else {
        return Refusal::Overflow.answer();
    };
    out[0] = v;
    0
}

pub fn zone_checked_add(a: i64, b: i64, out: &mut [i64]) -> i64
    ensures { Told (checked (a +ℤ b)) out.old result out.new }
{
    tell(integer::checked_add(a, b), out)
}

pub fn zone_checked_sub(a: i64, b: i64, out: &mut [i64]) -> i64
    ensures { Told (checked (a -ℤ b)) out.old result out.new }
{
    tell(integer::checked_sub(a, b), out)
}

pub fn zone_checked_mul(a: i64, b: i64, out: &mut [i64]) -> i64
    ensures { Told (checked (a *ℤ b)) out.old result out.new }
{
    tell(integer::checked_mul(a, b), out)
}

pub fn zone_checked_div(a: i64, d: i64, out: &mut [i64]) -> i64
    ensures { Told (divided d (quot_z a d) (quot_z a d)) out.old result out.new }
{
    tell(integer::checked_div(a, d), out)
}

pub fn zone_checked_rem(a: i64, d: i64, out: &mut [i64]) -> i64
    ensures { Told (divided d (quot_z a d) (rem_z a d)) out.old result out.new }
{
    tell(integer::checked_rem(a, d), out)
}

pub fn zone_checked_div_euclid(a: i64, d: i64, out: &mut [i64]) -> i64
    ensures { Told (divided d (div_euclid a d) (div_euclid a d)) out.old result out.new }
{
    tell(integer::checked_div_euclid(a, d), out)
}

pub fn zone_checked_rem_euclid(a: i64, d: i64, out: &mut [i64]) -> i64
    ensures { Told (divided d (div_euclid a d) (rem_euclid a d)) out.old result out.new }
{
    tell(integer::checked_rem_euclid(a, d), out)
}

pub fn zone_checked_neg(a: i64, out: &mut [i64]) -> i64
    ensures { Told (checked (neg_ℤ a)) out.old result out.new }
{
    tell(integer::checked_neg(a), out)
}
