// The archive libnumbers_c.a: each export is a call of numbers_c under the same name and clauses.
// No part of the archive for the camera, zone_archive.
#![tactic(auto)]

mod floats;
mod gcd;

ghost use Rattle.std.specs.Prelude.{neg_ℤ, ◌+ℤ◌, ◌-ℤ◌, ◌*ℤ◌};
ghost use Rattle.std.specs.Int.Signed.{quot_z, rem_z};
ghost use Rattle.integer.specs.Checked.{checked, divided};
ghost use Rattle.integer.specs.Division.{div_euclid, rem_euclid};
ghost use Rattle.numbers_c.specs.Told.{Told};

#[unsafe(no_mangle)]
pub extern "C" fn zone_checked_add(a: i64, b: i64, out: &mut [i64]) -> i64
    ensures { Told (checked (a +ℤ b)) out.old result out.new }
{
    numbers_c::zone_checked_add(a, b, out)
}

#[unsafe(no_mangle)]
pub extern "C" fn zone_checked_sub(a: i64, b: i64, out: &mut [i64]) -> i64
    ensures { Told (checked (a -ℤ b)) out.old result out.new }
{
    numbers_c::zone_checked_sub(a, b, out)
}

#[unsafe(no_mangle)]
pub extern "C" fn zone_checked_mul(a: i64, b: i64, out: &mut [i64]) -> i64
    ensures { Told (checked (a *ℤ b)) out.old result out.new }
{
    numbers_c::zone_checked_mul(a, b, out)
}

#[unsafe(no_mangle)]
pub extern "C" fn zone_checked_div(a: i64, d: i64, out: &mut [i64]) -> i64
    ensures { Told (divided d (quot_z a d) (quot_z a d)) out.old result out.new }
{
    numbers_c::zone_checked_div(a, d, out)
}

#[unsafe(no_mangle)]
pub extern "C" fn zone_checked_rem(a: i64, d: i64, out: &mut [i64]) -> i64
    ensures { Told (divided d (quot_z a d) (rem_z a d)) out.old result out.new }
{
    numbers_c::zone_checked_rem(a, d, out)
}

#[unsafe(no_mangle)]
pub extern "C" fn zone_checked_div_euclid(a: i64, d: i64, out: &mut [i64]) -> i64
    ensures { Told (divided d (div_euclid a d) (div_euclid a d)) out.old result out.new }
{
    numbers_c::zone_checked_div_euclid(a, d, out)
}

#[unsafe(no_mangle)]
pub extern "C" fn zone_checked_rem_euclid(a: i64, d: i64, out: &mut [i64]) -> i64
    ensures { Told (divided d (div_euclid a d) (rem_euclid a d)) out.old result out.new }
{
    numbers_c::zone_checked_rem_euclid(a, d, out)
}

#[unsafe(no_mangle)]
pub extern "C" fn zone_checked_neg(a: i64, out: &mut [i64]) -> i64
    ensures { Told (checked (neg_ℤ a)) out.old result out.new }
{
    numbers_c::zone_checked_neg(a, out)
}
