// Replays the Rust's answers of the checked operations, of the functions on f64 and of the extended gcd:
// reads the vectors of each function, data/FUNCTION, calls the port's export, and prints how many cases
// there were, how many differ, and how many differ once the last number of the line is another one, which
// must be all. One number of data/control is wrong, so that one case of it must differ.
#![tactic(auto)]

mod floats;
mod integers;

use integers::{of_one, of_two};
use replaying::replay;
use std::io;
use std::rt::Files;
use vectors::UNWRITTEN;

// The most numbers of a line.
const LINE: usize = 8;

// A checked operation on two numbers.
fn checked<F: Fn(i64, i64, &mut [i64]) -> i64>(
    rt: &(impl Files + Print),
    name: &str,
    call: F,
) -> io::Result<()>
where
    F: Drop,
    requires { F.IsAlwaysCallable call }
{
    replay(
        rt,
        name,
        &mut [0; LINE],
        |n|
            requires { F.IsAlwaysCallable call }
        { of_two(n, &mut [UNWRITTEN], &call) },
    )
}

// A function on a float whose result is one.
fn to_float<F: Fn(f64) -> f64>(rt: &(impl Files + Print), name: &str, call: F) -> io::Result<()>
where
    F: Drop,
    requires { F.IsAlwaysCallable call }
{
    replay(
        rt,
        name,
        &mut [0; LINE],
        |n|
            requires { F.IsAlwaysCallable call }
        { floats::to_float(n, &call) },
    )
}

// A function on a float whose result is a number.
fn to_number<F: Fn(f64) -> i64>(rt: &(impl Files + Print), name: &str, call: F) -> io::Result<()>
where
    F: Drop,
    requires { F.IsAlwaysCallable call }
{
    replay(
        rt,
        name,
        &mut [0; LINE],
        |n|
            requires { F.IsAlwaysCallable call }
        { floats::to_number(n, &call) },
    )
}

fn main(rt: HostRuntime) -> io::Result<()> {
    checked(&rt, "checked_add", numbers_c::zone_checked_add)?;
    checked(&rt, "checked_sub", numbers_c::zone_checked_sub)?;
    checked(&rt, "checked_mul", numbers_c::zone_checked_mul)?;
    replay(&rt, "checked_neg", &mut [0; LINE], |n| {
        of_one(n, &mut [UNWRITTEN], numbers_c::zone_checked_neg)
    })?;
    checked(
        &rt,
        "checked_div_euclid",
        numbers_c::zone_checked_div_euclid,
    )?;
    checked(
        &rt,
        "checked_rem_euclid",
        numbers_c::zone_checked_rem_euclid,
    )?;
    checked(&rt, "checked_div", numbers_c::zone_checked_div)?;
    checked(&rt, "checked_rem", numbers_c::zone_checked_rem)?;
    to_float(&rt, "round", numbers_c::zone_round)?;
    to_float(&rt, "floor", numbers_c::zone_floor)?;
    to_float(&rt, "ceil", numbers_c::zone_ceil)?;
    to_float(&rt, "abs", numbers_c::zone_abs)?;
    to_float(&rt, "sqrt", numbers_c::zone_sqrt)?;
    to_number(&rt, "to_i64", numbers_c::zone_to_i64)?;
    to_number(&rt, "nint", numbers_c::zone_nint)?;
    to_number(
        &rt,
        "is_finite",
        |x| i64::from(numbers_c::zone_is_finite(x)),
    )?;
    replay(&rt, "to_f64", &mut [0; LINE], floats::to_f64)?;
    replay(&rt, "extended_gcd", &mut [0; LINE], |n| {
        of_two(n, &mut [UNWRITTEN; 4], numbers_c::zone_extended_gcd)
    })?;
    checked(&rt, "control", numbers_c::zone_checked_div)
}
