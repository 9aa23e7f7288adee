// Rounding, casts and the square root of an f64.
ghost use Rattle.std.specs.Prelude.{◌≡◌};
ghost use Rattle.std.specs.Float.{binary64};
ghost use Rattle.std.specs.Float.Ieee.{of_int, to_signed};
ghost use Rattle.std.specs.Float.Ieee.Scale.{finite};
ghost use Rattle.float.specs.Rounding.{round_of, floor_of, ceil_of, abs_of, nint_of};
ghost use Rattle.float.specs.Sqrt.{sqrt_of};

#[unsafe(no_mangle)]
pub extern "C" fn zone_round(x: f64) -> f64
    ensures { result ≡ round_of x }
{
    numbers_c::zone_round(x)
}

#[unsafe(no_mangle)]
pub extern "C" fn zone_floor(x: f64) -> f64
    ensures { result ≡ floor_of x }
{
    numbers_c::zone_floor(x)
}

#[unsafe(no_mangle)]
pub extern "C" fn zone_ceil(x: f64) -> f64
    ensures { result ≡ ceil_of x }
{
    numbers_c::zone_ceil(x)
}

#[unsafe(no_mangle)]
pub extern "C" fn zone_abs(x: f64) -> f64
    ensures { result ≡ abs_of x }
{
    numbers_c::zone_abs(x)
}

#[unsafe(no_mangle)]
pub extern "C" fn zone_sqrt(x: f64) -> f64
    ensures { result ≡ sqrt_of x }
{
    numbers_c::zone_sqrt(x)
}

#[unsafe(no_mangle)]
pub extern "C" fn zone_to_i64(x: f64) -> i64
    ensures { result ≡ to_signed 63 x }
{
    numbers_c::zone_to_i64(x)
}

#[unsafe(no_mangle)]
pub extern "C" fn zone_nint(x: f64) -> i64
    ensures { result ≡ nint_of x }
{
    numbers_c::zone_nint(x)
}

#[unsafe(no_mangle)]
pub extern "C" fn zone_to_f64(n: i64) -> f64
    ensures { result ≡ of_int binary64 n }
{
    numbers_c::zone_to_f64(n)
}

#[unsafe(no_mangle)]
pub extern "C" fn zone_is_finite(x: f64) -> bool
    ensures { result ≡ finite x }
{
    numbers_c::zone_is_finite(x)
}
