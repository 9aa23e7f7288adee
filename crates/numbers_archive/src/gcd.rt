// The extended gcd, with its count of divisions.
ghost use Rattle.std.specs.Prelude.{length};
ghost use Rattle.numbers_c.specs.GcdTold.{GcdTold};

#[unsafe(no_mangle)]
pub extern "C" fn zone_extended_gcd(a: i64, b: i64, told: &mut [i64]) -> i64
    ensures { GcdTold a b (length told.old) result told.new }
{
    numbers_c::zone_extended_gcd(a, b, told)
}
