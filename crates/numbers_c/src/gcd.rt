// The extended gcd, with its count of divisions.
ghost use Rattle.std.specs.Prelude.{length};
ghost use Rattle.numbers_c.specs.GcdTold.{GcdTold};

use common::Refusal;
use snf_steps::gcd;

pub fn zone_extended_gcd(a: i64, b: i64, told: &mut [i64]) -> i64
    ensures { GcdTold a b (length told.old) result told.new }
{
    told.fill(-1);
    if told.len() != 4 {
        return Refusal::WrongLength.answer();
    }
    let Some(c) = gcd::counted_gcd(a, b) else {
        return Refusal::Overflow.answer();
    };
    told.copy_from_slice(&[c.last.r, c.last.s, c.last.t, c.count as i64]);
    0
}
