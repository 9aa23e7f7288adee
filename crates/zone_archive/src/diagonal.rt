// The exports of snf3x3 and smith3x3.
ghost use Rattle.std.specs.Prelude.{◌≡◌, length};
ghost use Rattle.answers.specs.Diagonals.{zone_snf3x3, zone_smith3x3};

#[unsafe(no_mangle)]
pub extern "C" fn zone_snf3x3(
    a: &[i64],
    d: &mut [i64],
    p: &mut [i64],
    q: &mut [i64],
    told: &mut [i64],
) -> i64
    ensures { record { answer = result; d = d.new; p = p.new; q = q.new; told = told.new }
        ≡ zone_snf3x3 a.now (length d.old) (length p.old) (length q.old) (length told.old) }
{
    zone_c::zone_snf3x3(a, d, p, q, told)
}

#[unsafe(no_mangle)]
pub extern "C" fn zone_smith3x3(a: &[i64], d: &mut [i64], p: &mut [i64], q: &mut [i64]) -> i64
    ensures { record { answer = result; d = d.new; p = p.new; q = q.new } ≡ zone_smith3x3 a.now (length d.old) (length p.old) (length q.old) }
{
    zone_c::zone_smith3x3(a, d, p, q)
}
