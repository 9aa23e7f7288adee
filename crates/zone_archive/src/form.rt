// The exports of hermite3x3.
ghost use Rattle.std.specs.Prelude.{◌≡◌, length};
ghost use Rattle.answers.specs.Forms.{zone_hermite3x3, zone_order_forms, zone_same_grid};

#[unsafe(no_mangle)]
pub extern "C" fn zone_hermite3x3(a: &[i64], h: &mut [i64]) -> i64
    ensures { record { answer = result; h = h.new } ≡ zone_hermite3x3 a.now (length h.old) }
{
    zone_c::zone_hermite3x3(a, h)
}

#[unsafe(no_mangle)]
pub extern "C" fn zone_order_forms(g: &[i64], h: &[i64], told: &mut [i64]) -> i64
    ensures { record { answer = result; told = told.new } ≡ zone_order_forms g.now h.now (length told.old) }
{
    zone_c::zone_order_forms(g, h, told)
}

#[unsafe(no_mangle)]
pub extern "C" fn zone_same_grid(a: &[i64], b: &[i64], told: &mut [i64]) -> i64
    ensures { record { answer = result; told = told.new } ≡ zone_same_grid a.now b.now (length told.old) }
{
    zone_c::zone_same_grid(a, b, told)
}
