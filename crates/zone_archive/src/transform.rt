// The export of transform_rotations.
ghost use Rattle.std.specs.Prelude.{◌≡◌, length};
ghost use Rattle.answers.specs.Transforms.{zone_transform_rotations};

#[unsafe(no_mangle)]
pub extern "C" fn zone_transform_rotations(
    rotations: &[i64],
    d: &[i64],
    q: &[i64],
    out: &mut [i64],
) -> i64
    ensures { record { answer = result; out = out.new } ≡ zone_transform_rotations rotations.now d.now q.now (length out.old) }
{
    zone_c::zone_transform_rotations(rotations, d, q, out)
}
