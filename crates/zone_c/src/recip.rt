// The reciprocal point group, of any list and of one that must be a group.
ghost use Rattle.std.specs.Prelude.{◌≡◌, length};
ghost use Rattle.answers.specs.PointGroups.{zone_reciprocal_point_group, zone_reciprocal_rotations, zone_reciprocal_group};

pub fn zone_reciprocal_point_group(
    rotations: &[i64],
    time_reversal: bool,
    transpose: bool,
    out: &mut [i64],
    told: &mut [i64],
) -> i64
    ensures { record { answer = result; out = out.new; told = told.new }
        ≡ zone_reciprocal_point_group rotations.now time_reversal transpose (length out.old) (length told.old) }
{
    let answer = recip_rotations::get_reciprocal_point_group(
        rotations,
        time_reversal,
        transpose,
        out,
    );
    answers::tell_group(answer, out, told)
}

pub fn zone_reciprocal_rotations(
    rotations: &[i64],
    time_reversal: bool,
    out: &mut [i64],
    told: &mut [i64],
) -> i64
    ensures { record { answer = result; out = out.new; told = told.new }
        ≡ zone_reciprocal_rotations rotations.now time_reversal (length out.old) (length told.old) }
{
    let answer = recip_rotations::reciprocal_rotations(rotations, time_reversal, out);
    answers::tell_group(answer, out, told)
}

pub fn zone_reciprocal_group(
    rotations: &[i64],
    time_reversal: bool,
    out: &mut [i64],
    told: &mut [i64],
) -> i64
    ensures { record { answer = result; out = out.new; told = told.new }
        ≡ zone_reciprocal_group rotations.now time_reversal (length out.old) (length told.old) }
{
    let answer = rotation_group::reciprocal_group(rotations, time_reversal, out);
    answers::tell_group(answer, out, told)
}
