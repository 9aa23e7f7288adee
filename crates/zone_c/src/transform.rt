// The export of transform_rotations.
ghost use Rattle.std.specs.Prelude.{◌≡◌, length};
ghost use Rattle.answers.specs.Transforms.{zone_transform_rotations};

pub fn zone_transform_rotations(rotations: &[i64], d: &[i64], q: &[i64], out: &mut [i64]) -> i64
    ensures { record { answer = result; out = out.new } ≡ zone_transform_rotations rotations.now d.now q.now (length out.old) }
{
    if !answers::transform_lengths(d.len(), q.len()) {
        return answers::refuse(out);
    }
    let answer = transform_rotations::transform_rotations(
        rotations,
        common::row_at(d, 0),
        common::matrix_at(q, 0),
        out,
    );
    answers::number(answer)
}
