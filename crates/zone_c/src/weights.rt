// The weights of the classes.
ghost use Rattle.std.specs.Prelude.{◌≡◌, length};
ghost use Rattle.answers.specs.ClassWeights.{zone_class_weights};

pub fn zone_class_weights(
    rotations: &[i64],
    d: &[i64],
    ps: &[i64],
    point: i64,
    weights: &mut [i64],
    members: &mut [i64],
    keepers: &mut [i64],
    told: &mut [i64],
) -> i64
    ensures { record { answer = result; weights = weights.new; members = members.new; keepers = keepers.new; told = told.new }
        ≡ zone_class_weights rotations.now d.now ps.now point (length weights.old) (length members.old) (length keepers.old) (length told.old) }
{
    if !answers::weight_lengths(d.len(), ps.len(), told.len()) {
        return answers::refuse_four(weights, members, keepers, told);
    }
    answers::tell_weights(
        class_weights::class_weights(
            rotations,
            common::row_at(d, 0),
            common::row_at(ps, 0),
            point,
            weights,
            members,
            keepers,
        ),
        told,
    )
}
