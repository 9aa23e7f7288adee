// The rotations in the basis of the grid: the reciprocal rotations of a list that is a group, transformed.
ghost use Rattle.std.specs.Prelude.{◌≡◌, ◌*◌, length};
ghost use Rattle.common.specs.Tested.{without_value};
ghost use Rattle.zone_steps.specs.Steps.{group, transformed, rotation_tests};
ghost use Rattle.zone_steps.specs.StepsView.{TurnedInto};

use common::Refusal;

// Nine numbers a rotation, in the front of the output.
pub fn turn_rotations(
    rotations: &[i64],
    is_time_reversal: bool,
    d: [i64; 3],
    q: [[i64; 3]; 3],
    out: &mut [i64],
) -> Result<usize, Refusal>
    requires { length out.old ≡ 432 }
    ensures result_value { without_value result ≡ rotation_tests rotations.now is_time_reversal d q }
    ensures turned_into { TurnedInto (transformed rotations.now is_time_reversal d q) out.new result }
{
    // A fixed array: no heap.
    let mut group = [0; 432];
    let n = rotation_group::reciprocal_group(rotations, is_time_reversal, &mut group)?;
    transform_rotations::transform_rotations(&group[0..n * 9], d, q, &mut out[0..n * 9])?;
    Ok(n)
}
