// Of the reciprocal point group.
ghost use Rattle.std.specs.Prelude.{◌≡◌, ◌<◌, ◌≤◌, length, IfOk};
ghost use Rattle.common.specs.Tested.{answer_of};
ghost use Rattle.recip_rotations.specs.PointGroup.{count_of};
ghost use Rattle.answers.specs.PointGroups.{count_told, group_told};

use crate::{refuse, tell};
use common::Refusal;

// A count, of rotations or of the bytes of a listing.
pub fn tell_count(answer: Result<usize, Refusal>, told: &mut [i64]) -> i64
    requires one_place { length told.old ≡ 1 }
    requires count_fits { IfOk answer (λ n. n < 0x8000000000000000) }
    ensures value { result ≡ answer_of answer }
    ensures told_after { told.new ≡ count_told answer }
{
    match answer {
        Ok(n) => tell(Ok([n as i64]), told),
        Err(r) => tell::<1>(Err(r), told),
    }
}

pub fn tell_group(answer: Result<usize, Refusal>, out: &mut [i64], told: &mut [i64]) -> i64
    requires { count_of answer ≤ 48 }
    ensures { record { answer = result; out = out.new; told = told.new }
        ≡ group_told (record { answer = answer; out = out.old }) (length out.old) (length told.old) }
{
    if told.len() != 1 {
        out.fill(-1);
        return refuse(told);
    }
    tell_count(answer, told)
}
