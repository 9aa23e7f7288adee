// Of the weights of the classes.
ghost use Rattle.std.specs.Prelude.{◌≡◌, length};
ghost use Rattle.common.specs.Tested.{answer_of};
ghost use Rattle.answers.specs.ClassWeights.{weights_told, weight_lengths};

use crate::tell;
use class_weights::Counts;
use common::Refusal;

pub fn weight_lengths(d: usize, ps: usize, told: usize) -> bool
    ensures { result ≡ weight_lengths d ps told }
{
    d == 3 && ps == 3 && told == 2
}

pub fn tell_weights(answer: Result<Counts, Refusal>, told: &mut [i64]) -> i64
    requires { length told.old ≡ 2 }
    ensures value { result ≡ answer_of answer }
    ensures told_after { told.new ≡ weights_told answer }
{
    match answer {
        Ok(c) => tell(Ok([c.classes, c.keepers]), told),
        Err(r) => tell::<2>(Err(r), told),
    }
}
