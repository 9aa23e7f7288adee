// Of the Hermite form.
ghost use Rattle.std.specs.Prelude.{◌≡◌, pos, length};
ghost use Rattle.common.specs.Tested.{answer_of};
ghost use Rattle.answers.specs.Forms.{form_lengths, order_told, same_told};

use crate::tell;
use common::Refusal;
use std::cmp::Ordering;

pub fn form_lengths(a: usize, h: usize) -> bool
    ensures { result ≡ form_lengths a h }
{
    a == 9 && h == 9
}

pub fn tell_order(answer: Ordering, told: &mut [i64]) -> i64
    requires { length told.old ≡ 1 }
    ensures value { result ≡ pos 0 }
    ensures told_after { told.new ≡ order_told answer }
{
    match answer {
        Ordering::Less => tell(Ok([0]), told),
        Ordering::Equal => tell(Ok([1]), told),
        Ordering::Greater => tell(Ok([2]), told),
    }
}

pub fn tell_same(answer: Result<bool, Refusal>, told: &mut [i64]) -> i64
    requires { length told.old ≡ 1 }
    ensures value { result ≡ answer_of answer }
    ensures told_after { told.new ≡ same_told answer }
{
    match answer {
        Ok(true) => tell(Ok([1]), told),
        Ok(false) => tell(Ok([0]), told),
        Err(r) => tell::<1>(Err(r), told),
    }
}
