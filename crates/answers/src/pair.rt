// Of the worst pair.
ghost use Rattle.std.specs.Prelude.{◌≡◌, length, IfOk};
ghost use Rattle.common.specs.Tested.{answer_of};
ghost use Rattle.answers.specs.WorstPairs.{pair_told, PairFits};

use crate::tell;
use common::Refusal;
use worst_pair::WorstPair;

// The first number, the second, and their steps.
pub fn tell_pair(answer: Result<WorstPair, Refusal>, told: &mut [i64]) -> i64
    requires fact_1 { length told.old ≡ 3 }
    requires fact_2 { IfOk answer PairFits }
    ensures value { result ≡ answer_of answer }
    ensures told_after { told.new ≡ pair_told answer }
{
    match answer {
        Ok(w) => tell(Ok([w.a as i64, w.b as i64, w.steps as i64]), told),
        Err(r) => tell::<3>(Err(r), told),
    }
}
