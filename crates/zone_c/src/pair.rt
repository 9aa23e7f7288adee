// The export of the worst pair.
ghost use Rattle.std.specs.Prelude.{length};
ghost use Rattle.answers.specs.WorstPairs.{WorstPairTold};

pub fn zone_worst_pair(limit: i64, told: &mut [i64]) -> i64
    ensures { WorstPairTold limit (length told.old) result told.new }
{
    let pair = worst_pair::worst_pair(limit);
    if told.len() != 3 {
        return answers::refuse(told);
    }
    answers::tell_pair(pair, told)
}
