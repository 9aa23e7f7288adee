// The export of the worst pair.
ghost use Rattle.std.specs.Prelude.{length};
ghost use Rattle.answers.specs.WorstPairs.{WorstPairTold};

#[unsafe(no_mangle)]
pub extern "C" fn zone_worst_pair(limit: i64, told: &mut [i64]) -> i64
    ensures { WorstPairTold limit (length told.old) result told.new }
{
    zone_c::zone_worst_pair(limit, told)
}
