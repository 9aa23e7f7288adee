// The pair of numbers on which the extended gcd takes the most steps.
#![tactic(auto)]

ghost use Rattle.std.specs.Prelude.{◌≤◌, ◌≡◌};
ghost use Rattle.worst_pair.specs.WorstPair.{limit_fits, Finds, Answers};

use common::Refusal;

// Two numbers, and their steps.
#[derive(Clone, Copy)]
pub struct WorstPair {
    pub a: usize,
    pub b: usize,
    pub steps: usize,
}

fn limit_fits(limit: i64) -> bool
    ensures { result ≡ limit_fits limit }
{
    1 <= limit && limit <= 1000000
}

// Neighbours in Fibonacci's row, as far as the limit goes.
fn neighbours(limit: usize) -> WorstPair
    requires le_limit { 1 ≤ limit }
    requires limit_bound { limit ≤ 1000000 }
    ensures { Finds limit result }
{
    let mut a: usize = 1;
    let mut b: usize = 1;
    let mut steps: usize = 1;
    // A `while`: Fibonacci's row has no index and no list to go over.
    while a + b <= limit {
        let next = a + b;
        a = b;
        b = next;
        steps += 1;
    }
    WorstPair { a, b, steps }
}

// A limit outside 1 to 1,000,000 is refused.
pub fn worst_pair(limit: i64) -> Result<WorstPair, Refusal>
    ensures { Answers limit result }
{
    if !limit_fits(limit) {
        return Err(Refusal::OutsideLimits);
    }
    Ok(neighbours(limit as usize))
}
