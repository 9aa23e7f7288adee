// One case of a function on integers: its operands, the answer, and what was told.
use vectors::Verdict;
use vectors::compared::Compared;

pub fn of_one<F: Fn(i64, &mut [i64]) -> i64>(
    n: &[i64],
    told: &mut [i64],
    call: F,
) -> Option<Verdict>
where
    F: Drop,
    requires { F.IsAlwaysCallable call }
{
    let (a, line) = n.split_first()?;
    // no answer at all
    line.first()?;
    let answer = call(*a, told);
    Some(Compared::with(line).number(answer).numbers(told).verdict())
}

pub fn of_two<F: Fn(i64, i64, &mut [i64]) -> i64>(
    n: &[i64],
    told: &mut [i64],
    call: F,
) -> Option<Verdict>
where
    F: Drop,
    requires { F.IsAlwaysCallable call }
{
    let ([a, b], line) = n.split_first_chunk::<2>()?;
    let answer = call(*a, *b, told);
    Some(Compared::with(line).number(answer).numbers(told).verdict())
}
