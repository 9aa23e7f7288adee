// One case of a function on f64. Each is accepted: the answer is 0.
use vectors::compared::Compared;
use vectors::{Verdict, floats};

// The float's words, and the rest of the line from the answer on.
fn argument(n: &[i64]) -> Option<(f64, Compared<'_>)> {
    let ([high, low], line) = n.split_first_chunk::<2>()?;
    Some((
        floats::float_of(*high, *low)?,
        Compared::with(line).number(0),
    ))
}

pub fn to_float<F: Fn(f64) -> f64>(n: &[i64], call: F) -> Option<Verdict>
where
    F: Drop,
    requires { F.IsAlwaysCallable call }
{
    let (x, answered) = argument(n)?;
    Some(answered.float(call(x)).verdict())
}

pub fn to_number<F: Fn(f64) -> i64>(n: &[i64], call: F) -> Option<Verdict>
where
    F: Drop,
    requires { F.IsAlwaysCallable call }
{
    let (x, answered) = argument(n)?;
    Some(answered.number(call(x)).verdict())
}

pub fn to_f64(n: &[i64]) -> Option<Verdict> {
    let (v, line) = n.split_first()?;
    // no answer at all
    line.first()?;
    Some(
        Compared::with(line)
            .number(0)
            .float(numbers_c::zone_to_f64(*v))
            .verdict(),
    )
}
