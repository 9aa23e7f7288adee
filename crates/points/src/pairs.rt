// The worst pair of every limit up to 300, by trial of all pairs.
use std::cmp::Reverse;

// The steps are those that the gcd tells. The worst of several pairs is the least in this order: it takes the
// most steps, then has the smallest sum, then the smallest first number.
#[derive(Clone, Copy, PartialEq, Eq, PartialOrd, Ord)]
pub struct Pair {
    steps: Reverse<i64>,
    sum: u32,
    first: u16,
    second: u16,
}

impl Pair {
    fn of(first: u16, second: u16) -> Self {
        let mut told = [0; 4];
        numbers_c::zone_extended_gcd(i64::from(first), i64::from(second), &mut told);
        Self {
            steps: Reverse(told[3]),
            sum: u32::from(first) + u32::from(second),
            first,
            second,
        }
    }
}

// The worst of p and the pairs whose larger number is n.
fn up_to(p: Pair, n: u16) -> Pair {
    let worst = p.min(Pair::of(n, n));
    (1..n).fold(
        worst,
        |worst, k| worst.min(Pair::of(k, n)).min(Pair::of(n, k)),
    )
}

fn agrees(p: Pair, limit: u16) -> bool {
    let mut told = [0; 3];
    let answer = zone_c::zone_worst_pair(i64::from(limit), &mut told);
    answer == 0 && told == [i64::from(p.first), i64::from(p.second), p.steps.0]
}

// How many of the limits up to 300 have the pair that the trial finds.
pub fn agreeing() -> i64 {
    let mut worst = Pair::of(1, 1);
    let mut n: u16 = 0;
    for limit in 1..301 {
        worst = up_to(worst, limit);
        if agrees(worst, limit) {
            n += 1;
        }
    }
    i64::from(n)
}
