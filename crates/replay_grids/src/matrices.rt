// One case of a function on a limit or on one or two matrices or forms, whose outputs have fixed lengths.
use vectors::compared::Compared;
use vectors::{UNWRITTEN, Verdict, slices};

// After the matrix: the answer, three outputs, and the number of rounds.
pub fn snf3x3(line: &[i64]) -> Option<Verdict> {
    let (a, line) = slices::split(line);
    let mut d = [UNWRITTEN; 3];
    let mut p = [UNWRITTEN; 9];
    let mut q = [UNWRITTEN; 9];
    let mut told = [UNWRITTEN];
    let answer = zone_c::zone_snf3x3(a, &mut d, &mut p, &mut q, &mut told);
    Some(
        Compared::with(line)
            .number(answer)
            .output(&d)
            .output(&p)
            .output(&q)
            .numbers(&told)
            .verdict(),
    )
}

// The same without the number of rounds.
pub fn smith3x3(line: &[i64]) -> Option<Verdict> {
    let (a, line) = slices::split(line);
    let mut d = [UNWRITTEN; 3];
    let mut p = [UNWRITTEN; 9];
    let mut q = [UNWRITTEN; 9];
    let answer = zone_c::zone_smith3x3(a, &mut d, &mut p, &mut q);
    Some(
        Compared::with(line)
            .number(answer)
            .output(&d)
            .output(&p)
            .output(&q)
            .verdict(),
    )
}

// After the matrix: the answer and one output.
pub fn hermite3x3(line: &[i64]) -> Option<Verdict> {
    let (a, line) = slices::split(line);
    let mut h = [UNWRITTEN; 9];
    let answer = zone_c::zone_hermite3x3(a, &mut h);
    Some(Compared::with(line).number(answer).output(&h).verdict())
}

// After two matrices, or two forms: the answer and what was told.
fn of_two<F: FnOnce(&[i64], &[i64], &mut [i64]) -> i64>(line: &[i64], call: F) -> Option<Verdict>
    requires { F.IsAlwaysCallable call }
{
    let (a, line) = slices::split(line);
    let (b, line) = slices::split(line);
    let mut told = [UNWRITTEN];
    let answer = call(a, b, &mut told);
    Some(Compared::with(line).number(answer).numbers(&told).verdict())
}

pub fn order_forms(line: &[i64]) -> Option<Verdict> {
    of_two(line, |g, h, told| zone_c::zone_order_forms(g, h, told))
}

pub fn same_grid(line: &[i64]) -> Option<Verdict> {
    of_two(line, |a, b, told| zone_c::zone_same_grid(a, b, told))
}

// The limit, the answer, and what was told.
pub fn worst_pair(line: &[i64]) -> Option<Verdict> {
    let (limit, line) = line.split_first()?;
    let mut told = [UNWRITTEN; 3];
    let answer = zone_c::zone_worst_pair(*limit, &mut told);
    Some(Compared::with(line).number(answer).numbers(&told).verdict())
}
