// A slice stands in a line as its length and its items; one that a call wrote and that has over LISTED
// places, as its length and a sum.
ghost use Rattle.std.specs.Prelude.{◌≡◌, ◌≤◌, ◌<◌, ◌+◌, ◌*◌, min, length, drop, IfSome};
ghost use Rattle.vectors.specs.Line.{size, items, beyond, beyond_output};
ghost use Rattle.vectors.specs.Words.{term_of, sum_from};

pub const LISTED: usize = 432;

// The size of v modulo 1,000,003, and its sign.
fn term(v: i64) -> u64
    ensures value { result ≡ term_of v }
    ensures upper_bound { result ≤ 2000006 }
{
    let size = v.unsigned_abs() % 1_000_003;
    if v < 0 { size * 2 + 1 } else { size * 2 }
}

pub fn sum(written: &[i64]) -> u64
    ensures value { result ≡ sum_from 0 written.now }
    ensures upper_bound { result < 1000003 }
{
    let mut sum = 0;
    for v in written {
        sum = (sum * 31 + term(*v)) % 1_000_003;
    }
    sum
}

// The length that a line starts with; 0 where it has ended.
fn size(line: &[i64]) -> usize
    ensures { result ≡ size line.now }
{
    line.first().map_or(0, |n| n.unsigned_abs() as usize)
}

// The slice that a line starts with, as far as the line goes, and the rest of the line.
pub fn split(line: &[i64]) -> (&[i64], &[i64])
    ensures slice { result.0.now ≡ items line.now }
    ensures rest { result.1.now ≡ beyond line.now }
{
    let Some((length, rest)) = line.split_first() else {
        return (line, line);
    };
    rest.split_at(rest.len().min(length.unsigned_abs() as usize))
}

// The pairs that a line starts with, their count and two numbers each, and the rest of the line.
pub fn split_pairs(line: &[i64]) -> Option<(&[[i64; 2]], &[i64])>
    ensures { IfSome result (λ r. (length r.0.now ≡ size line.now) × (r.1.now ≡ drop (size line.now * 2 + 1) line.now)) }
{
    let (count, rest) = line.split_first()?;
    let numbers = (count.unsigned_abs() as usize).checked_mul(2)?;
    let (words, rest) = rest.split_at_checked(numbers)?;
    let (pairs, _) = words.as_chunks();
    Some((pairs, rest))
}

// What stands after the answer that a line starts with.
pub fn after_answer(line: &[i64]) -> &[i64]
    ensures { result.now ≡ drop 1 line.now }
{
    line.get(1..).unwrap_or(&[])
}

// The front of `out` that is lent for the output that a line starts with.
pub fn lent<'a, T>(line: &[i64], out: &'a mut [T]) -> &'a mut [T]
    ensures { length result.now ≡ min (size line.now) (length out.old) }
{
    let places = size(line).min(out.len());
    &mut out[..places]
}

// The rest of a line after the output that it starts with.
pub fn after_output(line: &[i64]) -> &[i64]
    ensures { result.now ≡ beyond_output line.now }
{
    if size(line) <= LISTED {
        return split(line).1;
    }
    line.get(2..).unwrap_or(&[])
}
