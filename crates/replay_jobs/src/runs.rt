// A job's bytes stand in a line as runs, the count and the byte of each.
ghost use Rattle.vectors.specs.Line.{Front};

// Puts the bytes of the runs to the front of `held`, as far as it goes, and answers how many there are.
pub fn expand(runs: &[[i64; 2]], held: &mut [u8]) -> usize
    ensures { Front result held.new }
{
    let mut at = 0;
    for [count, byte] in runs {
        let end = at + (held.len() - at).min(count.unsigned_abs() as usize);
        held[at..end].fill((byte.unsigned_abs() % 256) as u8);
        at = end;
    }
    at
}
