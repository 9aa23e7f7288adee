// One case of a job file: its bytes as runs, the answer, and the text that the program prints.
ghost use Rattle.std.specs.Prelude.{◌≤◌, IfSome};

use crate::runs;
use vectors::compared::Compared;
use vectors::{UNWRITTEN, UNWRITTEN_BYTE, UNWRITTEN_FLOAT, Verdict, slices};

// The bytes as numbers in the front of `out`, as far as both go.
fn widened<'a>(bytes: &[u8], out: &'a mut [i64]) -> &'a [i64] {
    for (n, b) in out.iter_mut().zip(bytes) {
        *n = i64::from(*b);
    }
    &out[..bytes.len().min(out.len())]
}

// The line goes on with the first `count` bytes, and ends.
fn ends_with(line: Compared<'_>, text: &[u8; 8192], count: usize) -> Verdict {
    let mut numbers = [UNWRITTEN; 8192];
    let count = count.min(text.len());
    line.output(widened(&text[..count], &mut numbers)).verdict()
}

// The bytes of a job, and the rest of the line from the export's answer on. A job of over 8,193 bytes is cut,
// as the program reads it.
fn job<'a>(line: &'a [i64], held: &mut [u8; 8193]) -> Option<(usize, &'a [i64])>
    ensures { IfSome result (λ r. r.0 ≤ 8193) }
{
    let (runs, line) = slices::split_pairs(line)?;
    // no answer at all
    line.first()?;
    Some((runs::expand(runs, held), line))
}

// What the program prints, which stands after the export's answer.
pub fn printed(line: &[i64]) -> Option<Verdict> {
    let mut held = [0; 8193];
    let (size, line) = job(line, &mut held)?;
    let mut addresses = [UNWRITTEN; 3072];
    let mut map = [UNWRITTEN; 2305];
    let mut grg = [UNWRITTEN; 1024];
    let mut classes = [UNWRITTEN; 256];
    let mut points = [UNWRITTEN; 256];
    let mut triplets = [UNWRITTEN; 768];
    let mut left = [UNWRITTEN; 256];
    let mut lengths = [UNWRITTEN_FLOAT; 256];
    let mut cells = [UNWRITTEN; 768];
    let mut text = [UNWRITTEN_BYTE; 8192];
    let count = zone_print::print_job(
        &held[..size],
        &mut addresses,
        &mut map,
        &mut grg,
        &mut classes,
        &mut points,
        &mut triplets,
        &mut left,
        &mut lengths,
        &mut cells,
        &mut text,
    );
    Some(ends_with(Compared::with(slices::after_answer(line)), &text, count))
}

// The export's answer, and its text: the listing, or after a refusal zeros.
pub fn exported(line: &[i64]) -> Option<Verdict> {
    let mut held = [0; 8193];
    let (size, line) = job(line, &mut held)?;
    let mut text = [UNWRITTEN_BYTE; 8192];
    let mut told = [UNWRITTEN];
    let answer = zone_c::zone_list(&held[..size], &mut text, &mut told);
    if answer == 0 {
        let count = told[0].unsigned_abs() as usize;
        return Some(ends_with(Compared::with(line).number(answer), &text, count));
    }
    if line.starts_with(&[answer]) && told == [-1] && text == [0; 8192] {
        return Some(Verdict::Same);
    }
    Some(Verdict::Differs)
}
