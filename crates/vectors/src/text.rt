// Lines and decimal numbers of a text.
ghost use Rattle.std.specs.Prelude.{◌≤◌, length, IfSome};

// The number that a word is: digits, after a minus where it is negative.
fn number(word: &[u8]) -> Option<i64> {
    if word.starts_with(b"+") {
        return None;
    }
    str::from_utf8(word).ok()?.parse().ok()
}

// The numbers of a line, one space between two, read into `out`.
pub fn numbers<'a>(line: &[u8], out: &'a mut [i64]) -> Option<&'a mut [i64]>
    ensures { IfSome result (λ r. length r.now ≤ length out.old) }
{
    let mut count = 0;
    for word in line.split(|b| *b == b' ') {
        *out.get_mut(count)? = number(word)?;
        count += 1;
    }
    out.get_mut(..count)
}

// The numbers of a line, as they stand or with another last one: then the case must differ.
pub fn case<'a>(line: &[u8], altered: bool, out: &'a mut [i64]) -> Option<&'a [i64]>
    ensures { IfSome result (λ r. length r.now ≤ length out.old) }
{
    let numbers = numbers(line, out)?;
    if altered {
        let last = numbers.last_mut()?;
        *last = if *last == 0 { 1 } else { 0 };
    }
    Some(numbers)
}
