// A float stands in a line as the two 32-bit words of its bits, the high one first; several, as their
// count and the words of each.
ghost use Rattle.std.specs.Prelude.{◌≡◌, ◌+◌, ◌*◌, length, drop, IfSome};
ghost use Rattle.std.specs.Float.{binary64};
ghost use Rattle.std.specs.Float.Ieee.{to_bits};
ghost use Rattle.vectors.specs.Line.{size};

use crate::slices;

pub fn float_of(high: i64, low: i64) -> Option<f64> {
    let high = u32::try_from(high.unsigned_abs()).ok()?;
    let low = u32::try_from(low.unsigned_abs()).ok()?;
    Some(float::of_bits(u64::from(high) * 0x1_0000_0000 + u64::from(low)))
}

// A zero's sign too; one pattern for every NaN.
pub fn bits_of(x: f64) -> u64
    ensures { result ≡ to_bits binary64 x }
{
    if x.is_nan() {
        return 0x7ff8_0000_0000_0000;
    }
    x.to_bits()
}

// The floats that a line starts with, read into `held`, and the rest of the line.
pub fn read<'a, 'b>(line: &'a [i64], held: &'b mut [f64]) -> Option<(&'b [f64], &'a [i64])>
    ensures { IfSome result (λ r. (length r.0.now ≡ size line.now) × (r.1.now ≡ drop (size line.now * 2 + 1) line.now)) }
{
    let (words, rest) = slices::split_pairs(line)?;
    let floats = held.get_mut(..words.len())?;
    for (x, [high, low]) in floats.iter_mut().zip(words) {
        *x = float_of(*high, *low)?;
    }
    Some((floats, rest))
}
