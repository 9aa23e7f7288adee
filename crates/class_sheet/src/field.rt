// Numbers right in fields of fixed width, and lines of them.
ghost use Rattle.std.specs.Prelude.{◌≡◌, ◌+◌, length};
ghost use Rattle.decimal.specs.Decimal.{signed_decimal};
ghost use Rattle.class_sheet.specs.Code.SheetView.{sign, signed, total, PutRight, PutLine};

use common::Refusal;

// A minus sign or none, after blanks.
fn put_sign(negative: bool, out: &mut [i64]) -> Result<(), Refusal>
    ensures { PutRight (sign negative) (length out.old) result out.new }
{
    out.fill(32);
    if negative {
        let last = out.last_mut().ok_or(Refusal::OutsideLimits)?;
        *last = 45;
    }
    Ok(())
}

// The last digit, and before it those of the tenth.
fn put_digits(negative: bool, n: u64, out: &mut [i64]) -> Result<(), Refusal>
    ensures { PutRight (signed negative n) (length out.old) result out.new }
{
    let (last, before) = out.split_last_mut().ok_or(Refusal::OutsideLimits)?;
    *last = (48 + n % 10) as i64;
    if n < 10 {
        return put_sign(negative, before);
    }
    put_digits(negative, n / 10, before)
}

// The number, if it fits into the slice.
fn put_number(z: i64, out: &mut [i64]) -> Result<(), Refusal>
    ensures { PutRight (signed_decimal z) (length out.old) result out.new }
{
    put_digits(z < 0, z.unsigned_abs(), out)
}

// Numbers in fields of these widths, and a line feed.
pub fn put_line(widths: &[usize], numbers: &[i64], out: &mut [i64]) -> Result<(), Refusal>
    requires same { length numbers.now ≡ length widths.now }
    requires room { length out.old ≡ total widths.now + 1 }
    ensures { PutLine widths.now numbers.now result out.new }
{
    let mut at = 0;
    for (i, &w) in widths.iter().enumerate() {
        put_number(numbers[i], &mut out[at..at + w])?;
        at += w;
    }
    out[at] = 10;
    Ok(())
}
