// The lengths of a sheet, and its lines.
ghost use Rattle.std.specs.Prelude.{◌≡◌, suc, ◌≤◌, ◌<◌, eqb, length};
ghost use Rattle.class_sheet.specs.Sheet.{place_count};
ghost use Rattle.class_sheet.specs.ClassSheet.{class_count};
ghost use Rattle.class_sheet.specs.Code.SheetView.{PutClass, Ready, PutSheet};

use crate::field;
use common::Refusal;

// Whether n is 46 places for each of k classes and for each page; no product leaves 64 bits.
pub fn places_fit(k: usize, n: usize) -> bool
    ensures { result ≡ eqb n (place_count k) }
{
    let lines = n / 46;
    n % 46 == 0 && k <= lines && lines - k == k.div_ceil(40)
}

// The line of class r, after that of a page where one begins.
fn put_class(row: [i64; 5], r: usize, sheet: &mut [i64]) -> Result<(), Refusal>
    requires { place_count (suc r) ≤ length sheet.old }
    ensures { PutClass sheet.old row r result sheet.new }
{
    let at = 46 * (r + r / 40 + 1);
    if r % 40 == 0 {
        field::put_line(&[45], &[(r / 40 + 1) as i64], &mut sheet[at - 46..at])?;
    }
    field::put_line(&[6, 6, 11, 11, 11], &row, &mut sheet[at..at + 46])
}

// The lines of all k classes, from the lowest number up; the weights stand in the last k places, and each is read before its line is put.
pub fn put_sheet(
    class_map: &[i64],
    triplets: &[i64],
    k: usize,
    sheet: &mut [i64],
) -> Result<(), Refusal>
    requires count { k ≡ class_count class_map.now }
    requires ready { Ready class_map.now triplets.now sheet.old }
    ensures { PutSheet class_map.now triplets.now result sheet.new }
{
    let weights = sheet.len() - k;
    let mut r = 0;
    for (p, class) in class_map.iter().enumerate() {
        if *class == p as i64 {
            let [x, y, z] = common::row_at(triplets, 3 * r);
            put_class([*class, sheet[weights + r], x, y, z], r, &mut *sheet)?;
            r += 1;
        }
    }
    Ok(())
}
