// One case of the class sheet.
use vectors::compared::Compared;
use vectors::{UNWRITTEN, Verdict, slices};

// Two slices, the answer, and the sheet, which is lent with the length that the line has.
pub fn class_sheet(line: &[i64]) -> Option<Verdict> {
    let (class_map, line) = slices::split(line);
    let (triplets, line) = slices::split(line);
    let mut sheet = [UNWRITTEN; 4096];
    let sheet = slices::lent(slices::after_answer(line), &mut sheet);
    let answer = zone_c::zone_class_sheet(class_map, triplets, sheet);
    Some(Compared::with(line).number(answer).output(sheet).verdict())
}
