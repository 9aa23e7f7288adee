// One case of the marks of candidates.
use vectors::compared::Compared;
use vectors::{UNWRITTEN, Verdict, slices};

// Five slices, the point, the answer, and the marks.
pub fn mark_candidates(line: &[i64]) -> Option<Verdict> {
    let (d, line) = slices::split(line);
    let (q, line) = slices::split(line);
    let (ps, line) = slices::split(line);
    let (lowest, line) = slices::split(line);
    let (highest, line) = slices::split(line);
    let (point, line) = line.split_first()?;
    let mut marks = [UNWRITTEN; 125];
    let answer = zone_c::zone_mark_candidates(d, q, ps, lowest, highest, *point, &mut marks);
    Some(Compared::with(line).number(answer).output(&marks).verdict())
}
