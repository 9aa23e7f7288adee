// One case of a function that tells what an address folds to: the index, and the three quotients.
use vectors::compared::Compared;
use vectors::{UNWRITTEN, Verdict, slices};

// After the address and the diagonal: the answer and what was told.
pub fn grid_index_from_address(line: &[i64]) -> Option<Verdict> {
    let (address, line) = slices::split(line);
    let (d, line) = slices::split(line);
    let mut told = [UNWRITTEN; 4];
    let answer = zone_c::zone_grid_index_from_address(address, d, &mut told);
    Some(Compared::with(line).number(answer).numbers(&told).verdict())
}

// After the point and three slices, likewise.
pub fn rotate_grid_index(line: &[i64]) -> Option<Verdict> {
    let (point, line) = line.split_first()?;
    let (rotation, line) = slices::split(line);
    let (d, line) = slices::split(line);
    let (ps, line) = slices::split(line);
    let mut told = [UNWRITTEN; 4];
    let answer = zone_c::zone_rotate_grid_index(*point, rotation, d, ps, &mut told);
    Some(Compared::with(line).number(answer).numbers(&told).verdict())
}
