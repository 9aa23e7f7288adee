// One case of the call that chooses the images of triplets. No line has over LISTED lengths left over, so
// that each is compared.
use vectors::compared::Compared;
use vectors::{UNWRITTEN, UNWRITTEN_FLOAT, Verdict, floats, slices};

// The point, six slices, the lattice, the type, the answer, two outputs, the lengths left over and the cells.
// They are lent with the lengths that the line has.
pub fn bz_triplets_at_q(line: &[i64]) -> Option<Verdict> {
    let (q0, line) = line.split_first()?;
    let (addresses, line) = slices::split(line);
    let (map, line) = slices::split(line);
    let (table, line) = slices::split(line);
    let (class_map, line) = slices::split(line);
    let (d, line) = slices::split(line);
    let (q, line) = slices::split(line);
    let mut lattice = [0.0; 16];
    let (lattice, line) = floats::read(line, &mut lattice)?;
    let (bz_grid_type, line) = line.split_first()?;
    let first = slices::after_answer(line);
    let second = slices::after_output(first);
    let third = slices::after_output(second);
    let (_, fourth) = slices::split_pairs(third)?;
    let mut out = [UNWRITTEN; 2048];
    let out = slices::lent(first, &mut out);
    let mut left = [UNWRITTEN; 1024];
    let left = slices::lent(second, &mut left);
    let mut left_length = [UNWRITTEN_FLOAT; 1024];
    let left_length = slices::lent(third, &mut left_length);
    let mut cells = [UNWRITTEN; 2048];
    let cells = slices::lent(fourth, &mut cells);
    let answer = zone_c::zone_bz_triplets_at_q(
        *q0,
        addresses,
        map,
        table,
        class_map,
        d,
        q,
        lattice,
        *bz_grid_type,
        out,
        left,
        left_length,
        cells,
    );
    Some(
        Compared::with(line)
            .number(answer)
            .output(out)
            .output(left)
            .floats(left_length)
            .output(cells)
            .verdict(),
    )
}
