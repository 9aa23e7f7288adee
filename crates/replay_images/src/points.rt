// One case of a call that reads the tables of images.
use vectors::compared::Compared;
use vectors::{UNWRITTEN, Verdict, slices};

// The index, six slices, the type, the answer and two numbers told.
pub fn rotate_bz_grid_index(line: &[i64]) -> Option<Verdict> {
    let (index, line) = line.split_first()?;
    let (rotation, line) = slices::split(line);
    let (addresses, line) = slices::split(line);
    let (map, line) = slices::split(line);
    let (table, line) = slices::split(line);
    let (d, line) = slices::split(line);
    let (ps, line) = slices::split(line);
    let (bz_grid_type, line) = line.split_first()?;
    let mut told = [UNWRITTEN; 2];
    let answer = zone_c::zone_rotate_bz_grid_index(
        *index,
        rotation,
        addresses,
        map,
        table,
        d,
        ps,
        *bz_grid_type,
        &mut told,
    );
    Some(Compared::with(line).number(answer).numbers(&told).verdict())
}

// Seven slices, the type, the answer and both outputs, which are lent with the lengths that the line has.
pub fn rotate_bz_grid_indices(line: &[i64]) -> Option<Verdict> {
    let (indices, line) = slices::split(line);
    let (rotation, line) = slices::split(line);
    let (addresses, line) = slices::split(line);
    let (map, line) = slices::split(line);
    let (table, line) = slices::split(line);
    let (d, line) = slices::split(line);
    let (ps, line) = slices::split(line);
    let (bz_grid_type, line) = line.split_first()?;
    let first = slices::after_answer(line);
    let mut out = [UNWRITTEN; 2048];
    let out = slices::lent(first, &mut out);
    let mut fallbacks = [UNWRITTEN; 2048];
    let fallbacks = slices::lent(slices::after_output(first), &mut fallbacks);
    let answer = zone_c::zone_rotate_bz_grid_indices(
        indices,
        rotation,
        addresses,
        map,
        table,
        d,
        ps,
        *bz_grid_type,
        out,
        fallbacks,
    );
    Some(
        Compared::with(line)
            .number(answer)
            .output(out)
            .output(fallbacks)
            .verdict(),
    )
}

// Six slices, the type, the answer and the output, which is lent with the length that the line has.
pub fn neighboring_grid_points(line: &[i64]) -> Option<Verdict> {
    let (points, line) = slices::split(line);
    let (offsets, line) = slices::split(line);
    let (addresses, line) = slices::split(line);
    let (map, line) = slices::split(line);
    let (table, line) = slices::split(line);
    let (d, line) = slices::split(line);
    let (bz_grid_type, line) = line.split_first()?;
    let mut out = [UNWRITTEN; 4096];
    let out = slices::lent(slices::after_answer(line), &mut out);
    let answer = zone_c::zone_neighboring_grid_points(
        points,
        offsets,
        addresses,
        map,
        table,
        d,
        *bz_grid_type,
        out,
    );
    Some(Compared::with(line).number(answer).output(out).verdict())
}
