// One case of a function on slices with one output.

use vectors::compared::Compared;
use vectors::{UNWRITTEN, Verdict, slices};

// The answer, the output, which is lent with the length that the line has, and what was told.
fn with_output<F: FnOnce(&mut [i64], &mut [i64]) -> i64>(
    line: &[i64],
    told: &mut [i64],
    call: F,
) -> Option<Verdict>
    requires { F.IsAlwaysCallable call }
{
    let mut out = [UNWRITTEN; 8192];
    let out = slices::lent(slices::after_answer(line), &mut out);
    let answer = call(out, told);
    Some(
        Compared::with(line)
            .number(answer)
            .output(out)
            .numbers(told)
            .verdict(),
    )
}

pub fn transform_rotations(line: &[i64]) -> Option<Verdict> {
    let (rotations, line) = slices::split(line);
    let (d, line) = slices::split(line);
    let (q, line) = slices::split(line);
    with_output(line, &mut [], |out, _| {
        zone_c::zone_transform_rotations(rotations, d, q, out)
    })
}

pub fn ir_grid_map(line: &[i64]) -> Option<Verdict> {
    let (rotations, line) = slices::split(line);
    let (d, line) = slices::split(line);
    let (ps, line) = slices::split(line);
    with_output(line, &mut [UNWRITTEN], |out, told| {
        zone_c::zone_ir_grid_map(rotations, d, ps, out, told)
    })
}

pub fn all_grid_addresses(line: &[i64]) -> Option<Verdict> {
    let (d, line) = slices::split(line);
    with_output(
        line,
        &mut [],
        |out, _| zone_c::zone_all_grid_addresses(d, out),
    )
}

// A flag stands before the answer.
pub fn reciprocal_rotations(line: &[i64]) -> Option<Verdict> {
    let (list, line) = slices::split(line);
    let (time_reversal, line) = line.split_first()?;
    with_output(line, &mut [UNWRITTEN], |out, told| {
        zone_c::zone_reciprocal_rotations(list, *time_reversal != 0, out, told)
    })
}

// Likewise.
pub fn reciprocal_group(line: &[i64]) -> Option<Verdict> {
    let (list, line) = slices::split(line);
    let (time_reversal, line) = line.split_first()?;
    with_output(line, &mut [UNWRITTEN], |out, told| {
        zone_c::zone_reciprocal_group(list, *time_reversal != 0, out, told)
    })
}

// Two flags.
pub fn reciprocal_point_group(line: &[i64]) -> Option<Verdict> {
    let (list, line) = slices::split(line);
    let ([time_reversal, transpose], line) = line.split_first_chunk::<2>()?;
    with_output(line, &mut [UNWRITTEN], |out, told| {
        zone_c::zone_reciprocal_point_group(list, *time_reversal != 0, *transpose != 0, out, told)
    })
}
