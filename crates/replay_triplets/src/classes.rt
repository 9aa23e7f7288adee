// One case of the call that gives the classes of triplets.
use vectors::compared::Compared;
use vectors::{UNWRITTEN, Verdict, slices};

// The point, two slices, two flags, the answer, two outputs, which are lent with the lengths that the line
// has, and the number of classes.
pub fn ir_triplets_at_q(line: &[i64]) -> Option<Verdict> {
    let (q0, line) = line.split_first()?;
    let (d, line) = slices::split(line);
    let (rotations, line) = slices::split(line);
    let ([time_reversal, swappable], line) = line.split_first_chunk::<2>()?;
    let first = slices::after_answer(line);
    let second = slices::after_output(first);
    let mut map_triplets = [UNWRITTEN; 8192];
    let map_triplets = slices::lent(first, &mut map_triplets);
    let mut map_q = [UNWRITTEN; 8192];
    let map_q = slices::lent(second, &mut map_q);
    let mut told = [UNWRITTEN];
    let answer = zone_c::zone_ir_triplets_at_q(
        *q0,
        d,
        rotations,
        *time_reversal != 0,
        *swappable != 0,
        map_triplets,
        map_q,
        &mut told,
    );
    Some(
        Compared::with(line)
            .number(answer)
            .output(map_triplets)
            .output(map_q)
            .numbers(&told)
            .verdict(),
    )
}
