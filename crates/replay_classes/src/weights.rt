// One case of the weights of the classes.
use vectors::compared::Compared;
use vectors::{UNWRITTEN, Verdict, slices};

// Three slices, the point, the answer, three outputs, which are lent with the lengths that the line has, and
// the numbers of classes and keepers.
pub fn class_weights(line: &[i64]) -> Option<Verdict> {
    let (rotations, line) = slices::split(line);
    let (d, line) = slices::split(line);
    let (ps, line) = slices::split(line);
    let (point, line) = line.split_first()?;
    let first = slices::after_answer(line);
    let second = slices::after_output(first);
    let third = slices::after_output(second);
    let mut weights = [UNWRITTEN; 8192];
    let weights = slices::lent(first, &mut weights);
    let mut members = [UNWRITTEN; 8192];
    let members = slices::lent(second, &mut members);
    let mut keepers = [UNWRITTEN; 256];
    let keepers = slices::lent(third, &mut keepers);
    let mut told = [UNWRITTEN; 2];
    let answer = zone_c::zone_class_weights(
        rotations, d, ps, *point, weights, members, keepers, &mut told,
    );
    Some(
        Compared::with(line)
            .number(answer)
            .output(weights)
            .output(members)
            .output(keepers)
            .numbers(&told)
            .verdict(),
    )
}
