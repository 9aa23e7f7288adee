// Reciprocal-space point group construction.
#![tactic(auto)]

ghost use Rattle.std.specs.Prelude.{◌≡◌, true, map, ◌+◌, ◌*◌, ◌≤◌, ◌<◌, T, neg_ℤ, negsuc, length, drop, replicate};
ghost use Rattle.std.proofs.Math.Seq.{paste};
ghost use Rattle.common.specs.Array.{matrix_at, matrices_from, matrices, Sized};
ghost use Rattle.common.specs.Limits.{all_within};
ghost use Rattle.recip_rotations.specs.Unique.{same_matrix, among, with_new, unique};
ghost use Rattle.recip_rotations.specs.Flat.{laid};
ghost use Rattle.recip_rotations.specs.PointGroup.{transposed_if, with_negatives, join_tests, room_tests};
ghost use Rattle.recip_rotations.specs.PointGroup.{input_tests, group_tests, point_group, get_reciprocal_point_group};
ghost use Rattle.recip_rotations.specs.Code.Steps.{same_row, transposed_at, few, Grouped};

use common::Refusal;

// Number by number, since `==` of the two slices takes twice as long in the search below, and of two rows a tenth longer.
fn same_row(a: &[i64], i: usize, b: &[i64], j: usize) -> bool
    requires { (i + 3 ≤ length a.now) × (j + 3 ≤ length b.now) }
    ensures { result ≡ same_row a.now i b.now j }
{
    a[i] == b[j] && a[i + 1] == b[j + 1] && a[i + 2] == b[j + 2]
}

// Matrix m of one list and matrix n of another.
pub fn same_matrix(a: &[i64], m: usize, b: &[i64], n: usize) -> bool
    requires { (m * 9 + 9 ≤ length a.now) × (n * 9 + 9 ≤ length b.now) }
    ensures { result ≡ same_matrix (matrix_at a.now m) (matrix_at b.now n) }
{
    let i = m * 9;
    let j = n * 9;
    same_row(a, i, b, j) && same_row(a, i + 3, b, j + 3) && same_row(a, i + 6, b, j + 6)
}

// Whether matrix n of one list is among the first `count` of another. `any` makes the calls a tenth slower.
pub fn contains(a: &[i64], n: usize, list: &[i64], count: usize) -> bool
    requires { (n * 9 + 9 ≤ length a.now) × (count * 9 ≤ length list.now) }
    ensures { result ≡ among (matrix_at a.now n) (matrices_from list.now 0 count) }
{
    for k in 0..count {
        if same_matrix(a, n, list, k) {
            return true;
        }
    }
    false
}

fn transpose_at(list: &mut [i64], at: usize)
    requires { at + 9 ≤ length list.old }
    ensures { list.new ≡ transposed_at list.old at }
{
    list.swap(at + 1, at + 3);
    list.swap(at + 2, at + 6);
    list.swap(at + 5, at + 7);
}

// Rotation n after the first `found` matrices of the output, unless it is among them: how many there are then.
// At most 48: the output has 48 times nine places.
fn keep(rotations: &[i64], n: usize, out: &mut [i64; 432], found: usize) -> Result<usize, Refusal>
    requires { (n * 9 + 9 ≤ length rotations.now) × (found ≤ 48) }
    ensures { let list = with_new (matrices_from out.old 0 found) (matrix_at rotations.now n) in
        Grouped (few list) list out.old out.new result }
{
    if contains(rotations, n, out, found) {
        return Ok(found);
    }
    if found == 48 {
        return Err(Refusal::TooManyRotations);
    }
    let at = n * 9;
    let to = found * 9;
    out[to..to + 9].copy_from_slice(&rotations[at..at + 9]);
    Ok(found + 1)
}

// How many distinct rotations there are, which the output then holds.
fn collect(rotations: &[i64], out: &mut [i64; 432]) -> Result<usize, Refusal>
    ensures { let list = unique (matrices rotations.now) in
        Grouped (few list) list out.old out.new result }
{
    let mut found = 0;
    // By index: `keep` asks for the place of a matrix, as `contains` does.
    for n in 0..rotations.len() / 9 {
        found = keep(rotations, n, out, found)?;
    }
    Ok(found)
}

// The first `count` matrices, transposed where asked for.
fn turn(out: &mut [i64; 432], count: usize, is_transpose: bool)
    requires { count ≤ 48 }
    ensures { out.new ≡ laid (transposed_if is_transpose (matrices_from out.old 0 count)) out.old }
{
    if is_transpose {
        // By index: of what `chunks_exact_mut` lends, a proof knows only the length afterwards.
        for k in 0..count {
            transpose_at(out, k * 9);
        }
    }
}

// The negatives of the first `count` matrices, after them.
fn negatives(out: &mut [i64; 432], count: usize)
    requires room { count ≤ 24 }
    requires sized { Sized 100000 out.old }
    ensures { out.new ≡ paste out.old (count * 9) (map neg_ℤ out.old) (count * 9) }
{
    let half = count * 9;
    // By index: a turn reads one place and writes another of the same list.
    for i in 0..half {
        out[half + i] = -out[i];
    }
}

// Under time reversal the negatives of the first `count` matrices, unless the inversion is among these.
fn join(out: &mut [i64; 432], count: usize, is_time_reversal: bool) -> Result<usize, Refusal>
    requires room { count ≤ 48 }
    requires sized { Sized 100000 out.old }
    ensures { let list = matrices_from out.old 0 count in
        Grouped (join_tests is_time_reversal list) (with_negatives is_time_reversal list) out.old out.new result }
{
    if !is_time_reversal {
        return Ok(count);
    }
    let inversion = [-1, 0, 0, 0, -1, 0, 0, 0, -1];
    if contains(&inversion, 0, out, count) {
        return Ok(count);
    }
    if 24 < count {
        return Err(Refusal::TooManyForInversion);
    }
    negatives(out, count);
    Ok(count * 2)
}

// Of the list, and of the places for its group.
#[tactic(auto, unfolding(crate::specs::PointGroup::input_tests))]
pub fn input_tests(rotations: &[i64], places: usize) -> Result<(), Refusal>
    ensures { result ≡ input_tests rotations.now places }
{
    if !common::whole_matrices(rotations) {
        return Err(Refusal::WrongLength);
    }
    if places != 432 {
        return Err(Refusal::WrongLength);
    }
    if !common::rotations_fit(rotations, 100000) {
        return Err(Refusal::OutsideLimits);
    }
    Ok(())
}

// With the tests of the input. A refusal may leave anything in the output.
fn group_of(
    rotations: &[i64],
    is_time_reversal: bool,
    is_transpose: bool,
    out: &mut [i64],
) -> Result<usize, Refusal>
    ensures { let n = length out.old in
        let list = point_group (matrices rotations.now) is_time_reversal is_transpose in
        Grouped (group_tests rotations.now is_time_reversal is_transpose n) list (replicate n (negsuc 0)) out.new result }
{
    input_tests(rotations, out.len())?;
    // The tests say that there are 432 places.
    let Some(group) = out.as_mut_array::<432>() else {
        unreachable!()
    };
    group.fill(-1);
    let count = collect(rotations, group)?;
    turn(group, count, is_transpose);
    join(group, count, is_time_reversal)
}

// The distinct rotations in order, transposed where asked for, and under time reversal their negatives after them, unless the inversion is among them.
pub fn get_reciprocal_point_group(
    rotations: &[i64],
    is_time_reversal: bool,
    is_transpose: bool,
    out: &mut [i64],
) -> Result<usize, Refusal>
    ensures { record { answer = result; out = out.new } ≡ get_reciprocal_point_group rotations.now is_time_reversal is_transpose (length out.old) }
{
    match group_of(rotations, is_time_reversal, is_transpose, out) {
        Ok(n) => Ok(n),
        Err(r) => {
            out.fill(-1);
            Err(r)
        }
    }
}

// The reciprocal-space point group of real-space rotations.
pub fn reciprocal_rotations(
    rotations: &[i64],
    is_time_reversal: bool,
    out: &mut [i64],
) -> Result<usize, Refusal>
    ensures { record { answer = result; out = out.new } ≡ get_reciprocal_point_group rotations.now is_time_reversal true (length out.old) }
{
    get_reciprocal_point_group(rotations, is_time_reversal, true, out)
}
