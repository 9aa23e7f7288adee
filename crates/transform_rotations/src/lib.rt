// Transform reciprocal-space rotations into rotations of the grid.
#![tactic(auto)]

ghost use Rattle.std.specs.Prelude.{◌≡◌, true, ◌&&◌, [], ◌+◌, ◌≤◌, Ok, T, nat_abs, length, get_or, map};
ghost use Rattle.std.specs.Float.{nan, binary64};
ghost use Rattle.std.specs.Float.Ieee.{div};
ghost use Rattle.std.proofs.lemmas.List.Edits.{sets};
ghost use Rattle.common.specs.Tested.{require, Accepted};
ghost use Rattle.common.specs.declared.Refusal.TheVariants.{SymmetryBroken};
ghost use Rattle.float.specs.Rounding.{nint_of};
ghost use Rattle.common.specs.Matrix.{all_axes, cross, entries, map_vec};
ghost use Rattle.common.specs.Array.{axis_index, along, vector_of, items, matrix_of, rows, matrices, flat, Sized};
ghost use Rattle.common.specs.Every.{every};
ghost use Rattle.common.specs.FloatMatrix.{floats, row_d, float_vector, float_matrix};
ghost use Rattle.common.specs.Limits.{all_within, matrix_within, whole_matrices, diagonal_fits};
ghost use Rattle.transform_rotations.specs.Transform.{to_d, is_whole, rounded};
ghost use Rattle.transform_rotations.specs.TransformRotations.{singular_q, all_whole, transformed_list, input_tests, transform_tests, transform_rotations};
ghost use Rattle.transform_rotations.specs.Code.Steps.{inverse_row, inverse_over, scaled_row, transform_over, transform_by, is_near, near, all_near};

use common::{BoundedMatrix, Refusal, Rotations};

const IDENTITY_TOL: f64 = 0.00001;

// A cofactor over the determinant.
fn cofactor_over(a: f64, b: f64, c: f64, d: f64, det: f64) -> f64
    ensures { result ≡ div binary64 (cross floats a b c d) det }
{
    common::cross(a, b, c, d) / det
}

// A row of the inverse, from the two columns after its number.
fn inverse_row(a: [f64; 3], b: [f64; 3], det: f64) -> [f64; 3]
    ensures { result ≡ inverse_row a b det }
{
    [
        cofactor_over(a[1], b[1], a[2], b[2], det),
        cofactor_over(a[2], b[2], a[0], b[0], det),
        cofactor_over(a[0], b[0], a[1], b[1], det),
    ]
}

// Where det is m's, and not 0.
fn inverse_f64(m: [[f64; 3]; 3], det: f64) -> [[f64; 3]; 3]
    ensures { result ≡ rows (inverse_over (float_matrix m) det) }
{
    let [x, y, z] = common::transpose(m);
    [
        inverse_row(y, z, det),
        inverse_row(z, x, det),
        inverse_row(x, y, det),
    ]
}

// Row j of D·m·D⁻¹.
fn scaled_row(a: [f64; 3], dj: f64, d: [f64; 3]) -> [f64; 3]
    ensures { result ≡ scaled_row a dj d }
{
    [a[0] * dj / d[0], a[1] * dj / d[1], a[2] * dj / d[2]]
}

#[tactic(auto, unfolding(crate::specs::Code::Steps::transform_over))]
fn transform(q_inv: [[f64; 3]; 3], q: [[f64; 3]; 3], d: [f64; 3], r: [[f64; 3]; 3]) -> [[f64; 3]; 3]
    ensures { result ≡ rows (transform_over (float_matrix q_inv) (float_matrix q) (float_vector d) (float_matrix r)) }
{
    let [x, y, z] = float_matrix::matmul_d(float_matrix::matmul_d(q_inv, r), q);
    [
        scaled_row(x, d[0], d),
        scaled_row(y, d[1], d),
        scaled_row(z, d[2], d),
    ]
}

// A row of a rotation as f64. With the limit in force the casts are exact, and take a tenth less of the call than `float_matrix`'s.
fn row_to_d(a: [i64; 3]) -> [f64; 3]
    requires { Sized 100 a }
    ensures { result ≡ row_d a }
{
    [a[0] as f64, a[1] as f64, a[2] as f64]
}

fn to_d(r: BoundedMatrix<100>) -> [[f64; 3]; 3]
    ensures { result ≡ rows (to_d (matrix_of r.m)) }
{
    let [x, y, z] = r.m;
    [row_to_d(x), row_to_d(y), row_to_d(z)]
}

// A guess at x rounded: x + 2^52 + 2^51 has in its last 52 bits the whole number nearest to x, plus 2^51, if that is of a size below 2^51.
// Nothing but its size is promised of it.
fn guess(x: f64) -> i64
    ensures { nat_abs result ≤ 9007199254740992 }
{
    let t = x + 6755399441055744.0;
    if t > 0.0 {
        return (f64::to_bits(t) % 0x10_0000_0000_0000) as i64 - 0x8_0000_0000_0000;
    }
    0
}

fn guess_row(a: [f64; 3]) -> [i64; 3]
    ensures { Sized 9007199254740992 result }
{
    [guess(a[0]), guess(a[1]), guess(a[2])]
}

fn is_entry(n: i64, x: f64) -> bool
    requires { nat_abs n ≤ 9007199254740992 }
    ensures { T result → (nint_of x ≡ n) × (is_near x ≡ true) }
{
    n as f64 == x
}

// Whether the guess is the row. Nothing is promised where it is not.
fn is_row(n: [i64; 3], a: [f64; 3]) -> bool
    requires { Sized 9007199254740992 n }
    ensures { T result → (items (map_vec nint_of (float_vector a)) ≡ n) × (all_axes (λ k. is_near (get_or a (axis_index k) nan)) ≡ true) }
{
    is_entry(n[0], a[0]) && is_entry(n[1], a[1]) && is_entry(n[2], a[2])
}

// The guess where it is the entry: a matrix that is not whole by one entry has eight that are.
fn nint_entry(x: f64) -> i64
    ensures { result ≡ nint_of x }
{
    let n = guess(x);
    if is_entry(n, x) {
        return n;
    }
    float::nint(x)
}

fn nint_row(a: [f64; 3]) -> [i64; 3]
    ensures { result ≡ items (map_vec nint_of (float_vector a)) }
{
    [nint_entry(a[0]), nint_entry(a[1]), nint_entry(a[2])]
}

#[tactic(auto, unfolding(crate::specs::Transform::rounded))]
fn nint_matrix(m: [[f64; 3]; 3]) -> [[i64; 3]; 3]
    ensures { result ≡ rows (rounded (float_matrix m)) }
{
    let [x, y, z] = m;
    [nint_row(x), nint_row(y), nint_row(z)]
}

fn near(n: i64, x: f64) -> bool
    ensures { result ≡ near n x }
{
    !(float::abs(float::to_f64(n) - x) > IDENTITY_TOL)
}

fn row_near(n: [i64; 3], a: [f64; 3]) -> bool
    ensures { result ≡ all_axes (λ k. near (along n k) (get_or a (axis_index k) nan)) }
{
    near(n[0], a[0]) && near(n[1], a[1]) && near(n[2], a[2])
}

#[tactic(auto, unfolding(crate::specs::Code::Steps::all_near))]
fn all_near(n: [[i64; 3]; 3], m: [[f64; 3]; 3]) -> bool
    ensures { result ≡ all_near (matrix_of n) (float_matrix m) }
{
    row_near(n[0], m[0]) && row_near(n[1], m[1]) && row_near(n[2], m[2])
}

// The entries rounded, where all are near. Most are whole numbers, which the guess finds in half the time.
#[tactic(auto, unfolding(crate::specs::Transform::is_whole, crate::specs::Transform::rounded, crate::specs::Code::Steps::all_near))]
fn near_matrix(m: [[f64; 3]; 3]) -> Result<[[i64; 3]; 3], Refusal>
    ensures { result ≡ require (is_whole (float_matrix m)) SymmetryBroken (Ok (rows (rounded (float_matrix m)))) }
{
    let [x, y, z] = m;
    let [a, b, c] = [guess_row(x), guess_row(y), guess_row(z)];
    if is_row(a, x) && is_row(b, y) && is_row(c, z) {
        return Ok([a, b, c]);
    }
    let n = nint_matrix(m);
    if !all_near(n, m) {
        return Err(Refusal::SymmetryBroken);
    }
    Ok(n)
}

fn store(out: &mut [i64], at: usize, m: [[i64; 3]; 3])
    requires { at + 9 ≤ length out.old }
    ensures { out.new ≡ sets out.old at (entries (matrix_of m) []) }
{
    out[at..at + 9].copy_from_slice(&common::flat(m));
}

// Each rotation transformed, where all come to whole numbers. A refusal may leave anything in the output.
fn transform_each(
    rotations: Rotations<'_, 100>,
    q_inv: [[f64; 3]; 3],
    q: [[f64; 3]; 3],
    d: [f64; 3],
    out: &mut [i64],
) -> Result<(), Refusal>
    requires same_length { length out.old ≡ length rotations.list.now }
    requires whole { T (whole_matrices rotations.list.now) }
    ensures value { let g = transform_by (float_matrix q_inv) (float_matrix q) (float_vector d) in
        result ≡ require (every (λ r. is_whole (g r)) (matrices rotations.entry.list.now)) SymmetryBroken Accepted }
    ensures out_after { let g = transform_by (float_matrix q_inv) (float_matrix q) (float_vector d) in
        (result ≡ Accepted → out.new ≡ flat (map (λ r. rounded (g r)) (matrices rotations.entry.list.now))) }
{
    // By index: `at` and `store` ask for the place of a matrix.
    for n in 0..rotations.count() {
        let rounded = near_matrix(transform(q_inv, q, d, to_d(rotations.at(n))))?;
        store(out, n * 9, rounded);
    }
    Ok(())
}

// Q, its inverse and D are f64 once for all rotations.
fn transform_all(
    rotations: Rotations<'_, 100>,
    d: [i64; 3],
    q: [[i64; 3]; 3],
    out: &mut [i64],
) -> Result<(), Refusal>
    requires same_length { length out.old ≡ length rotations.list.now }
    requires whole { T (whole_matrices rotations.list.now) }
    ensures value { result ≡ require (all_whole (vector_of d) (matrix_of q) (matrices rotations.entry.list.now)) SymmetryBroken Accepted }
    ensures out_after { result ≡ Accepted → out.new ≡ transformed_list (vector_of d) (matrix_of q) (matrices rotations.entry.list.now) }
{
    let q_d = float_matrix::mat_i_to_d(q);
    let q_inv = inverse_f64(q_d, float_matrix::det_d(q_d));
    transform_each(rotations, q_inv, q_d, float_matrix::row_to_d(d), out)
}

fn singular_q(q: [[i64; 3]; 3]) -> bool
    ensures { result ≡ singular_q (matrix_of q) }
{
    float_matrix::det_d(float_matrix::mat_i_to_d(q)) == 0.0
}

fn entries_fit(rotations: &[i64], d: [i64; 3], q: [[i64; 3]; 3]) -> bool
    ensures { result ≡ all_within 100 rotations.now && (matrix_within 1000 (matrix_of q) && diagonal_fits d) }
{
    common::all_within(rotations, 100) && common::matrix_within(q, 1000) && common::diagonal_fits(d)
}

#[tactic(auto, unfolding(crate::specs::TransformRotations::input_tests))]
fn input_tests(
    rotations: &[i64],
    d: [i64; 3],
    q: [[i64; 3]; 3],
    places: usize,
) -> Result<(), Refusal>
    ensures { result ≡ input_tests rotations.now d q places }
{
    if !common::whole_matrices(rotations) {
        return Err(Refusal::WrongLength);
    }
    if rotations.len() > 1728 {
        return Err(Refusal::OutsideLimits);
    }
    if places != rotations.len() {
        return Err(Refusal::WrongLength);
    }
    if !entries_fit(rotations, d, q) {
        return Err(Refusal::OutsideLimits);
    }
    if singular_q(q) {
        return Err(Refusal::SingularQ);
    }
    Ok(())
}

// With the tests of the input. A refusal may leave anything in the output.
fn transform_tests(
    rotations: &[i64],
    d: [i64; 3],
    q: [[i64; 3]; 3],
    out: &mut [i64],
) -> Result<(), Refusal>
    ensures value { result ≡ transform_tests rotations.now d q (length out.old) }
    ensures out_after { result ≡ Accepted → out.new ≡ transformed_list (vector_of d) (matrix_of q) (matrices rotations.now) }
{
    input_tests(rotations, d, q, out.len())?;
    transform_all(Rotations { list: rotations }, d, q, out)
}

// D·Q⁻¹·R·Q·D⁻¹ of each rotation R, nine numbers each.
pub fn transform_rotations(
    rotations: &[i64],
    d: [i64; 3],
    q: [[i64; 3]; 3],
    out: &mut [i64],
) -> Result<(), Refusal>
    ensures { record { answer = result; out = out.new } ≡ transform_rotations rotations.now d q (length out.old) }
{
    match transform_tests(rotations, d, q, out) {
        Ok(()) => Ok(()),
        Err(r) => {
            out.fill(-1);
            Err(r)
        }
    }
}
