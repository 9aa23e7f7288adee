// Lengths in the reciprocal lattice, whose basis vectors are the columns of a matrix.
ghost use Rattle.std.specs.Prelude.{◌≡◌, ◌≤◌, ◌*◌, pos, nat_abs, T};
ghost use Rattle.std.specs.Float.{binary64};
ghost use Rattle.std.specs.Float.Ieee.{div, of_int, le};
ghost use Rattle.float.specs.Rounding.{abs_of};
ghost use Rattle.common.specs.Matrix.{side, all_axes};
ghost use Rattle.common.specs.Array.{sides_of, items};
ghost use Rattle.common.specs.FloatMatrix.{float_vector, float_matrix};
ghost use Rattle.common.specs.Limits.{diagonal_fits};
ghost use Rattle.bzsearch.specs.Lattice.{lattice_fits, squares_from0, larger, bz_tolerance, cross_d, norm, dual_lengths_of, singular};

use crate::types::BzSearch;

fn squares_from_0(x: f64, y: f64, z: f64) -> f64
    ensures { result ≡ squares_from0 x y z }
{
    0.0 + x * x + y * y + z * z
}

// Over the square of a diagonal number.
fn step_squared(a: [f64; 3], d: i64) -> f64
    requires { nat_abs d ≤ 256 }
    ensures { let v = float_vector a in result ≡ div binary64 (squares_from0 v.x v.y v.z) (of_int binary64 (pos (nat_abs d * nat_abs d))) }
{
    let [x, y, z] = a;
    squares_from_0(x, y, z) / (d * d) as f64
}

// The Rust's comparison, and no `max`: of a NaN, and of zeros of both signs, that one says less.
fn larger(most: f64, x: f64) -> f64
    ensures { result ≡ larger most x }
{
    if x > most { x } else { most }
}

// Tolerance for BZ reduction, in units of squared length.
pub fn bz_tolerance(m: [[f64; 3]; 3], d: [i64; 3]) -> f64
    requires { T (diagonal_fits d) }
    ensures { result ≡ bz_tolerance (float_matrix m) (sides_of d) }
{
    let [a, b, c] = common::transpose(m);
    let x = step_squared(a, d[0]);
    let y = step_squared(b, d[1]);
    let z = step_squared(c, d[2]);
    larger(larger(larger(0.0, x), y), z) * BzSearch::TOLERANCE_FACTOR
}

// The vector product. The middle one of common's `minors` has the other sign.
fn cross(a: [f64; 3], b: [f64; 3]) -> [f64; 3]
    ensures { result ≡ items (cross_d (side (float_vector a)) (side (float_vector b))) }
{
    [
        common::cross(a[1], a[2], b[1], b[2]),
        common::cross(a[2], a[0], b[2], b[0]),
        common::cross(a[0], a[1], b[0], b[1]),
    ]
}

fn norm(a: [f64; 3]) -> f64
    ensures { result ≡ norm (float_vector a) }
{
    float::sqrt(common::dot(a, a))
}

// Of two columns, where det is the size of the determinant.
fn dual_length(a: [f64; 3], b: [f64; 3], det: f64) -> f64
    ensures { result ≡ div binary64 (norm (cross_d (side (float_vector a)) (side (float_vector b)))) det }
{
    norm(cross(a, b)) / det
}

// Lengths of the dual vectors of the columns, i.e., of the rows of the inverse.
pub fn dual_lengths(m: [[f64; 3]; 3]) -> [f64; 3]
    ensures { result ≡ items (dual_lengths_of (float_matrix m)) }
{
    let [x, y, z] = common::transpose(m);
    let det = float::abs(float_matrix::det_d(m));
    [
        dual_length(y, z, det),
        dual_length(z, x, det),
        dual_length(x, y, det),
    ]
}

// There are no such lengths.
pub fn is_singular(m: [[f64; 3]; 3]) -> bool
    ensures { result ≡ singular (float_matrix m) }
{
    let det = float_matrix::det_d(m);
    det == 0.0 || !float::is_finite(det)
}

// At f64, where a size is compared as IEEE 754 does; common's `within`, `row_within` and `matrix_within` are of whole numbers.
fn entry_fits(x: f64) -> bool
    ensures { result ≡ le (abs_of x) (of_int binary64 (pos 1000000)) }
{
    float::abs(x) <= 1000000.0
}

fn row_fits(a: [f64; 3]) -> bool
    ensures { result ≡ all_axes (λ k. le (abs_of (side (float_vector a) k)) (of_int binary64 (pos 1000000))) }
{
    entry_fits(a[0]) && entry_fits(a[1]) && entry_fits(a[2])
}

pub fn lattice_fits(m: [[f64; 3]; 3]) -> bool
    ensures { result ≡ lattice_fits (float_matrix m) }
{
    row_fits(m[0]) && row_fits(m[1]) && row_fits(m[2])
}
