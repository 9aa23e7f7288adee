// Sums of products, over the entries of i64 and of f64, in the Rust's order.
ghost use Rattle.std.specs.Prelude.{◌≡◌, T};
ghost use Rattle.common.specs.Matrix.{vector, dot, product_over, apply_over, cross, expand, minors, det_over, ◌▹◌};
ghost use Rattle.common.specs.Array.{along_or, vector_or, vector_of, items, matrix_or, matrix_of, rows};
ghost use Rattle.common.specs.IntegerMatrix.{apply_fits};
ghost use Rattle.common.specs.Fitting.{dot_fits_over, product_fits_over, apply_fits_over, cross_fits_over, expand_fits_over, minors_fit_over, det_fits_over};

use crate::array::transpose;
use crate::entry::Entry;

pub fn dot<N: Entry>(a: [N; 3], b: [N; 3]) -> N
    requires { T (dot_fits_over N.ops N.fits (along_or N.none a) (along_or N.none b)) }
    ensures { result ≡ dot N.ops (along_or N.none a) (along_or N.none b) }
{
    a[0] * b[0] + a[1] * b[1] + a[2] * b[2]
}

// A matrix times a column.
pub fn apply<N: Entry>(m: [[N; 3]; 3], v: [N; 3]) -> [N; 3]
    requires { T (apply_fits_over N.ops N.fits (matrix_or N.none m) (vector_or N.none v)) }
    ensures { result ≡ items (apply_over N.ops (matrix_or N.none m) (vector_or N.none v)) }
{
    let [x, y, z] = m;
    [dot(x, v), dot(y, v), dot(z, v)]
}

// At i64, where every number on the way fits; the Rust's name for it.
pub fn matvec_ii(a: [[i64; 3]; 3], b: [i64; 3]) -> [i64; 3]
    requires { T (apply_fits (matrix_of a) (vector_of b)) }
    ensures { result ≡ items (matrix_of a ▹ vector_of b) }
{
    apply(a, b)
}

// Each row with each column of the other matrix.
#[inline(always)]
pub fn matmul<N: Entry>(a: [[N; 3]; 3], b: [[N; 3]; 3]) -> [[N; 3]; 3]
    requires { T (product_fits_over N.ops N.fits (matrix_or N.none a) (matrix_or N.none b)) }
    ensures { result ≡ rows (product_over N.ops (matrix_or N.none a) (matrix_or N.none b)) }
{
    let [x, y, z] = a;
    let [p, q, r] = transpose(b);
    [
        [dot(x, p), dot(x, q), dot(x, r)],
        [dot(y, p), dot(y, q), dot(y, r)],
        [dot(z, p), dot(z, q), dot(z, r)],
    ]
}

// The determinant of rows a b and c d.
pub fn cross<N: Entry>(a: N, b: N, c: N, d: N) -> N
    requires { T (cross_fits_over N.ops N.fits a b c d) }
    ensures { result ≡ cross N.ops a b c d }
{
    a * d - b * c
}

// The determinants of two rows without a column, from the first column on.
pub fn minors<N: Entry>(y: [N; 3], z: [N; 3]) -> [N; 3]
    requires { T (minors_fit_over N.ops N.fits (along_or N.none y) (along_or N.none z)) }
    ensures { result ≡ items (vector (minors N.ops (along_or N.none y) (along_or N.none z))) }
{
    [
        cross(y[1], y[2], z[1], z[2]),
        cross(y[0], y[2], z[0], z[2]),
        cross(y[0], y[1], z[0], z[1]),
    ]
}

// A row with its three minors.
fn expand<N: Entry>(a: [N; 3], b: [N; 3]) -> N
    requires { T (expand_fits_over N.ops N.fits (along_or N.none a) (along_or N.none b)) }
    ensures { result ≡ expand N.ops (along_or N.none a) (along_or N.none b) }
{
    a[0] * b[0] - a[1] * b[1] + a[2] * b[2]
}

pub fn det<N: Entry>(m: [[N; 3]; 3]) -> N
    requires { T (det_fits_over N.ops N.fits (matrix_or N.none m)) }
    ensures { result ≡ det_over N.ops (matrix_or N.none m) }
{
    let [x, y, z] = m;
    expand(x, minors(y, z))
}
