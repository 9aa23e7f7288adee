// 3 by 3 integer matrices by value; products and determinants where every number on the way fits.
#![tactic(auto)]

ghost use Rattle.std.specs.Prelude.{◌≡◌, ◌&&◌, ◌*◌, T, leb, neg_ℤ, ◌+ℤ◌, ◌-ℤ◌};
ghost use Rattle.integer.specs.Checked.{fits64};
ghost use Rattle.common.specs.Matrix.{all_axes, negate, ◌·◌, det, vector};
ghost use Rattle.common.specs.Array.{along, items, matrix_of, rows};
ghost use Rattle.common.specs.IntegerMatrix.{products_fit, dot_fits, product_fits, cross_fits, expand_fits, minors_fit};
ghost use Rattle.common.specs.IntegerMatrix.{det_fits, negation_fits, largest_of, largest};

pub use common::{flat, nested};

fn row_negation_fits(a: [i64; 3]) -> bool
    ensures { result ≡ all_axes (λ k. fits64 (neg_ℤ (along a k))) }
{
    integer::sub_fits(0, a[0]) && integer::sub_fits(0, a[1]) && integer::sub_fits(0, a[2])
}

pub fn negation_fits(m: [[i64; 3]; 3]) -> bool
    ensures { result ≡ negation_fits (matrix_of m) }
{
    let [x, y, z] = m;
    row_negation_fits(x) && row_negation_fits(y) && row_negation_fits(z)
}

fn negate_row(a: [i64; 3]) -> [i64; 3]
    requires { T (all_axes (λ k. fits64 (neg_ℤ (along a k)))) }
    ensures { result ≡ items (vector (λ k. neg_ℤ (along a k))) }
{
    [-a[0], -a[1], -a[2]]
}

pub fn negate_i(m: [[i64; 3]; 3]) -> [[i64; 3]; 3]
    requires { T (negation_fits (matrix_of m)) }
    ensures { result ≡ rows (negate (matrix_of m)) }
{
    let [x, y, z] = m;
    [negate_row(x), negate_row(y), negate_row(z)]
}

// ---- sums of three products
#[inline(always)]
fn products_fit(a: [i64; 3], b: [i64; 3]) -> bool
    ensures { result ≡ products_fit (along a) (along b) }
{
    integer::mul_fits(a[0], b[0]) && integer::mul_fits(a[1], b[1]) && integer::mul_fits(a[2], b[2])
}

fn sums_fit(x: i64, y: i64, z: i64) -> bool
    ensures { result ≡ fits64 (x +ℤ y) && fits64 (x +ℤ y +ℤ z) }
{
    integer::add_fits(x, y) && integer::add_fits(x + y, z)
}

#[inline(always)]
fn dot_fits(a: [i64; 3], b: [i64; 3]) -> bool
    ensures { result ≡ dot_fits (along a) (along b) }
{
    products_fit(a, b) && sums_fit(a[0] * b[0], a[1] * b[1], a[2] * b[2])
}

// ---- products
fn largest_of(a: [i64; 3]) -> u64
    ensures { result ≡ largest_of (along a) }
{
    let [x, y, z] = a;
    x.unsigned_abs().max(y.unsigned_abs()).max(z.unsigned_abs())
}

#[tactic(auto, unfolding(common::specs::IntegerMatrix::largest))]
fn largest(m: [[i64; 3]; 3]) -> u64
    ensures { result ≡ largest (matrix_of m) }
{
    let [x, y, z] = m;
    largest_of(x).max(largest_of(y)).max(largest_of(z))
}

// Three products of numbers of sizes up to x and y add up to less than 2^63. Small sizes need no division.
fn small_product(x: u64, y: u64) -> bool
    ensures { result ≡ leb (x * y) 3074457345618258602 }
{
    if x < 0x4000_0000 && y < 0x4000_0000 {
        return true;
    }
    if x == 0 {
        return true;
    }
    y <= 3074457345618258602 / x
}

// A row of a product: with each column of the other matrix.
#[inline(always)]
fn row_fits(a: [i64; 3], p: [i64; 3], q: [i64; 3], r: [i64; 3]) -> bool
    ensures { result ≡ dot_fits (along a) (along p) && (dot_fits (along a) (along q) && dot_fits (along a) (along r)) }
{
    dot_fits(a, p) && dot_fits(a, q) && dot_fits(a, r)
}

// Each number is tested: beside the product itself the compiler tests and multiplies at once.
#[inline(always)]
#[tactic(auto, unfolding(common::specs::IntegerMatrix::product_fits))]
pub fn product_fits(a: [[i64; 3]; 3], b: [[i64; 3]; 3]) -> bool
    ensures { result ≡ product_fits (matrix_of a) (matrix_of b) }
{
    let [x, y, z] = a;
    let [p, q, r] = common::transpose(b);
    row_fits(x, p, q, r) && row_fits(y, p, q, r) && row_fits(z, p, q, r)
}

// Two products from the left. Only where the sizes leave it open is each number tested.
pub fn matmul_fits(l: [[i64; 3]; 3], a: [[i64; 3]; 3], b: [[i64; 3]; 3]) -> bool
    ensures { result ≡ product_fits (matrix_of l) (matrix_of a) && product_fits (matrix_of l) (matrix_of b) }
{
    if small_product(largest(l), largest(a).max(largest(b))) {
        return true;
    }
    product_fits(l, a) && product_fits(l, b)
}

// Under the name of its test, which the proofs above keep folded.
#[inline(always)]
#[tactic(auto, unfolding(common::specs::IntegerMatrix::product_fits))]
pub fn matmul_i(a: [[i64; 3]; 3], b: [[i64; 3]; 3]) -> [[i64; 3]; 3]
    requires { T (product_fits (matrix_of a) (matrix_of b)) }
    ensures { result ≡ rows (matrix_of a · matrix_of b) }
{
    common::matmul(a, b)
}

// ---- determinants
fn cross_fits(a: i64, b: i64, c: i64, d: i64) -> bool
    ensures { result ≡ cross_fits a b c d }
{
    integer::mul_fits(a, d) && integer::mul_fits(b, c) && integer::sub_fits(a * d, b * c)
}

fn difference_fits(x: i64, y: i64, z: i64) -> bool
    ensures { result ≡ fits64 (x -ℤ y) && fits64 (x -ℤ y +ℤ z) }
{
    integer::sub_fits(x, y) && integer::add_fits(x - y, z)
}

fn expand_fits(a: [i64; 3], b: [i64; 3]) -> bool
    ensures { result ≡ expand_fits (along a) (along b) }
{
    products_fit(a, b) && difference_fits(a[0] * b[0], a[1] * b[1], a[2] * b[2])
}

fn minors_fit(y: [i64; 3], z: [i64; 3]) -> bool
    ensures { result ≡ minors_fit (along y) (along z) }
{
    cross_fits(y[1], y[2], z[1], z[2])
        && cross_fits(y[0], y[2], z[0], z[2])
        && cross_fits(y[0], y[1], z[0], z[1])
}

#[tactic(auto, unfolding(common::specs::IntegerMatrix::det_fits))]
pub fn det_fits(m: [[i64; 3]; 3]) -> bool
    ensures { result ≡ det_fits (matrix_of m) }
{
    let [x, y, z] = m;
    minors_fit(y, z) && expand_fits(x, common::minors(y, z))
}

// As matmul_i.
#[tactic(auto, unfolding(common::specs::IntegerMatrix::det_fits))]
pub fn det_i(m: [[i64; 3]; 3]) -> i64
    requires { T (det_fits (matrix_of m)) }
    ensures { result ≡ det (matrix_of m) }
{
    common::det(m)
}
