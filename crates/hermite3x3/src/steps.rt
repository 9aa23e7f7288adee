// The steps to the Hermite form: each multiplies from the left.
ghost use Rattle.std.specs.Prelude.{◌≡◌, ◌<◌};
ghost use Rattle.common.specs.Array.{matrix_of};
ghost use Rattle.hermite3x3.specs.Hermite3x3 as walk;
ghost use Rattle.hermite3x3.specs.Code.StepsView.{rows_of, entry_of};

use snf_steps::{columns, elementary};

#[inline(always)]
#[tactic(auto, unfolding(crate::specs::Hermite3x3::row_step))]
fn row_step(l: [[i64; 3]; 3], m: [[i64; 3]; 3]) -> Option<[[i64; 3]; 3]>
    ensures { rows_of result ≡ walk.row_step (matrix_of l) (matrix_of m) }
{
    if !integer_matrix::product_fits(l, m) {
        return None;
    }
    Some(integer_matrix::matmul_i(l, m))
}

// Row j becomes 0 in column i by the pivot in row i.
// Rows and columns are numbers, as the Rust has them, and below 3 by a clause: an enum of three would be a number again at each use.
#[inline(always)]
#[tactic(auto, unfolding(crate::specs::Hermite3x3::clear))]
fn clear(i: usize, j: usize, m: [[i64; 3]; 3]) -> Option<[[i64; 3]; 3]>
    requires { (i < 3) × (j < 3) }
    ensures { rows_of result ≡ walk.clear i j (entry_of m i i) (entry_of m j i) (matrix_of m) }
{
    let y = m[j][i];
    if y == 0 {
        return Some(m);
    }
    let c = columns::combined(m[i][i], y)?;
    row_step(elementary::elementary_set_zero(i, j, c.s, c.t, c.v, c.u), m)
}

// Row i, by the number on the diagonal.
#[inline(always)]
#[tactic(auto, unfolding(crate::specs::Hermite3x3::sign))]
fn sign(i: usize, m: [[i64; 3]; 3]) -> Option<[[i64; 3]; 3]>
    requires { i < 3 }
    ensures { rows_of result ≡ walk.sign i (entry_of m i i) (matrix_of m) }
{
    if m[i][i] < 0 {
        return row_step(elementary::elementary_flip_sign_row(i), m);
    }
    Some(m)
}

fn neg_floor(x: i64, p: i64) -> Option<i64>
    ensures { result ≡ walk.neg_floor x p }
{
    x.checked_div_euclid(p)?.checked_neg()
}

// Row i becomes its remainder in column j by the pivot in row j.
#[inline(always)]
#[tactic(auto, unfolding(crate::specs::Hermite3x3::reduce))]
fn reduce(i: usize, j: usize, m: [[i64; 3]; 3]) -> Option<[[i64; 3]; 3]>
    requires { (i < 3) × (j < 3) }
    ensures { rows_of result ≡ walk.reduce i j (entry_of m i j) (entry_of m j j) (matrix_of m) }
{
    let x = m[i][j];
    if x == 0 {
        return Some(m);
    }
    let q = neg_floor(x, m[j][j])?;
    row_step(elementary::elementary_add_rows(i, j, q), m)
}

// ---- the steps in order
#[tactic(auto, unfolding(crate::specs::Hermite3x3::columns))]
fn columns(m: [[i64; 3]; 3]) -> Option<[[i64; 3]; 3]>
    ensures { rows_of result ≡ walk.columns (matrix_of m) }
{
    clear(1, 2, clear(0, 2, clear(0, 1, m)?)?)
}

#[tactic(auto, unfolding(crate::specs::Hermite3x3::signs))]
fn signs(m: [[i64; 3]; 3]) -> Option<[[i64; 3]; 3]>
    ensures { rows_of result ≡ walk.signs (matrix_of m) }
{
    sign(2, sign(1, sign(0, m)?)?)
}

#[tactic(auto, unfolding(crate::specs::Hermite3x3::above))]
fn above(m: [[i64; 3]; 3]) -> Option<[[i64; 3]; 3]>
    ensures { rows_of result ≡ walk.above (matrix_of m) }
{
    reduce(1, 2, reduce(0, 2, reduce(0, 1, m)?)?)
}

#[tactic(auto, unfolding(crate::specs::Hermite3x3::steps))]
pub fn steps(m: [[i64; 3]; 3]) -> Option<[[i64; 3]; 3]>
    ensures { rows_of result ≡ walk.steps (matrix_of m) }
{
    above(signs(columns(m)?)?)
}
