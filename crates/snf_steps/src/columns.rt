// The steps that clear a column, on a and the matrix that goes with it: P, or the transpose of Q.
ghost use Rattle.std.specs.Prelude.{◌≡◌, ◌<◌, Some};
ghost use Rattle.common.specs.Array.{matrix_of};
ghost use Rattle.snf_steps.specs.Then.{◌then◌};
ghost use Rattle.snf_steps.specs.Elementary.{elementary_swap_rows, elementary_flip_sign_row, below_first, below_second};
ghost use Rattle.snf_steps.specs.Columns as columns;
ghost use Rattle.snf_steps.specs.Code.ColumnsView.{matrices_of, pair_of, entry_of};
ghost use Rattle.snf_steps.specs.Gcd.{extended_gcd};

use crate::{elementary, gcd, mixing};

#[derive(Clone, Copy)]
pub struct Pair {
    pub a: [[i64; 3]; 3],
    pub p: [[i64; 3]; 3],
}

// Both, multiplied from the left.
#[tactic(auto, unfolding(crate::specs::Columns::multiply))]
pub fn multiply(l: [[i64; 3]; 3], s: Pair) -> Option<Pair>
    ensures { pair_of result ≡ columns.multiply (matrix_of l) (matrices_of s) }
{
    if !integer_matrix::matmul_fits(l, s.a, s.p) {
        return None;
    }
    Some(Pair {
        a: integer_matrix::matmul_i(l, s.a),
        p: integer_matrix::matmul_i(l, s.p),
    })
}

// How two rows are combined: into s·i + t·j and v·i + u·j.
#[derive(Clone, Copy)]
pub struct Combination {
    pub s: i64,
    pub t: i64,
    pub v: i64,
    pub u: i64,
}

// So that b becomes 0 by a, and a their gcd.
pub fn combined(a: i64, b: i64) -> Option<Combination>
    ensures { result ≡ (extended_gcd a b then columns.combination a b) }
{
    let g = gcd::extended_gcd(a, b)?;
    Some(Combination {
        s: g.s,
        t: g.t,
        v: elementary::checked_neg_quotient(b, g.r)?,
        u: elementary::checked_quotient(a, g.r)?,
    })
}

// Only where the sizes leave it open are the products tested. Taken apart and built again, a pair is copied without a call.
// Rows and columns are numbers, as the Rust has them, and below 3 by a clause: an enum of three would be a number again at each use.
#[inline(always)]
fn combine(i: usize, j: usize, c: Combination, s: Pair) -> Option<Pair>
    requires { (i < 3) × (j < 3) }
    ensures { pair_of result ≡ columns.multiply (columns.combination_matrix i j c) (matrices_of s) }
{
    let Pair { a, p } = s;
    if i < j && mixing::all_small(c, a, p) {
        let a = mixing::mixed(i, j, c, a);
        let p = mixing::mixed(i, j, c, p);
        return Some(Pair { a, p });
    }
    multiply(
        elementary::elementary_set_zero(i, j, c.s, c.t, c.v, c.u),
        Pair { a, p },
    )
}

// Row j becomes 0 in column i by the pivot in row i. Inlined, as the steps around it are, it has its rows as constants and copies no matrix.
#[tactic(auto, unfolding(crate::specs::Columns::make_zero))]
#[inline(always)]
fn make_zero(i: usize, j: usize, s: Pair) -> Option<Pair>
    requires { (i < 3) × (j < 3) }
    ensures { pair_of result ≡ columns.make_zero i j (entry_of s i i) (entry_of s j i) (matrices_of s) }
{
    let Pair { a, p } = s;
    let b = a[j][i];
    if b == 0 {
        return Some(Pair { a, p });
    }
    combine(i, j, combined(a[i][i], b)?, Pair { a, p })
}

// Rows i and j exchanged in both, as `multiply` does it.
#[tactic(auto, unfolding(crate::specs::Columns::multiply))]
pub fn swap_rows(i: usize, j: usize, s: Pair) -> Pair
    requires { (i < j) × (j < 3) }
    ensures { columns.multiply (matrix_of (elementary_swap_rows i j)) (matrices_of s) ≡ Some (matrices_of result) }
{
    let Pair { a, p } = s;
    let a = elementary::elementary_swap_rows(i, j, a);
    let p = elementary::elementary_swap_rows(i, j, p);
    Pair { a, p }
}

// The pivot's row added to those below, u times and v times.
pub fn add_below(u: i64, v: i64, s: Pair) -> Option<Pair>
    ensures { pair_of result ≡ columns.multiply (matrix_of (below_first u v)) (matrices_of s) }
{
    let Pair { a, p } = s;
    if mixing::both_small(u, v) && mixing::small_matrices(a, p) {
        let a = mixing::added_below(u, v, a);
        let p = mixing::added_below(u, v, p);
        return Some(Pair { a, p });
    }
    multiply(elementary::below_first(u, v), Pair { a, p })
}

// And the second row added to the third.
pub fn add_last(v: i64, s: Pair) -> Option<Pair>
    ensures { pair_of result ≡ columns.multiply (matrix_of (below_second v)) (matrices_of s) }
{
    let Pair { a, p } = s;
    if mixing::is_small(v) && mixing::small_matrices(a, p) {
        let a = mixing::added_last(v, a);
        let p = mixing::added_last(v, p);
        return Some(Pair { a, p });
    }
    multiply(elementary::elementary_add_rows(2, 1, v), Pair { a, p })
}

#[inline(always)]
pub fn flip_row(i: usize, s: Pair) -> Option<Pair>
    requires { i < 3 }
    ensures { pair_of result ≡ columns.multiply (matrix_of (elementary_flip_sign_row i)) (matrices_of s) }
{
    let Pair { a, p } = s;
    if mixing::small_matrices(a, p) {
        let a = mixing::flipped(i, a);
        let p = mixing::flipped(i, p);
        return Some(Pair { a, p });
    }
    multiply(elementary::elementary_flip_sign_row(i), Pair { a, p })
}

// ---- the first column
fn search_first_pivot(a: [[i64; 3]; 3]) -> Option<usize>
    ensures { result ≡ columns.search_first_pivot (matrix_of a) }
{
    a.iter().position(|row| row[0] != 0)
}

fn to_top(i: usize, s: Pair) -> Option<Pair>
    requires { i < 3 }
    ensures { pair_of result ≡ columns.to_top i (matrices_of s) }
{
    if i == 0 {
        return Some(s);
    }
    Some(swap_rows(0, i, s))
}

#[tactic(auto, unfolding(crate::specs::Columns::first_column))]
#[inline(always)]
pub fn first_column(s: Pair) -> Option<Pair>
    ensures { pair_of result ≡ columns.first_column (matrices_of s) }
{
    let Some(i) = search_first_pivot(s.a) else {
        return Some(s);
    };
    make_zero(0, 2, make_zero(0, 1, to_top(i, s)?)?)
}

// ---- the second column
fn second_to_top(s: Pair) -> Option<Pair>
    ensures { pair_of result ≡ columns.second_to_top (matrices_of s) }
{
    if s.a[1][1] == 0 && s.a[2][1] != 0 {
        Some(swap_rows(1, 2, s))
    } else {
        Some(s)
    }
}

#[tactic(auto, unfolding(crate::specs::Columns::second_column))]
#[inline(always)]
pub fn second_column(s: Pair) -> Option<Pair>
    ensures { pair_of result ≡ columns.second_column (matrices_of s) }
{
    make_zero(1, 2, second_to_top(s)?)
}
