// `finalize`: signs, order, and what makes the diagonal numbers divide each other where it can.
ghost use Rattle.std.specs.Prelude.{◌≡◌, ◌&&◌, ◌<◌, Some};
ghost use Rattle.std.specs.Int.Signed.{le_z};
ghost use Rattle.common.specs.Array.{matrix_of};
ghost use Rattle.snf_steps.specs.Finalize as finalize;
ghost use Rattle.snf_steps.specs.Code.Settled.{divides, in_order, off_diagonal_zero, settled};
ghost use Rattle.snf_steps.specs.Code.StagesView.{three_of, triple_of, on_diagonal};

use crate::columns::{flip_row, swap_rows};
use crate::elementary::{checked_is_multiple, elementary_add_rows};
use crate::stages::{
    Triple, both_zero, columns_of, first, on_columns, rows_of, second, with_columns, with_rows,
};

// Rows and columns are numbers, as the Rust has them, and below 3 by a clause: an enum of three would be a number again at each use.
#[inline(always)]
fn make_positive(i: usize, s: Triple) -> Option<Triple>
    requires { i < 3 }
    ensures { triple_of result ≡ finalize.make_positive i (on_diagonal s i) (three_of s) }
{
    if s.a[i][i] < 0 {
        return Some(with_rows(s, flip_row(i, rows_of(s))?));
    }
    Some(s)
}

#[tactic(auto, unfolding(crate::specs::Finalize::make_diag_positive))]
fn make_diag_positive(s: Triple) -> Option<Triple>
    ensures { triple_of result ≡ finalize.make_diag_positive (three_of s) }
{
    make_positive(2, make_positive(1, make_positive(0, s)?)?)
}

fn swap_diag_elems(i: usize, j: usize, s: Triple) -> Triple
    requires { (i < j) × (j < 3) }
    ensures { finalize.swap_diag_elems i j (three_of s) ≡ Some (three_of result) }
{
    let t = with_rows(s, swap_rows(i, j, rows_of(s)));
    with_columns(t, swap_rows(i, j, columns_of(t)))
}

// Taken apart and built again, a triple is copied without a call.
#[inline(always)]
fn order(i: usize, j: usize, s: Triple) -> Option<Triple>
    requires { (i < j) × (j < 3) }
    ensures { triple_of result ≡ finalize.order i j (on_diagonal s i) (on_diagonal s j) (three_of s) }
{
    let Triple { a, p, q } = s;
    if a[i][i] > a[j][j] {
        return Some(swap_diag_elems(i, j, Triple { a, p, q }));
    }
    Some(Triple { a, p, q })
}

#[tactic(auto, unfolding(crate::specs::Finalize::finalize_sort))]
fn finalize_sort(s: Triple) -> Option<Triple>
    ensures { triple_of result ≡ finalize.finalize_sort (three_of s) }
{
    order(0, 1, order(1, 2, order(0, 1, s)?)?)
}

#[tactic(auto, unfolding(crate::specs::Finalize::finalize_disturb))]
#[inline(always)]
fn finalize_disturb(i: usize, j: usize, s: Triple) -> Option<Triple>
    requires { (i < 3) × (j < 3) }
    ensures { triple_of result ≡ finalize.finalize_disturb i j (on_diagonal s i) (on_diagonal s j) (three_of s) }
{
    if checked_is_multiple(s.a[j][j], s.a[i][i])? {
        return Some(s);
    }
    on_columns(elementary_add_rows(i, j, 1), s)
}

fn negate_pq(s: Triple) -> Option<Triple>
    ensures { triple_of result ≡ finalize.negate_pq (three_of s) }
{
    let Triple { a, p, q } = s;
    if !integer_matrix::negation_fits(p) || !integer_matrix::negation_fits(q) {
        return None;
    }
    let p = integer_matrix::negate_i(p);
    let q = integer_matrix::negate_i(q);
    Some(Triple { a, p, q })
}

#[tactic(auto, unfolding(crate::specs::Finalize::flip_pq))]
fn flip_pq(s: Triple) -> Option<Triple>
    ensures { triple_of result ≡ finalize.flip_pq (three_of s) }
{
    if !integer_matrix::det_fits(s.p) {
        return None;
    }
    if integer_matrix::det_i(s.p) < 0 {
        return negate_pq(s);
    }
    Some(s)
}

// Whether a diagonal with positive numbers is left as it is.
fn divides(x: i64, y: i64) -> bool
    ensures { result ≡ divides x y }
{
    checked_is_multiple(y, x).unwrap_or(false)
}

fn sorted(x: i64, y: i64, z: i64) -> bool
    ensures { result ≡ le_z x y && le_z y z }
{
    x <= y && y <= z
}

fn in_order(x: i64, y: i64, z: i64) -> bool
    ensures { result ≡ in_order x y z }
{
    sorted(x, y, z) && divides(x, y) && divides(y, z)
}

fn off_diagonal_zero(m: [[i64; 3]; 3]) -> bool
    ensures { result ≡ off_diagonal_zero (matrix_of m) }
{
    both_zero(m[0][1], m[0][2]) && both_zero(m[1][0], m[2][0]) && both_zero(m[1][2], m[2][1])
}

fn settled(m: [[i64; 3]; 3]) -> bool
    ensures { result ≡ settled (matrix_of m) }
{
    off_diagonal_zero(m) && in_order(m[0][0], m[1][1], m[2][2])
}

// Most diagonals are settled. Whether the two stages are through is not asked.
#[tactic(auto, unfolding(crate::specs::Finalize::put_in_order))]
fn put_in_order(s: Triple) -> Option<Triple>
    ensures { triple_of result ≡ finalize.put_in_order (three_of s) }
{
    if settled(s.a) {
        return Some(s);
    }
    let t = first(finalize_disturb(0, 1, finalize_sort(s)?)?)?.left;
    let u = second(finalize_disturb(1, 2, finalize_sort(t)?)?)?.left;
    Some(u)
}

#[tactic(auto, unfolding(crate::specs::Finalize::finalize))]
pub fn finalize(s: Triple) -> Option<Triple>
    ensures { triple_of result ≡ finalize.finalize (three_of s) }
{
    flip_pq(put_in_order(make_diag_positive(s)?)?)
}
