// `first` and `second`: rows with p, columns with q, then what the pivot divides.
ghost use Rattle.std.specs.Prelude.{◌≡◌, ◌&&◌};
ghost use Rattle.integer.specs.Checked.{is_zero};
ghost use Rattle.common.specs.Array.{matrix_of};
ghost use Rattle.snf_steps.specs.Columns as columns;
ghost use Rattle.snf_steps.specs.Code.ColumnsView.{matrices_of};
ghost use Rattle.snf_steps.specs.Stages as stages;
ghost use Rattle.snf_steps.specs.Code.StagesView.{three_of, triple_of, outcome_of};

use crate::columns::{Pair, add_below, add_last, first_column, multiply, second_column};
use crate::elementary::{checked_is_multiple, checked_neg_quotient};

// a, P and the transpose of Q.
#[derive(Clone, Copy)]
pub struct Triple {
    pub a: [[i64; 3]; 3],
    pub p: [[i64; 3]; 3],
    pub q: [[i64; 3]; 3],
}

// What a stage leaves, and whether it is through: both ways leave a triple, so an enum of the two would only add a match to read it.
#[derive(Clone, Copy)]
pub struct Outcome {
    pub left: Triple,
    pub done: bool,
}

pub fn rows_of(s: Triple) -> Pair
    ensures { matrices_of result ≡ stages.rows_of (three_of s) }
{
    let Triple { a, p, .. } = s;
    Pair { a, p }
}

pub fn columns_of(s: Triple) -> Pair
    ensures { matrices_of result ≡ stages.columns_of (three_of s) }
{
    let a = common::transpose(s.a);
    let p = s.q;
    Pair { a, p }
}

pub fn with_rows(s: Triple, u: Pair) -> Triple
    ensures { three_of result ≡ stages.with_rows (three_of s) (matrices_of u) }
{
    let Pair { a, p } = u;
    let q = s.q;
    Triple { a, p, q }
}

pub fn with_columns(s: Triple, u: Pair) -> Triple
    ensures { three_of result ≡ stages.with_columns (three_of s) (matrices_of u) }
{
    let a = common::transpose(u.a);
    let p = s.p;
    let q = u.p;
    Triple { a, p, q }
}

pub fn on_columns(l: [[i64; 3]; 3], s: Triple) -> Option<Triple>
    ensures { triple_of result ≡ stages.on_columns (columns.multiply (matrix_of l)) (three_of s) }
{
    Some(with_columns(s, multiply(l, columns_of(s))?))
}

// ---- first
#[tactic(auto, unfolding(crate::specs::Stages::one_loop))]
fn first_one_loop(s: Triple) -> Option<Triple>
    ensures { triple_of result ≡ stages.one_loop columns.first_column (three_of s) }
{
    let t = with_rows(s, first_column(rows_of(s))?);
    Some(with_columns(t, first_column(columns_of(t))?))
}

fn first_finalize(d: i64, y: i64, z: i64, s: Triple) -> Option<Outcome>
    ensures { outcome_of result ≡ stages.first_finalize d y z (three_of s) }
{
    let u = checked_neg_quotient(y, d)?;
    let v = checked_neg_quotient(z, d)?;
    let t = with_rows(s, add_below(u, v, rows_of(s))?);
    Some(Outcome {
        left: t,
        done: true,
    })
}

pub fn both_zero(y: i64, z: i64) -> bool
    ensures { result ≡ is_zero y && is_zero z }
{
    y == 0 && z == 0
}

fn first_tests(d: i64, y: i64, z: i64, s: Triple) -> Option<Outcome>
    ensures { outcome_of result ≡ stages.first_tests d y z (three_of s) }
{
    if both_zero(y, z) {
        return Some(Outcome {
            left: s,
            done: true,
        });
    }
    if checked_is_multiple(y, d)? && checked_is_multiple(z, d)? {
        return first_finalize(d, y, z, s);
    }
    Some(Outcome {
        left: s,
        done: false,
    })
}

// Where the first row and column are clear the steps change nothing.
#[tactic(auto, unfolding(crate::specs::Stages::first))]
pub fn first(s: Triple) -> Option<Outcome>
    ensures { outcome_of result ≡ stages.first (three_of s) }
{
    if both_zero(s.a[0][1], s.a[0][2]) && both_zero(s.a[1][0], s.a[2][0]) {
        return Some(Outcome {
            left: s,
            done: true,
        });
    }
    let t = first_one_loop(s)?;
    first_tests(t.a[0][0], t.a[1][0], t.a[2][0], t)
}

// ---- second: its own functions, as one with the column's step for a parameter would have a contract about every step that may be passed
#[tactic(auto, unfolding(crate::specs::Stages::one_loop))]
fn second_one_loop(s: Triple) -> Option<Triple>
    ensures { triple_of result ≡ stages.one_loop columns.second_column (three_of s) }
{
    let t = with_rows(s, second_column(rows_of(s))?);
    Some(with_columns(t, second_column(columns_of(t))?))
}

fn second_finalize(d: i64, z: i64, s: Triple) -> Option<Outcome>
    ensures { outcome_of result ≡ stages.second_finalize d z (three_of s) }
{
    let v = checked_neg_quotient(z, d)?;
    let t = with_rows(s, add_last(v, rows_of(s))?);
    Some(Outcome {
        left: t,
        done: true,
    })
}

fn second_tests(d: i64, z: i64, s: Triple) -> Option<Outcome>
    ensures { outcome_of result ≡ stages.second_tests d z (three_of s) }
{
    if z == 0 {
        return Some(Outcome {
            left: s,
            done: true,
        });
    }
    if checked_is_multiple(z, d)? {
        return second_finalize(d, z, s);
    }
    Some(Outcome {
        left: s,
        done: false,
    })
}

// Where the second row and column are clear the steps change nothing.
#[tactic(auto, unfolding(crate::specs::Stages::second))]
pub fn second(s: Triple) -> Option<Outcome>
    ensures { outcome_of result ≡ stages.second (three_of s) }
{
    if both_zero(s.a[1][2], s.a[2][1]) {
        return Some(Outcome {
            left: s,
            done: true,
        });
    }
    let t = second_one_loop(s)?;
    second_tests(t.a[1][1], t.a[2][1], t)
}
