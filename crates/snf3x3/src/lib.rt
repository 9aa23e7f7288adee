// Diagonalising a 3 by 3 integer matrix.
#![tactic(auto)]

ghost use Rattle.std.specs.Prelude.{◌≡◌, ◌≤◌, T, Some, Ok, IfOk};
ghost use Rattle.common.specs.Array.{vector_of, matrix_of, matrix_at};
ghost use Rattle.common.specs.IntegerMatrix.{det_fits};
ghost use Rattle.snf_steps.specs.Code.StagesView.{three_of, outcome_of};
ghost use Rattle.snf3x3.specs.Snf3x3 as walk;
ghost use Rattle.snf3x3.specs.Written.{written};
ghost use Rattle.snf3x3.specs.Diagonalises.{Diagonalises};
ghost use Rattle.snf3x3.specs.FewRounds.{RoundsWithin};

use common::Refusal;
use snf_steps::stages::{Outcome, Triple};
use snf_steps::{finalize, stages};

// P.A.Q is the diagonal matrix of `d_diag`; `rounds` says how many passes it took.
#[derive(Clone, Copy)]
pub struct Snf {
    pub d_diag: [i64; 3],
    pub p: [i64; 9],
    pub q: [i64; 9],
    pub rounds: i64,
}

#[tactic(auto, unfolding(crate::specs::Snf3x3::round))]
fn round(s: Triple) -> Option<Outcome>
    ensures { outcome_of result ≡ walk.round (three_of s) }
{
    let o = stages::first(s)?;
    if !o.done {
        return Some(o);
    }
    stages::second(o.left)
}

// After n rounds.
fn answer(s: Triple, n: usize) -> Snf
    requires { n ≤ 100 }
    ensures { Ok result ≡ written (walk.answer n (Some (three_of s))) }
{
    let a = s.a;
    let p = common::flat(s.p);
    let q = common::flat(common::transpose(s.q));
    Snf {
        d_diag: [a[0][0], a[1][1], a[2][2]],
        p,
        q,
        rounds: n as i64,
    }
}

fn rounds(s: Triple) -> Result<Snf, Refusal>
    ensures { result ≡ written (walk.rounds 100 0 (three_of s)) }
{
    let mut t = s;
    for n in 0..100 {
        let o = round(t).ok_or(Refusal::Overflow)?;
        if o.done {
            let f = finalize::finalize(o.left).ok_or(Refusal::Overflow)?;
            return Ok(answer(f, n + 1));
        }
        t = o.left;
    }
    Err(Refusal::NotConverged)
}

// The walk, on a matrix whose determinant fits.
fn diagonalise(a: [[i64; 3]; 3]) -> Result<Snf, Refusal>
    requires { T (det_fits (matrix_of a)) }
    ensures { result ≡ written (walk.diagonalise (matrix_of a)) }
{
    if integer_matrix::det_i(a) == 0 {
        return Err(Refusal::Singular);
    }
    let p = [[1, 0, 0], [0, 1, 0], [0, 0, 1]];
    let q = p;
    rounds(Triple { a, p, q })
}

#[tactic(auto, using(crate::proofs::FewRounds::call_within), unfolding(crate::specs::Snf3x3::snf3x3))]
pub fn snf3x3(a: [[i64; 3]; 3]) -> Result<Snf, Refusal>
    ensures value { result ≡ written (walk.snf3x3 (matrix_of a)) }
    ensures diagonalises { IfOk result (λ s. Diagonalises (matrix_of a) (vector_of s.d_diag) (matrix_at s.p 0) (matrix_at s.q 0)) }
    ensures rounds_within { RoundsWithin 82 result }
{
    if !common::matrix_within(a, 1000000) {
        return Err(Refusal::OutsideLimits);
    }
    diagonalise(a)
}

// The same without the limit of the entries.
#[tactic(auto, unfolding(crate::specs::Snf3x3::snf3x3_unlimited))]
pub fn snf3x3_unlimited(a: [[i64; 3]; 3]) -> Result<Snf, Refusal>
    ensures { result ≡ written (walk.snf3x3_unlimited (matrix_of a)) }
{
    if !integer_matrix::det_fits(a) {
        return Err(Refusal::Overflow);
    }
    diagonalise(a)
}
