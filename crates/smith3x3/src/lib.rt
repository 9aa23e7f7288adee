// The Smith form of a 3 by 3 integer matrix in which each number divides the next.
#![tactic(auto)]

ghost use Rattle.std.specs.Prelude.{◌≡◌};
ghost use Rattle.common.specs.Array.{vector_of, matrix_of, matrix_at, rows};
ghost use Rattle.common.specs.Matrix.{diagonal};
ghost use Rattle.smith3x3.specs.Smith3x3 as smith;
ghost use Rattle.smith3x3.specs.Written.{written, product_of, Promised};

use common::{Refusal, flat, nested};
use integer_matrix::{matmul_i, product_fits};
use snf3x3::Snf;

// P.A.Q is the diagonal matrix of `d_diag`.
#[derive(Clone, Copy)]
pub struct Smith {
    pub d_diag: [i64; 3],
    pub p: [i64; 9],
    pub q: [i64; 9],
}

fn product(l: [i64; 9], r: [i64; 9]) -> Option<[i64; 9]>
    ensures { result ≡ product_of (matrix_at l 0) (matrix_at r 0) }
{
    let a = nested(l);
    let b = nested(r);
    if !product_fits(a, b) {
        return None;
    }
    Some(flat(matmul_i(a, b)))
}

// The two P and the two Q joined.
fn multiplied(first: Snf, second: Snf) -> Result<Smith, Refusal>
    ensures { let p = matrix_at first.p 0 in
        let q = matrix_at first.q 0 in
        result ≡ written (smith.multiplied (vector_of second.d_diag) p q (matrix_at second.p 0) (matrix_at second.q 0)) }
{
    let p = product(second.p, first.p).ok_or(Refusal::Overflow)?;
    let q = product(first.q, second.q).ok_or(Refusal::Overflow)?;
    let d_diag = second.d_diag;
    Ok(Smith { d_diag, p, q })
}

fn diagonal(d: [i64; 3]) -> [[i64; 3]; 3]
    ensures { result ≡ rows (diagonal (vector_of d)) }
{
    [[d[0], 0, 0], [0, d[1], 0], [0, 0, d[2]]]
}

// The second call is on the diagonal that the first gives.
pub fn smith3x3(a: [[i64; 3]; 3]) -> Result<Smith, Refusal>
    ensures value { result ≡ written (smith.smith3x3 (matrix_of a)) }
    ensures promised { Promised (matrix_of a) result }
{
    let first = snf3x3::snf3x3(a)?;
    let second = snf3x3::snf3x3_unlimited(diagonal(first.d_diag))?;
    multiplied(first, second)
}
