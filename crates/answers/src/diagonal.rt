// Of the diagonalising.
ghost use Rattle.std.specs.Prelude.{◌≡◌, length};
ghost use Rattle.answers.specs.Diagonals.{result_lengths, diagonal_lengths, smith_lengths, snf_told, smith_told};

use crate::tell;
use common::Refusal;
use smith3x3::Smith;
use snf3x3::Snf;

fn result_lengths(d: usize, p: usize, q: usize) -> bool
    ensures { result ≡ result_lengths d p q }
{
    d == 3 && p == 9 && q == 9
}

pub fn diagonal_lengths(a: usize, d: usize, p: usize, q: usize, told: usize) -> bool
    ensures { result ≡ diagonal_lengths a d p q told }
{
    a == 9 && result_lengths(d, p, q) && told == 1
}

pub fn smith_lengths(a: usize, d: usize, p: usize, q: usize) -> bool
    ensures { result ≡ smith_lengths a d p q }
{
    a == 9 && result_lengths(d, p, q)
}

// Its twin is `tell_smith`: to tell one through the other takes a local for each array field.
pub fn tell_diagonal(
    answer: Result<Snf, Refusal>,
    d: &mut [i64],
    p: &mut [i64],
    q: &mut [i64],
    told: &mut [i64],
) -> i64
    requires { (length d.old ≡ 3) × (length p.old ≡ 9) × (length q.old ≡ 9) × (length told.old ≡ 1) }
    ensures { record { answer = result; d = d.new; p = p.new; q = q.new; told = told.new } ≡ snf_told answer }
{
    match answer {
        Ok(s) => {
            tell(Ok(s.d_diag), d);
            tell(Ok(s.p), p);
            tell(Ok(s.q), q);
            tell(Ok([s.rounds]), told)
        }
        Err(r) => {
            tell::<3>(Err(r), d);
            tell::<9>(Err(r), p);
            tell::<9>(Err(r), q);
            tell::<1>(Err(r), told)
        }
    }
}

// Its twin is `tell_diagonal`: see there.
pub fn tell_smith(
    answer: Result<Smith, Refusal>,
    d: &mut [i64],
    p: &mut [i64],
    q: &mut [i64],
) -> i64
    requires { (length d.old ≡ 3) × (length p.old ≡ 9) × (length q.old ≡ 9) }
    ensures { record { answer = result; d = d.new; p = p.new; q = q.new } ≡ smith_told answer }
{
    match answer {
        Ok(f) => {
            tell(Ok(f.d_diag), d);
            tell(Ok(f.p), p);
            tell(Ok(f.q), q)
        }
        Err(r) => {
            tell::<3>(Err(r), d);
            tell::<9>(Err(r), p);
            tell::<9>(Err(r), q)
        }
    }
}
