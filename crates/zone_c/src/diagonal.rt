// The exports of snf3x3 and smith3x3.
ghost use Rattle.std.specs.Prelude.{◌≡◌, length};
ghost use Rattle.answers.specs.Diagonals.{zone_snf3x3, zone_smith3x3};

pub fn zone_snf3x3(a: &[i64], d: &mut [i64], p: &mut [i64], q: &mut [i64], told: &mut [i64]) -> i64
    ensures { record { answer = result; d = d.new; p = p.new; q = q.new; told = told.new }
        ≡ zone_snf3x3 a.now (length d.old) (length p.old) (length q.old) (length told.old) }
{
    if !answers::diagonal_lengths(a.len(), d.len(), p.len(), q.len(), told.len()) {
        return answers::refuse_four(d, p, q, told);
    }
    answers::tell_diagonal(snf3x3::snf3x3(common::matrix_at(a, 0)), d, p, q, told)
}

pub fn zone_smith3x3(a: &[i64], d: &mut [i64], p: &mut [i64], q: &mut [i64]) -> i64
    ensures { record { answer = result; d = d.new; p = p.new; q = q.new } ≡ zone_smith3x3 a.now (length d.old) (length p.old) (length q.old) }
{
    if !answers::smith_lengths(a.len(), d.len(), p.len(), q.len()) {
        return answers::refuse_three(d, p, q);
    }
    answers::tell_smith(smith3x3::smith3x3(common::matrix_at(a, 0)), d, p, q)
}
