// The exports of hermite3x3.
ghost use Rattle.std.specs.Prelude.{◌≡◌, length};
ghost use Rattle.answers.specs.Forms.{zone_hermite3x3, zone_order_forms, zone_same_grid};

pub fn zone_hermite3x3(a: &[i64], h: &mut [i64]) -> i64
    ensures { record { answer = result; h = h.new } ≡ zone_hermite3x3 a.now (length h.old) }
{
    if !answers::form_lengths(a.len(), h.len()) {
        return answers::refuse(h);
    }
    answers::tell(hermite3x3::hermite3x3(common::matrix_at(a, 0)), h)
}

// Whether the first comes before the second (0), is equal to it (1), or comes after it (2).
pub fn zone_order_forms(g: &[i64], h: &[i64], told: &mut [i64]) -> i64
    ensures { record { answer = result; told = told.new } ≡ zone_order_forms g.now h.now (length told.old) }
{
    if g.len() != 9 || h.len() != 9 || told.len() != 1 {
        return answers::refuse(told);
    }
    let first = integer_matrix::flat(common::matrix_at(g, 0));
    let second = integer_matrix::flat(common::matrix_at(h, 0));
    answers::tell_order(hermite3x3::order_forms(first, second), told)
}

pub fn zone_same_grid(a: &[i64], b: &[i64], told: &mut [i64]) -> i64
    ensures { record { answer = result; told = told.new } ≡ zone_same_grid a.now b.now (length told.old) }
{
    if a.len() != 9 || b.len() != 9 || told.len() != 1 {
        return answers::refuse(told);
    }
    answers::tell_same(
        hermite3x3::same_grid(common::matrix_at(a, 0), common::matrix_at(b, 0)),
        told,
    )
}
