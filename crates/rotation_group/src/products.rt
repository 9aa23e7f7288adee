// Whether every product of two members is in the list. A member keeps the list if its products with all members are in it; the product of two
// that do keeps it as well, so it is marked and need not be tried.
ghost use Rattle.std.specs.Prelude.{◌≡◌, [], ◌*◌, ◌/◌, ◌<◌, ◌≤◌, T, IfSome, length};
ghost use Rattle.common.specs.Matrix.{entries, ◌·◌};
ghost use Rattle.common.specs.Array.{matrix_at, matrices};
ghost use Rattle.common.specs.Every.{every};
ghost use Rattle.recip_rotations.specs.Unique.{among};
ghost use Rattle.rotation_group.specs.Group.{row_inside};
ghost use Rattle.rotation_group.specs.Code.Known.{Known};

use grgrid::Rotations;

// Matrix m times matrix n.
fn product(rotations: Rotations<'_>, m: usize, n: usize) -> [i64; 9]
    requires left { m < length rotations.list.now / 9 }
    requires right { n < length rotations.list.now / 9 }
    ensures { result ≡ entries (matrix_at rotations.entry.list.now m · matrix_at rotations.entry.list.now n) [] }
{
    integer_matrix::flat(integer_matrix::matmul_i(rotations.at(m).m, rotations.at(n).m))
}

fn has_product(rotations: Rotations<'_>, m: usize, n: usize) -> bool
    requires left { m < length rotations.list.now / 9 }
    requires right { n < length rotations.list.now / 9 }
    ensures { let l = rotations.entry.list.now in
        result ≡ among (matrix_at l m · matrix_at l n) (matrices l) }
{
    let p = product(rotations, m, n);
    recip_rotations::contains(&p, 0, rotations.list, rotations.count())
}

// Matrix m times each of the list is in it. `all` makes the whole test a tenth slower.
fn row_inside(rotations: Rotations<'_>, m: usize) -> bool
    requires { m < length rotations.list.now / 9 }
    ensures { result ≡ row_inside (matrices rotations.entry.list.now) (matrix_at rotations.entry.list.now m) }
{
    for k in 0..rotations.count() {
        if !has_product(rotations, m, k) {
            return false;
        }
    }
    true
}

// The place of matrix m times matrix n.
fn place(rotations: Rotations<'_>, m: usize, n: usize) -> Option<usize>
    requires left { m < length rotations.list.now / 9 }
    requires right { n < length rotations.list.now / 9 }
    ensures { let l = rotations.entry.list.now in
        IfSome result (λ k. (k < length l / 9) × (matrix_at l m · matrix_at l n ≡ matrix_at l k)) }
{
    let p = product(rotations, m, n);
    (0..rotations.count()).find(|k| recip_rotations::same_matrix(&p, 0, rotations.list, *k))
}

// Matrix m keeps the list: so do its products with those that are known to.
// `short` is a clause, and no type: `Rotations` bounds no length, and only here must each of the list have a place in `known`.
fn mark(rotations: Rotations<'_>, m: usize, known: &mut [bool; 192])
    requires number { m < length rotations.list.now / 9 }
    requires inside { T (row_inside (matrices rotations.list.now) (matrix_at rotations.list.now m)) }
    requires short { length rotations.list.now ≤ 1728 }
    requires known { Known rotations.list.now known.old }
    ensures { Known rotations.entry.list.now known.new }
{
    // By index: a turn may mark another one.
    for n in 0..rotations.count() {
        if known[n] {
            if let Some(k) = place(rotations, m, n) {
                known[k] = true;
            }
        }
    }
}

pub fn products_inside(rotations: Rotations<'_>) -> bool
    requires { length rotations.list.now ≤ 1728 }
    ensures { result ≡ every (row_inside (matrices rotations.entry.list.now)) (matrices rotations.entry.list.now) }
{
    let mut known = [false; 192];
    // By index: `mark` may mark any.
    for m in 0..rotations.count() {
        if !known[m] {
            if !row_inside(rotations, m) {
                return false;
            }
            mark(rotations, m, &mut known);
            known[m] = true;
        }
    }
    true
}
