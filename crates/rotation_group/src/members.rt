// The members of a list, each by itself: no repeats, and determinants of 1 or -1.
ghost use Rattle.std.specs.Prelude.{◌≡◌, ◌+◌, ◌-◌, ◌/◌, ◌<◌, length};
ghost use Rattle.common.specs.Array.{matrix_at, matrices_from, matrices};
ghost use Rattle.common.specs.Every.{every};
ghost use Rattle.recip_rotations.specs.Unique.{among};
ghost use Rattle.rotation_group.specs.Group.{no_repeats, is_unit};

use grgrid::Rotations;

// Whether matrix n comes again after its place.
fn comes_again(rotations: Rotations<'_>, n: usize) -> bool
    requires { n < length rotations.list.now / 9 }
    ensures { let l = rotations.entry.list.now in
        result ≡ among (matrix_at l n) (matrices_from l (n + 1) (length l / 9 - (n + 1))) }
{
    let list = rotations.list;
    (n + 1..rotations.count()).any(|k| recip_rotations::same_matrix(list, n, list, k))
}

pub fn no_repeats(rotations: Rotations<'_>) -> bool
    ensures { result ≡ no_repeats (matrices rotations.entry.list.now) }
{
    !(0..rotations.count()).any(|n| comes_again(rotations, n))
}

fn is_unit(rotations: Rotations<'_>, n: usize) -> bool
    requires { n < length rotations.list.now / 9 }
    ensures { result ≡ is_unit (matrix_at rotations.entry.list.now n) }
{
    integer_matrix::det_i(rotations.at(n).m).unsigned_abs() == 1
}

pub fn units(rotations: Rotations<'_>) -> bool
    ensures { result ≡ every is_unit (matrices rotations.entry.list.now) }
{
    (0..rotations.count()).all(|n| is_unit(rotations, n))
}
