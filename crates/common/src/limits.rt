// The limits and lengths that calls test.
ghost use Rattle.std.specs.Prelude.{◌≡◌, ◌&&◌, ◌*◌, ◌≤◌, leb, eqb, nat_abs};
ghost use Rattle.common.specs.Matrix.{all_axes};
ghost use Rattle.common.specs.Array.{along, matrix_of};
ghost use Rattle.common.specs.Limits.{within, all_within, matrix_within, rotations_fit, whole_matrices, side_fits};
ghost use Rattle.common.specs.Limits.{diagonal_fits, half_fits, shift_fits, point_fits};

// By two bounds, which where k is a constant the compiler tests as one; a size it would work out first.
pub fn within(z: i64, k: u64) -> bool
    ensures { result ≡ within k z }
{
    match i64::try_from(k) {
        Ok(k) => -k <= z && z <= k,
        Err(_) => true,
    }
}

pub fn all_within(list: &[i64], k: u64) -> bool
    ensures { result ≡ all_within k list.now }
{
    list.iter().all(|z| within(*z, k))
}

pub fn row_within(a: [i64; 3], k: u64) -> bool
    ensures { result ≡ all_axes (λ x. within k (along a x)) }
{
    within(a[0], k) && within(a[1], k) && within(a[2], k)
}

pub fn matrix_within(m: [[i64; 3]; 3], k: u64) -> bool
    ensures { result ≡ matrix_within k (matrix_of m) }
{
    row_within(m[0], k) && row_within(m[1], k) && row_within(m[2], k)
}

// Whether n is a·b.
pub fn is_product(n: usize, a: usize, b: usize) -> bool
    ensures { result ≡ eqb n (a * b) }
{
    a.checked_mul(b) == Some(n)
}

pub fn is_thrice(n: usize, k: usize) -> bool
    ensures { result ≡ eqb n (k * 3) }
{
    is_product(n, k, 3)
}

pub fn whole_matrices(list: &[i64]) -> bool
    ensures { result ≡ whole_matrices list.now }
{
    list.len() % 9 == 0
}

pub fn rotations_fit(list: &[i64], k: u64) -> bool
    ensures { result ≡ rotations_fit k list.now }
{
    list.len() <= 1728 && all_within(list, k)
}

fn side_fits(z: i64) -> bool
    ensures { result ≡ side_fits z }
{
    1 <= z && z <= 256
}

// The number of points.
fn volume_fits(a: i64, b: i64, c: i64) -> bool
    requires { (nat_abs a ≤ 256) × (nat_abs b ≤ 256) × (nat_abs c ≤ 256) }
    ensures { result ≡ leb (nat_abs a * nat_abs b * nat_abs c) 65536 }
{
    a.unsigned_abs() * b.unsigned_abs() * c.unsigned_abs() <= 65536
}

pub fn diagonal_fits(d: [i64; 3]) -> bool
    ensures { result ≡ diagonal_fits d }
{
    let [x, y, z] = d;
    side_fits(x) && side_fits(y) && side_fits(z) && volume_fits(x, y, z)
}

fn half_fits(z: i64) -> bool
    ensures { result ≡ half_fits z }
{
    0 <= z && z <= 1
}

pub fn shift_fits(ps: [i64; 3]) -> bool
    ensures { result ≡ shift_fits ps }
{
    half_fits(ps[0]) && half_fits(ps[1]) && half_fits(ps[2])
}

// q0, one of the grid's points.
pub fn point_fits(q: i64, points: i64) -> bool
    ensures { result ≡ point_fits q points }
{
    0 <= q && q < points
}
