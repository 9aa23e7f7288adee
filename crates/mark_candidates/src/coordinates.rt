// The exact reduced coordinates of a grid point, times 2N, less the nearest whole numbers.
ghost use Rattle.std.specs.Prelude.{◌≡◌, ◌*◌, ◌≤◌, ◌<◌, pos, nat_abs, ◌*ℤ◌};
ghost use Rattle.common.specs.Matrix.{vector};
ghost use Rattle.common.specs.Array.{along, vector_of, matrix_of, items, Sized};
ghost use Rattle.grgrid.specs.Grid.{size};
ghost use Rattle.grgrid.specs.Sides.{sides};
ghost use Rattle.mark_candidates.specs.ScaledCoordinates.{shares, scaled_by, scaled, outwards, rest, rests};

use bzsearch::Basis;
use common::{Bounded, Shift};
use grgrid::{Grid, GridPoint};

// N, the number of points of a grid.
#[derive(Clone, Copy)]
pub struct Count {
    pub n: usize,
    ghost some: { 0 < n },
    ghost few: { n ≤ 65536 },
}

// A point of a grid, with the grid's shift and its basis.
#[derive(Clone, Copy)]
pub struct Mesh {
    pub point: GridPoint,
    pub ps: Shift,
    pub q: Basis,
    pub ghost few: { size (sides point.g) ≤ 65536 },
}

// What is left of a point's coordinates, times 2N, and N.
#[derive(Clone, Copy)]
pub struct Rests {
    pub s: Bounded<65536>,
    pub points: Count,
}

impl Count {
    pub fn twice(self) -> i64
        ensures { result ≡ pos (2 * self.n) }
    {
        let k = 2 * self.n;
        k as i64
    }

    fn outwards(self, z: i64) -> i64
        requires { nat_abs z ≤ 110000000000000 }
        ensures { result ≡ outwards self.n z }
    {
        let k = self.n as i64;
        if z < 0 {
            return z - k;
        }
        z + k
    }

    // What is left of z beside the multiple of 2N that is nearest.
    fn rest(self, z: i64) -> i64
        requires { nat_abs z ≤ 110000000000000 }
        ensures value { result ≡ rest self.n z }
        ensures result_bound { nat_abs result ≤ 65536 }
    {
        let k = self.twice();
        z - k * (self.outwards(z) / k)
    }

    fn rests(self, v: [i64; 3]) -> Bounded<65536>
        requires { Sized 110000000000000 v }
        ensures { result.v ≡ items (vector (λ k. rest self.n (along v k))) }
    {
        Bounded {
            v: [self.rest(v[0]), self.rest(v[1]), self.rest(v[2])],
        }
    }
}

fn times(u: i64, a: usize, b: usize) -> i64
    requires { (nat_abs u ≤ 131073) × (a ≤ 512) × (b ≤ 512) }
    ensures { result ≡ u *ℤ pos (a * b) }
{
    let k = a * b;
    u * k as i64
}

// 2N times the grid coordinates of a doubled address.
fn scaled_grid(a: [i64; 3], g: Grid) -> [i64; 3]
    requires { Sized 131073 a }
    ensures { result ≡ items (scaled_by (shares (sides g)) (vector_of a)) }
{
    [
        times(a[0], g.y, g.z),
        times(a[1], g.x, g.z),
        times(a[2], g.x, g.y),
    ]
}

impl Mesh {
    fn scaled(self) -> [i64; 3]
        ensures { result ≡ items (scaled (sides self.point.g) (vector_of self.ps.v) (matrix_of self.q.m) self.point.p) }
    {
        let address = grgrid::grid_address_from_index(self.point);
        let a = grgrid::double_grid_address(address, self.ps);
        common::matvec_ii(self.q.m, scaled_grid(a.v, self.point.g))
    }

    pub fn rests(self) -> Rests
        ensures s { result.s.v ≡ items (rests (sides self.point.g) (vector_of self.ps.v) (matrix_of self.q.m) self.point.p) }
        ensures points { result.points.n ≡ size (sides self.point.g) }
    {
        let points = Count {
            n: grgrid::points(self.point.g),
        };
        Rests {
            s: points.rests(self.scaled()),
            points,
        }
    }
}
