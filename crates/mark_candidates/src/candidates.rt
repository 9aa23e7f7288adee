// The 125 candidates by their numbers, and the weights of the inner products in the squared length of each.
// A bound of an index stays a clause: a type for it would be one more number.
ghost use Rattle.std.specs.Prelude.{◌≡◌, ◌*◌, ◌≤◌, ◌<◌, pos, nat_abs, ◌+ℤ◌, ◌*ℤ◌, get_or};
ghost use Rattle.common.specs.Array.{vector_of, items, Sized};
ghost use Rattle.mark_candidates.specs.ScaledCoordinates.{position};
ghost use Rattle.mark_candidates.specs.Code.Numbered.{translation, candidate_at};
ghost use Rattle.mark_candidates.specs.Code.Table.{weights};

use crate::coordinates::{Count, Rests};
use common::Bounded;

// How often the six inner products stand in the squared length of a vector.
#[derive(Clone, Copy)]
pub struct Weights {
    pub w: [i64; 6],
    ghost sized: { Sized 214748364800 w },
}

// 0, 1, 2, -2, -1.
fn translation(i: usize) -> i64
    requires { i < 5 }
    ensures value { result ≡ translation i }
    ensures result_bound { nat_abs result ≤ 2 }
{
    if i < 3 {
        return i as i64;
    }
    i as i64 - 5
}

fn moved_by(s: i64, points: Count, i: usize) -> i64
    requires { (nat_abs s ≤ 65536) × (i < 5) }
    ensures value { result ≡ s +ℤ pos (2 * points.n) *ℤ translation i }
    ensures result_bound { nat_abs result ≤ 327680 }
{
    s + points.twice() * translation(i)
}

// 2N times the coordinates of candidate i.
fn position(r: Rests, i: usize) -> Bounded<327680>
    requires { i < 125 }
    ensures { result.v ≡ items (position r.points.n (vector_of r.s.v) (candidate_at i)) }
{
    let s = r.s.v;
    Bounded {
        v: [
            moved_by(s[0], r.points, i / 25),
            moved_by(s[1], r.points, i / 5 % 5),
            moved_by(s[2], r.points, i % 5),
        ],
    }
}

fn square_at(p: Bounded<327680>, k: usize) -> i64
    requires { k < 3 }
    ensures { result ≡ get_or p.v k (pos 0) *ℤ get_or p.v k (pos 0) }
{
    p.v[k] * p.v[k]
}

// An inner product of two basis vectors counts twice.
fn double_at(p: Bounded<327680>, j: usize, k: usize) -> i64
    requires { (j < 3) × (k < 3) }
    ensures { result ≡ pos 2 *ℤ (get_or p.v j (pos 0) *ℤ get_or p.v k (pos 0)) }
{
    2 * (p.v[j] * p.v[k])
}

fn weights_of(p: Bounded<327680>) -> Weights
    ensures { result.w ≡ weights (vector_of p.v) }
{
    Weights {
        w: [
            square_at(p, 0),
            double_at(p, 0, 1),
            double_at(p, 0, 2),
            square_at(p, 1),
            double_at(p, 1, 2),
            square_at(p, 2),
        ],
    }
}

pub fn weights_at(r: Rests, i: usize) -> Weights
    requires { i < 125 }
    ensures { result.w ≡ weights (position r.points.n (vector_of r.s.v) (candidate_at i)) }
{
    weights_of(position(r, i))
}
