// The table of a point: of each candidate what is compared.
ghost use Rattle.std.specs.Prelude.{◌≡◌, ◌≤◌, nat_abs, map};
ghost use Rattle.common.specs.Array.{vector_of, Sized};
ghost use Rattle.mark_candidates.specs.ScaledCoordinates.{candidates125};
ghost use Rattle.mark_candidates.specs.Code.Table.{length_by, compared, entry_view, compared_at, RangesFit};

use crate::candidates::{Weights, weights_at};
use crate::coordinates::Rests;
use crate::entry::Entry;

// The lowest and highest of the six inner products 00, 01, 02, 11, 12, 22: two lists, as the export is lent them.
#[derive(Clone, Copy)]
pub struct Ranges {
    pub lowest: [i64; 6],
    pub highest: [i64; 6],
}

// The squared length.
fn length_by(weights: Weights, g: [i64; 6]) -> i64
    requires { Sized 1000000 g }
    ensures value { result ≡ length_by weights.w g }
    ensures small { nat_abs result ≤ 1288490188800000000 }
{
    let mut sum = 0;
    for (k, weight) in weights.w.iter().enumerate() {
        sum += *weight * g[k];
    }
    sum
}

fn entry(weights: Weights, r: Ranges) -> Entry
    requires { RangesFit r }
    ensures { entry_view result ≡ compared weights.w r.lowest r.highest }
{
    let w = weights.w;
    let mut widths = [0; 6];
    for (k, width) in widths.iter_mut().enumerate() {
        *width = w[k] * (r.highest[k] - r.lowest[k]);
    }
    Entry {
        widths,
        lowest: length_by(weights, r.lowest),
        highest: length_by(weights, r.highest),
    }
}

// The weights of a candidate are worked out once, not for each of the 125 by 125 pairs.
pub fn table(s: Rests, r: Ranges) -> [Entry; 125]
    requires { RangesFit r }
    ensures { map entry_view result ≡ map (compared_at s.s.v s.points.n r) candidates125 }
{
    let mut t = [entry(weights_at(s, 0), r); 125];
    for (i, e) in t.iter_mut().enumerate() {
        *e = entry(weights_at(s, i), r);
    }
    t
}
