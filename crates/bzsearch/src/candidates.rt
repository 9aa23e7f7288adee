// The candidates of a search, box by box, in the order of the Rust's `for_each_candidate`.
ghost use Rattle.std.specs.Prelude.{◌≡◌, ◌&&◌, ◌||◌, ◌≤◌, ◌<◌, T, pos, negsuc, nat_abs, neg_ℤ, None, Some, option_map, cond};
ghost use Rattle.std.specs.Int.Signed.{le_z};
ghost use Rattle.common.specs.Matrix.{side, all_axes};
ghost use Rattle.common.specs.Array.{vector_of, Sized};
ghost use Rattle.common.specs.FloatMatrix.{float_vector};
ghost use Rattle.bzsearch.specs.Search.{number_at, count, upwards, from_zero, below_zero, fft_order, first_box};
ghost use Rattle.bzsearch.specs.Search.{whole_box, candidates, clipped, span_fits, within, range_fits, near, far};
ghost use Rattle.bzsearch.specs.Search.{outside, chosen, box, lower, least_of, bound, Room};
ghost use Rattle.bzsearch.specs.SearchView.{search_view, span_view, range_view, numbers_view, axes_view, candidates_of};

use crate::types::{Axes, Boxes, BzSearch, Candidate, Numbers, Range, Span};

fn count(lo: i64, hi: i64) -> usize
    requires fact_1 { T (le_z (negsuc 15) lo) }
    requires fact_2 { T (le_z hi (pos 16)) }
    ensures value { result ≡ count lo hi }
    ensures upper_bound { result ≤ 33 }
{
    if hi < lo {
        return 0;
    }
    (hi + 1 - lo) as usize
}

// From lo to hi.
fn upwards(s: Span) -> Numbers
    requires { T (span_fits (span_view s)) }
    ensures { numbers_view result ≡ upwards (span_view s) }
{
    let n = count(s.lo, s.hi);
    Numbers {
        a: s.lo,
        low: n,
        b: 0,
        n,
    }
}

fn clipped(s: Span) -> Span
    ensures { span_view result ≡ clipped (span_view s) }
{
    Span {
        lo: s.lo.max(-BzSearch::SEARCH_FIRST),
        hi: s.hi.min(BzSearch::SEARCH_FIRST),
    }
}

// The numbers from 0 on, and those below 0.
fn from_zero(s: Span) -> Span
    ensures { span_view result ≡ from_zero (span_view s) }
{
    Span {
        lo: s.lo.max(0),
        hi: s.hi,
    }
}

fn below_zero(s: Span) -> Span
    ensures { span_view result ≡ below_zero (span_view s) }
{
    Span {
        lo: s.lo,
        hi: s.hi.min(-1),
    }
}

// In the order of the frequencies of an FFT: the non-negative ones upwards, and then the negative ones upwards, e.g., 0, 1, 2, -2, -1.
fn fft_order(s: Span) -> Numbers
    requires { T (span_fits (span_view s)) }
    ensures { numbers_view result ≡ fft_order (span_view s) }
{
    let p = from_zero(s);
    let q = below_zero(s);
    let low = count(p.lo, p.hi);
    Numbers {
        a: p.lo,
        low,
        b: s.lo,
        n: low + count(q.lo, q.hi),
    }
}

fn span_within(s: Span, most: i64) -> bool
    requires { nat_abs most ≤ 16 }
    ensures { result ≡ within most (span_view s) }
{
    -most <= s.lo && s.hi <= most
}

// Within -most..most along each axis.
fn is_within(r: Range, most: i64) -> bool
    requires { nat_abs most ≤ 16 }
    ensures { result ≡ all_axes (λ k. within most (side (range_view r) k)) }
{
    span_within(r.x, most) && span_within(r.y, most) && span_within(r.z, most)
}

pub fn range_fits(r: Range) -> bool
    ensures { result ≡ range_fits (range_view r) }
{
    is_within(r, 16)
}

// No candidate lies outside the first box.
fn is_near(r: Range) -> bool
    ensures { result ≡ near (range_view r) }
{
    is_within(r, BzSearch::SEARCH_FIRST)
}

// A clause asks that the range fits: the type for it is Boxes, which `boxes_of` makes of the range.
fn first_box(r: Range) -> Axes
    requires { T (range_fits (range_view r)) }
    ensures { axes_view result ≡ first_box (range_view r) }
{
    Axes {
        x: fft_order(clipped(r.x)),
        y: fft_order(clipped(r.y)),
        z: fft_order(clipped(r.z)),
    }
}

fn whole_box(r: Range) -> Axes
    requires { T (range_fits (range_view r)) }
    ensures { axes_view result ≡ whole_box (range_view r) }
{
    Axes {
        x: upwards(r.x),
        y: upwards(r.y),
        z: upwards(r.z),
    }
}

#[tactic(auto, unfolding(crate::specs::Search::candidates))]
pub fn boxes_of(r: Range) -> Boxes
    requires { T (range_fits (range_view r)) }
    ensures value { candidates_of result ≡ candidates (range_view r) }
    ensures first { axes_view result.first ≡ first_box (range_view r) }
    ensures rest { option_map axes_view result.rest ≡ cond (near (range_view r)) None (Some (whole_box (range_view r))) }
{
    let rest = if is_near(r) { None } else { Some(whole_box(r)) };
    Boxes {
        first: first_box(r),
        rest,
    }
}

impl Numbers {
    // The k-th number.
    pub fn at(self, k: usize) -> i64
        requires { k < self.n }
        ensures value { result ≡ number_at (numbers_view self) k }
        ensures small { nat_abs result ≤ 16 }
    {
        if k < self.low {
            self.a + k as i64
        } else {
            self.b + (k - self.low) as i64
        }
    }
}

fn is_far(m: i64) -> bool
    ensures { result ≡ far m }
{
    m < -BzSearch::SEARCH_FIRST || BzSearch::SEARCH_FIRST < m
}

// Some number lies outside -2..2.
#[tactic(auto, unfolding(crate::specs::Search::outside))]
pub fn is_outside(m: [i64; 3]) -> bool
    ensures { result ≡ outside (vector_of m) }
{
    is_far(m[0]) || is_far(m[1]) || is_far(m[2])
}

impl BzSearch {
    // Falls only by more than the tolerance.
    fn lower(self, s0: [f64; 3], m: Candidate, least: f64) -> f64
        ensures { result ≡ lower (search_view self) (float_vector s0) least (vector_of m.v) }
    {
        let x = self.distance(s0, m);
        let below = least - self.tolerance;
        if x < below { x } else { least }
    }

    fn least_one(self, s0: [f64; 3], m: Candidate, rest: bool, least: f64) -> f64
        ensures { result ≡ least_of (search_view self) (float_vector s0) least (chosen rest (vector_of m.v)) }
    {
        if rest && !is_outside(m.v) {
            return least;
        }
        self.lower(s0, m, least)
    }

    // `rest` is no field of Axes: which of the two boxes it is, Boxes says by its own fields.
    // bzgrid's keep_box has the same three loops. A walk that takes a closure can only ask that it may be called in any state, and keeping may only while
    // there is room; a trait that says so is longer than the loops.
    fn least_box(self, s0: [f64; 3], b: Axes, rest: bool, from: f64) -> f64
        ensures { result ≡ least_of (search_view self) (float_vector s0) from (box rest (axes_view b)) }
    {
        let mut least = from;
        for i in 0..b.x.n {
            let x = b.x.at(i);
            for j in 0..b.y.n {
                let y = b.y.at(j);
                for k in 0..b.z.n {
                    let m = Candidate {
                        v: [x, y, b.z.at(k)],
                    };
                    least = self.least_one(s0, m, rest, least);
                }
            }
        }
        least
    }

    // Under which the images lie: the least length of both boxes, plus the tolerance.
    #[tactic(auto, unfolding(crate::specs::Search::bound))]
    pub fn bound(self, s0: [f64; 3], b: Boxes) -> f64
        ensures { result ≡ bound (search_view self) (float_vector s0) (candidates_of b) }
    {
        let first = self.least_box(
            s0,
            b.first,
            false,
            self.distance(s0, Candidate { v: [0, 0, 0] }),
        );
        let least = match b.rest {
            None => first,
            Some(whole) => self.least_box(s0, whole, true, first),
        };
        least + self.tolerance
    }
}
