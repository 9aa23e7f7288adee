// The search for the images of a grid point: its reduced coordinates, the squared length of a candidate, the range of the candidates.
ghost use Rattle.std.specs.Prelude.{◌≡◌, ◌≤◌, ◌<◌, T, pos, nat_abs, ◌+ℤ◌, ◌*ℤ◌, ◌-ℤ◌};
ghost use Rattle.std.specs.Float.{binary64};
ghost use Rattle.std.specs.Float.Ieee.{mul, div, of_int};
ghost use Rattle.common.specs.Matrix.{vector, apply_over, cross, integers, inverse};
ghost use Rattle.common.specs.Array.{along, vector_of, sides_of, items, matrix_of, rows, Sized};
ghost use Rattle.common.specs.FloatMatrix.{floats, float_vector, float_matrix};
ghost use Rattle.common.specs.Limits.{diagonal_fits, matrix_within, shift_fits};
ghost use Rattle.bzsearch.specs.Search.{new_search, grid_coordinate, split_of, split_reduced, moved, length_squared};
ghost use Rattle.bzsearch.specs.Search.{distance, span, search_range, set_bz_address, unimodular};
ghost use Rattle.grgrid.specs.Grid.{size, address};
ghost use Rattle.bzsearch.specs.SearchView.{point_split, float_nine, search_view, split_view, range_view, span_view, inverse_row, row_times};

use crate::lattice;
use crate::types::{Basis, BzSearch, Candidate, Point, Range, Span, Split};
use common::{Bounded, BoundedMatrix, Shift};
use grgrid::{Address, GridPoint};

// A cofactor times the determinant, which is 1 or -1: the same as over it. `common::cross` asks by a test of its own that each product fits, which the check
// does not find from sizes, as it does here.
fn cofactor_over(a: i64, b: i64, c: i64, d: i64, det: i64) -> i64
    requires { (nat_abs a ≤ 1000) × (nat_abs b ≤ 1000) × (nat_abs c ≤ 1000) × (nat_abs d ≤ 1000) × (nat_abs det ≤ 1) }
    ensures { result ≡ det *ℤ cross integers a b c d }
{
    det * (a * d - b * c)
}

// A row of the inverse, from the two columns after its number. The middle one of common's `minors` has the other sign.
fn inverse_row(a: [i64; 3], b: [i64; 3], det: i64) -> [i64; 3]
    requires fact_1 { Sized 1000 a }
    requires fact_2 { Sized 1000 b }
    requires fact_3 { nat_abs det ≤ 1 }
    ensures { result ≡ inverse_row a b det }
{
    [
        cofactor_over(a[1], b[1], a[2], b[2], det),
        cofactor_over(a[2], b[2], a[0], b[0], det),
        cofactor_over(a[0], b[0], a[1], b[1], det),
    ]
}

pub fn is_unimodular(q: Basis) -> bool
    ensures { result ≡ unimodular (matrix_of q.m) }
{
    integer_matrix::det_i(q.m).unsigned_abs() == 1
}

// Of a determinant of 1 or -1.
fn inverse_unimodular(q: Basis) -> BoundedMatrix<2000000>
    requires { T (unimodular (matrix_of q.m)) }
    ensures { result.m ≡ rows (inverse (matrix_of q.m)) }
{
    let det = integer_matrix::det_i(q.m);
    let [x, y, z] = common::transpose(q.m);
    BoundedMatrix {
        m: [
            inverse_row(y, z, det),
            inverse_row(z, x, det),
            inverse_row(x, y, det),
        ],
    }
}

fn coordinate(a: f64, d: f64) -> f64
    ensures { result ≡ div binary64 a (mul binary64 (of_int binary64 (pos 2)) d) }
{
    a / (2.0 * d)
}

fn split_whole(v: [f64; 3]) -> Split
    ensures { split_view result ≡ split_of (float_vector v) }
{
    let n = [float::nint(v[0]), float::nint(v[1]), float::nint(v[2])];
    let w = float_matrix::row_to_d(n);
    Split {
        s0: [v[0] - w[0], v[1] - w[1], v[2] - w[2]],
        nint: n,
    }
}

fn shift(s0: [f64; 3], m: Candidate) -> [f64; 3]
    ensures { result ≡ items (moved (float_vector s0) (vector_of m.v)) }
{
    [
        s0[0] + m.v[0] as f64,
        s0[1] + m.v[1] as f64,
        s0[2] + m.v[2] as f64,
    ]
}

// A row of the nine numbers, which begins at place i.
fn row_times(l: [f64; 9], i: usize, v: [f64; 3]) -> f64
    requires { i < 7 }
    ensures { result ≡ row_times l i v }
{
    common::dot([l[i], l[i + 1], l[i + 2]], v)
}

fn sum_of_squares(x: f64, y: f64, z: f64) -> f64
    ensures { result ≡ length_squared (record { x = x; y = y; z = z }) }
{
    x * x + y * y + z * z
}

pub fn length_squared(l: [f64; 9], v: [f64; 3]) -> f64
    ensures { result ≡ length_squared (apply_over floats (float_nine l) (float_vector v)) }
{
    sum_of_squares(row_times(l, 0, v), row_times(l, 3, v), row_times(l, 6, v))
}

fn difference(m: Candidate, n: Bounded<4096>) -> Bounded<4112>
    ensures { result.v ≡ items (vector (λ k. along m.v k -ℤ along n.v k)) }
{
    Bounded {
        v: [m.v[0] - n.v[0], m.v[1] - n.v[1], m.v[2] - n.v[2]],
    }
}

fn moved_by(a: i64, delta: i64, d: i64) -> i64
    requires { (nat_abs a ≤ 256) × (nat_abs delta ≤ 30000000000) × (nat_abs d ≤ 256) }
    ensures { result ≡ a +ℤ delta *ℤ d }
{
    a + delta * d
}

// The whole numbers m with `|s0 + m|` at most a half width.
fn span_of(s0: f64, half_width: f64) -> Span
    ensures { span_view result ≡ span s0 half_width }
{
    let lo = float::to_i64(float::ceil(-s0 - half_width));
    let hi = float::to_i64(float::floor(-s0 + half_width));
    Span { lo, hi }
}

impl BzSearch {
    // The tolerance over the largest of column length squared over d squared.
    pub const TOLERANCE_FACTOR: f64 = 0.01;
    // Margin against rounding added to the range along each axis.
    pub const SEARCH_MARGIN: f64 = 1e-8;
    // Bound of the size of each number of the candidates that come first.
    pub const SEARCH_FIRST: i64 = 2;

    pub fn new(d_diag: [i64; 3], ps: Shift, q: Basis, rec_lattice: [[f64; 3]; 3]) -> BzSearch
        requires diagonal { T (diagonal_fits d_diag) }
        requires unimodular { T (unimodular (matrix_of q.m)) }
        ensures { search_view result ≡ new_search (sides_of d_diag) (vector_of ps.v) (matrix_of q.m) (float_matrix rec_lattice) }
    {
        let lattice = common::flat(rec_lattice);
        let tolerance = lattice::bz_tolerance(rec_lattice, d_diag);
        let dual = lattice::dual_lengths(rec_lattice);
        BzSearch {
            d_diag,
            ps,
            q,
            q_inv: inverse_unimodular(q),
            rec_lattice: lattice,
            tolerance,
            dual_lengths: dual,
        }
    }

    // The coordinates of an address along the grid's axes.
    fn grid_coordinates(self, address: Address) -> [f64; 3]
        ensures { result ≡ items (vector (grid_coordinate (search_view self) (vector_of address.v))) }
    {
        let d_diag = self.d_diag;
        let a = float_matrix::row_to_d(grgrid::double_grid_address(address, self.ps).v);
        let d = float_matrix::row_to_d(d_diag);
        [
            coordinate(a[0], d[0]),
            coordinate(a[1], d[1]),
            coordinate(a[2], d[2]),
        ]
    }

    // Split the reduced coordinates of an address into what is left, at most 1/2 in size, and a whole vector.
    #[tactic(auto, unfolding(crate::specs::Search::split_reduced, crate::specs::Search::reduced))]
    pub fn split_reduced_coordinates(self, address: Address) -> Split
        ensures { split_view result ≡ split_reduced (search_view self) (vector_of address.v) }
    {
        split_whole(float_matrix::matvec_id(self.q.m, self.grid_coordinates(address)))
    }

    // Squared length of `rec_lattice (s0 + m)`.
    #[tactic(auto, unfolding(crate::specs::Search::distance))]
    pub fn distance(self, s0: [f64; 3], m: Candidate) -> f64
        ensures { result ≡ distance (search_view self) (float_vector s0) (vector_of m.v) }
    {
        let l = self.rec_lattice;
        length_squared(l, shift(s0, m))
    }

    // The Rust's range: in f64 it may miss a candidate that would be kept.
    #[tactic(auto, unfolding(crate::specs::Search::search_range, crate::specs::Search::distance))]
    pub fn search_range(self, s0: [f64; 3]) -> Range
        ensures { range_view result ≡ search_range (search_view self) (float_vector s0) }
    {
        let r = float::sqrt(self.distance(s0, Candidate { v: [0, 0, 0] }) + self.tolerance);
        let w = self.dual_lengths;
        Range {
            x: span_of(s0[0], r * w[0] + BzSearch::SEARCH_MARGIN),
            y: span_of(s0[1], r * w[1] + BzSearch::SEARCH_MARGIN),
            z: span_of(s0[2], r * w[2] + BzSearch::SEARCH_MARGIN),
        }
    }

    pub fn set_bz_address(
        self,
        m: Candidate,
        address: Bounded<256>,
        nint: Bounded<4096>,
    ) -> [i64; 3]
        ensures { result ≡ items (set_bz_address (search_view self) (vector_of address.v) (vector_of nint.v) (vector_of m.v)) }
    {
        let d = self.d_diag;
        let delta = common::matvec_ii(self.q_inv.m, difference(m, nint).v);
        [
            moved_by(address.v[0], delta[0], d[0]),
            moved_by(address.v[1], delta[1], d[1]),
            moved_by(address.v[2], delta[2], d[2]),
        ]
    }

    pub fn point(self, i: usize) -> Point
        requires { i < size (search_view self).d }
        ensures index_value { result.index ≡ i }
        ensures address_value { result.address.v ≡ items (address (search_view self).d i) }
        ensures result_value { point_split result ≡ split_reduced (search_view self) (address (search_view self).d i) }
    {
        let g = grgrid::grid_of(self.d_diag);
        let address = grgrid::grid_address_from_index(GridPoint { p: i, g });
        let s = self.split_reduced_coordinates(address);
        let s0 = s.s0;
        let nint = s.nint;
        let address = address.v;
        Point {
            s0,
            nint: Bounded { v: nint },
            address: Bounded { v: address },
            index: i,
        }
    }
}
