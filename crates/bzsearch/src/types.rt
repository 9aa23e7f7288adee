// The records of a search, each with what holds of it.
ghost use Rattle.std.specs.Prelude.{◌<◌, T};
ghost use Rattle.common.specs.Array.{Sized};
ghost use Rattle.common.specs.Limits.{diagonal_fits};
ghost use Rattle.bzsearch.specs.Search.{Room};

use common::{Bounded, BoundedMatrix, Shift};

// By how many reciprocal lattice vectors an image lies from its point.
pub type Candidate = Bounded<16>;

// Q, the basis of the grid.
pub type Basis = BoundedMatrix<1000>;

// A point: what is left of its reduced coordinates and their whole part, its address and its index.
#[derive(Clone, Copy)]
pub struct Point {
    pub s0: [f64; 3],
    pub nint: Bounded<4096>,
    pub address: Bounded<256>,
    pub index: usize,
    ghost index_small: { index < 65536 },
}

// Parameters of the search for the BZ images of GR-grid points, within the limits.
#[derive(Clone, Copy)]
pub struct BzSearch {
    pub d_diag: [i64; 3],
    pub ps: Shift,
    pub q: Basis,
    pub q_inv: BoundedMatrix<2000000>,
    pub rec_lattice: [f64; 9],
    pub tolerance: f64,
    pub dual_lengths: [f64; 3],
    ghost diagonal: { T (diagonal_fits d_diag) },
}

// Reduced coordinates: what is left of each, and its nearest whole number.
#[derive(Clone, Copy)]
pub struct Split {
    pub s0: [f64; 3],
    pub nint: [i64; 3],
}

#[derive(Clone, Copy)]
pub struct Span {
    pub lo: i64,
    pub hi: i64,
}

// `lo <= m <= hi` along each axis.
#[derive(Clone, Copy)]
pub struct Range {
    pub x: Span,
    pub y: Span,
    pub z: Span,
}

// Numbers along an axis: `low` of them from a, then from b on, n in all.
#[derive(Clone, Copy)]
pub struct Numbers {
    pub a: i64,
    pub low: usize,
    pub b: i64,
    pub n: usize,
    ghost room: { Room (record { a = a; low = low; b = b; n = n }) },
}

// A box of candidates: the numbers along each axis.
#[derive(Clone, Copy)]
pub struct Axes {
    pub x: Numbers,
    pub y: Numbers,
    pub z: Numbers,
}

// The first box, which is clipped, and the whole one, of which only the candidates outside -2..2 are left; there is none where nothing is left.
#[derive(Clone, Copy)]
pub struct Boxes {
    pub first: Axes,
    pub rest: Option<Axes>,
}
