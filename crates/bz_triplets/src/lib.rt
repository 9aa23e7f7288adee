// Triplets of images on a generalized regular grid: `bz_triplets_at_q` of the Rust's triplet_grid.
#![tactic(auto)]

mod choices;
mod classes;

ghost use Rattle.std.specs.Prelude.{◌≡◌, ◌&&◌, ◌||◌, [], ◌*◌, T, eqb, pos, nat_abs, length, IfOk};
ghost use Rattle.std.specs.Int.Signed.{non_neg};
ghost use Rattle.common.specs.Tested.{Accepted};
ghost use Rattle.common.specs.Matrix.{entries};
ghost use Rattle.common.specs.Array.{vector_of, sides_of, matrix_of};
ghost use Rattle.common.specs.FloatMatrix.{float_matrix};
ghost use Rattle.common.specs.Limits.{matrix_within, diagonal_fits, point_fits};
ghost use Rattle.grgrid.specs.Grid.{size};
ghost use Rattle.grgrid.specs.Sides.{sides};
ghost use Rattle.bzsearch.specs.Lattice.{bz_tolerance, lattice_fits};
ghost use Rattle.bzsearch.specs.SearchView.{float_nine};
ghost use Rattle.bztable.specs.Reading.{whole_addresses};
ghost use Rattle.bz_triplets.specs.BzTriplets.{lqd_inv, point_of, is_dense, input_tests, triplet_tests, BzTriplets, triplets_in, bz_triplets_at_q};
ghost use Rattle.bz_triplets.specs.Code.TripletsView.{row_over};

use bzgrid::{GridType, TableRecord};
use bztable::places::Place;
use bztable::reading::Table;
use bztable::{agreement, reading};
use choices::Measure;
pub use choices::Step;
use common::Refusal;
use grgrid::Grid;

fn over_sides(a: [f64; 3], d: [f64; 3]) -> [f64; 3]
    ensures { result ≡ row_over a d }
{
    [a[0] / d[0], a[1] / d[1], a[2] / d[2]]
}

// lattice · Q · diag(1 / d).
fn lqd_inv(lattice: [[f64; 3]; 3], q: [[i64; 3]; 3], d: [i64; 3]) -> [f64; 9]
    requires { T (diagonal_fits d) }
    ensures { result ≡ entries (lqd_inv (float_matrix lattice) (matrix_of q) (sides_of d)) [] }
{
    let s = float_matrix::row_to_d(d);
    let [x, y, z] = float_matrix::matmul_d(lattice, float_matrix::mat_i_to_d(q));
    common::flat([over_sides(x, s), over_sides(y, s), over_sides(z, s)])
}

fn measure_of(lattice: [[f64; 3]; 3], q: [[i64; 3]; 3], d: [i64; 3]) -> Measure
    requires { T (diagonal_fits d) }
    ensures lqd_value { float_nine result.lqd ≡ lqd_inv (float_matrix lattice) (matrix_of q) (sides_of d) }
    ensures tolerance_value { result.tolerance ≡ bz_tolerance (float_matrix lattice) (sides_of d) }
{
    Measure {
        lqd: lqd_inv(lattice, q, d),
        tolerance: bzsearch::bz_tolerance(lattice, d),
    }
}

// The lengths of the four outputs.
#[derive(Clone, Copy)]
struct Rooms {
    triplets: usize,
    left: usize,
    lengths: usize,
    cells: usize,
}

fn lengths_fit(addresses: &[i64], own: usize, r: Rooms) -> bool
    ensures { result ≡ whole_addresses addresses.now && (eqb r.triplets (own * 3) && (eqb r.left own && (eqb r.lengths own && eqb r.cells (own * 3)))) }
{
    reading::whole_addresses(addresses)
        && common::is_thrice(r.triplets, own)
        && r.left == own
        && r.lengths == own
        && common::is_thrice(r.cells, own)
}

fn limits_fit(d: [i64; 3], q: [[i64; 3]; 3], lattice: [[f64; 3]; 3]) -> bool
    ensures { result ≡ diagonal_fits d && (matrix_within 1000 (matrix_of q) && lattice_fits (float_matrix lattice)) }
{
    common::diagonal_fits(d) && common::matrix_within(q, 1000) && bzsearch::lattice_fits(lattice)
}

// Type 2 has q0 by an image, whose index may be anything.
fn point_fits(t: Result<GridType, Refusal>, q0: i64, d: [i64; 3]) -> bool
    requires { T (diagonal_fits d) }
    ensures { result ≡ is_dense t || point_fits q0 (pos (size (sides_of d))) }
{
    is_dense(t) || common::point_fits(q0, grgrid::points(grgrid::grid_of(d)) as i64)
}

fn is_dense(t: Result<GridType, Refusal>) -> bool
    ensures { result ≡ is_dense t }
{
    t == Ok(GridType::Dense)
}

#[tactic(auto, unfolding(crate::specs::BzTriplets::input_tests))]
fn input_tests(
    layout: Result<GridType, Refusal>,
    q0: i64,
    addresses: &[i64],
    class_map: &[i64],
    d: [i64; 3],
    q: [[i64; 3]; 3],
    lattice: [[f64; 3]; 3],
    bz_grid_type: i64,
    r: Rooms,
) -> Result<GridType, Refusal>
    ensures { result ≡ input_tests layout q0 addresses.now class_map.now d q lattice bz_grid_type r.triplets r.left r.lengths r.cells }
{
    if !lengths_fit(addresses, grgrid::own_places(class_map), r) {
        return Err(Refusal::WrongLength);
    }
    if !limits_fit(d, q, lattice) {
        return Err(Refusal::OutsideLimits);
    }
    if !point_fits(GridType::try_from(bz_grid_type), q0, d) {
        return Err(Refusal::OutsideLimits);
    }
    layout
}

// The grid point of q0, which type 2 has by an image at address a0.
fn point_of(t: GridType, g: Grid, q0: i64, a0: [i64; 3]) -> usize
    requires { T (non_neg q0) }
    ensures { result ≡ point_of (sides g) t (nat_abs q0) (vector_of a0) }
{
    match t {
        GridType::Sparse => q0 as usize,
        GridType::Dense => grgrid::fold_address(a0, g).index,
    }
}

// With the tests of the input. A refusal may leave anything in the outputs, which are slices: see docs/DECISIONS.md, 'Output slices'.
fn triplet_tests(
    layout: Result<GridType, Refusal>,
    q0: i64,
    addresses: &[i64],
    map: &[i64],
    class_map: &[i64],
    d: [i64; 3],
    q: [[i64; 3]; 3],
    lattice: [[f64; 3]; 3],
    bz_grid_type: i64,
    out: &mut [i64],
    left: &mut [i64],
    left_length: &mut [f64],
    cells: &mut [i64],
) -> Result<(), Refusal>
    ensures value { let n = length out.old in
        let m = length left.old in
        let l = length left_length.old in
        let k = length cells.old in
        result ≡ triplet_tests layout q0 addresses.now map.now class_map.now d q lattice bz_grid_type n m l k }
    ensures chosen { let n = length out.old in
        let m = length left.old in
        let l = length left_length.old in
        let k = length cells.old in
        let o : BzTriplets = record { answer = Accepted; out = out.new; left = left.new; left_length = left_length.new; cells = cells.new } in
        IfOk result (λ _. o ≡ triplets_in layout q0 addresses.now map.now class_map.now d q lattice bz_grid_type n m l k) }
{
    let r = Rooms {
        triplets: out.len(),
        left: left.len(),
        lengths: left_length.len(),
        cells: cells.len(),
    };
    let t = input_tests(
        layout,
        q0,
        addresses,
        class_map,
        d,
        q,
        lattice,
        bz_grid_type,
        r,
    )?;
    let g = grgrid::grid_of(d);
    let table = Table {
        t,
        g,
        addresses,
        map,
    };
    let a0 = reading::address_of(addresses, q0)?;
    let point = Place {
        at: point_of(t, g, q0, a0.v),
    };
    classes::fill_triplets(
        &table,
        a0,
        point,
        measure_of(lattice, q, d),
        class_map,
        out,
        left,
        left_length,
        cells,
    )
}

// In tables of that layout.
fn triplets_in(
    layout: Result<GridType, Refusal>,
    q0: i64,
    addresses: &[i64],
    map: &[i64],
    class_map: &[i64],
    d: [i64; 3],
    q: [[i64; 3]; 3],
    lattice: [[f64; 3]; 3],
    bz_grid_type: i64,
    out: &mut [i64],
    left: &mut [i64],
    left_length: &mut [f64],
    cells: &mut [i64],
) -> Result<(), Refusal>
    ensures { let n = length out.old in
        let m = length left.old in
        let l = length left_length.old in
        let k = length cells.old in
        let o : BzTriplets = record { answer = result; out = out.new; left = left.new; left_length = left_length.new; cells = cells.new } in
        o ≡ triplets_in layout q0 addresses.now map.now class_map.now d q lattice bz_grid_type n m l k }
{
    let answer = triplet_tests(
        layout,
        q0,
        addresses,
        map,
        class_map,
        d,
        q,
        lattice,
        bz_grid_type,
        &mut *out,
        &mut *left,
        &mut *left_length,
        &mut *cells,
    );
    if answer.is_err() {
        out.fill(-1);
        left.fill(-1);
        left_length.fill(-1.0);
        cells.fill(-1);
    }
    answer
}

// A triplet of images (q0, q1, q2) with q0 + q1 + q2 = G for each class: `class_map` has the classes that `ir_triplets_at_q` left. Beside it stands whether its
// sum closed, or the squared length that is left over, and the cell of the sum, by the quotients of G by the diagonal.
pub fn bz_triplets_at_q(
    q0: i64,
    addresses: &[i64],
    map: &[i64],
    table: TableRecord,
    class_map: &[i64],
    d: [i64; 3],
    q: [[i64; 3]; 3],
    lattice: [[f64; 3]; 3],
    bz_grid_type: i64,
    out: &mut [i64],
    left: &mut [i64],
    left_length: &mut [f64],
    cells: &mut [i64],
) -> Result<(), Refusal>
    ensures { let n = length out.old in
        let m = length left.old in
        let l = length left_length.old in
        let k = length cells.old in
        let o : BzTriplets = record { answer = result; out = out.new; left = left.new; left_length = left_length.new; cells = cells.new } in
        o ≡ bz_triplets_at_q q0 addresses.now map.now table class_map.now d q lattice bz_grid_type n m l k }
{
    let agreed = agreement::agrees_grid(table, d, bz_grid_type);
    let layout = agreement::layout_where(agreed, bz_grid_type);
    triplets_in(
        layout,
        q0,
        addresses,
        map,
        class_map,
        d,
        q,
        lattice,
        bz_grid_type,
        out,
        left,
        left_length,
        cells,
    )
}
