// Generalized regular grid helpers.
#![tactic(auto)]

mod grid;
mod point;

ghost use Rattle.std.specs.Prelude.{IfOk, IfSome, ◌≡◌, ◌+◌, ◌*◌, ◌≤◌, ◌<◌, cond, length, map, T};
ghost use Rattle.std.specs.Prelude.{ℤ, pos, negsuc, nat_abs, int_lt, ◌+ℤ◌, ◌*ℤ◌, ◌-ℤ◌, ◌≤ℤ◌};
ghost use Rattle.common.specs.Array.{vector_of, sides_of, items, matrix_of, matrices, Sized, SizedRows};
ghost use Rattle.integer.specs.Division.{div_euclid};
ghost use Rattle.grgrid.specs.Grid.{size, fold, place, index, cell, address, double, half, halve, rotated, rotate};
ghost use Rattle.grgrid.specs.Folding.{Exact, grid_index_from_address, rotate_grid_index};
ghost use Rattle.common.specs.Matrix.{◌▹◌};
ghost use Rattle.grgrid.specs.Sides.{sides, remainders};
ghost use Rattle.grgrid.specs.ClassMap.{first_lower, class_map_of};
ghost use Rattle.grgrid.specs.Own.{own_places};
ghost use Rattle.grgrid.specs.IrGridMap.{map_tests, ir_grid_map};
ghost use Rattle.grgrid.specs.Addresses.{addresses, address_tests, all_grid_addresses};
ghost use Rattle.common.specs.Limits.{all_within, diagonal_fits};

use common::{Refusal, Shift};
pub use grid::{Address, Doubled, Grid, Rotation, Rotations};
pub use point::GridPoint;

// A clause asks for the limits: the type for them is Grid, which this makes of the numbers.
pub fn grid_of(d: [i64; 3]) -> Grid
    requires { T (diagonal_fits d) }
    ensures { sides result ≡ sides_of d }
{
    Grid {
        x: d[0] as usize,
        y: d[1] as usize,
        z: d[2] as usize,
    }
}

// How many points there are.
pub fn points(g: Grid) -> usize
    ensures { result ≡ size (sides g) }
{
    g.x * g.y * g.z
}

// A number of an address: its remainder in the cell, and the cell.
#[derive(Clone, Copy)]
struct Part {
    rest: usize,
    cell: i64,
}

// The cell of a number that lies in the first one or in the one before it.
#[inline(always)]
fn near_cell(a: i64) -> i64
    ensures { result ≡ cond (int_lt a (pos 0)) (negsuc 0) (pos 0) }
{
    if a < 0 { -1 } else { 0 }
}

// Its remainder.
#[inline(always)]
fn near_rest(a: i64, n: i64) -> i64
    requires { (pos 0 ≤ℤ n) × (n ≤ℤ pos 512) }
    ensures { result ≡ cond (int_lt a (pos 0)) (a +ℤ n) a }
{
    if a < 0 { a + n } else { a }
}

// Inlined, as what folds an address is, so that a caller of the index alone divides no more than it must. Most numbers lie near,
// which takes no division.
#[inline(always)]
fn fold(a: i64, n: usize) -> Part
    requires { (0 < n) × (n ≤ 512) }
    ensures value { result.rest ≡ fold a n }
    ensures cell_value { result.cell ≡ div_euclid a (pos n) }
    ensures upper_bound { result.rest < n }
{
    let n = n as i64;
    let rest = near_rest(a, n);
    if 0 <= rest && rest < n {
        return Part {
            rest: rest as usize,
            cell: near_cell(a),
        };
    }
    Part {
        rest: integer::rem_euclid(a, n) as usize,
        cell: integer::div_euclid(a, n),
    }
}

// A point by its remainders.
#[derive(Clone, Copy)]
pub struct Remainders {
    pub x: usize,
    pub y: usize,
    pub z: usize,
}

fn place(r: Remainders, g: Grid) -> usize
    requires { (r.x < g.x) × (r.y < g.y) × (r.z < g.z) }
    ensures value { result ≡ place (sides g) (remainders r) }
    ensures upper_bound { result < size (sides g) }
{
    r.z * g.x * g.y + r.y * g.x + r.x
}

// What an address folds to: the index of its point, and the cell that it lies in, by three whole quotients rounded down.
#[derive(Clone, Copy, Debug, PartialEq, Eq)]
pub struct Folded {
    pub index: usize,
    pub cell: [i64; 3],
}

#[tactic(auto, unfolding(crate::specs::Grid::index, crate::specs::Grid::cell))]
#[inline(always)]
pub fn fold_address(address: [i64; 3], g: Grid) -> Folded
    ensures value { result.index ≡ index (sides g) (vector_of address) }
    ensures cell_value { result.cell ≡ items (cell (sides g) (vector_of address)) }
    ensures upper_bound { result.index < size (sides g) }
{
    let x = fold(address[0], g.x);
    let y = fold(address[1], g.y);
    let z = fold(address[2], g.z);
    let r = Remainders {
        x: x.rest,
        y: y.rest,
        z: z.rest,
    };
    Folded {
        index: place(r, g),
        cell: [x.cell, y.cell, z.cell],
    }
}

// Map a grid address to its single-grid-point index, and tell its cell.
#[tactic(auto, unfolding(crate::specs::Folding::grid_index_from_address))]
pub fn grid_index_from_address(address: [i64; 3], d: [i64; 3]) -> Result<Folded, Refusal>
    ensures value { result ≡ grid_index_from_address address d }
    ensures exact { IfOk result (λ f. Exact (sides_of d) (vector_of address) f) }
{
    if !common::diagonal_fits(d) {
        return Err(Refusal::OutsideLimits);
    }
    Ok(fold_address(address, grid_of(d)))
}

// Inverse of `fold_address` for a canonical address.
#[tactic(auto, unfolding(crate::specs::Grid::address))]
pub fn grid_address_from_index(point: GridPoint) -> Address
    ensures { result.v ≡ items (address (sides point.g) point.p) }
{
    let p = point.p;
    let g = point.g;
    let layer = g.x * g.y;
    let z = p / layer;
    let y = (p - z * layer) / g.x;
    let x = p % g.x;
    Address {
        v: [x as i64, y as i64, z as i64],
    }
}

fn doubled(a: i64, s: i64) -> i64
    requires { (nat_abs a ≤ 10000000000000) × (nat_abs s ≤ 1) }
    ensures { result ≡ a *ℤ pos 2 +ℤ s }
{
    a * 2 + s
}

// Double-grid address `2 * address + PS`.
pub fn double_grid_address(address: Address, ps: Shift) -> Doubled
    ensures { result.v ≡ items (double (vector_of address.v) (vector_of ps.v)) }
{
    Doubled {
        v: [
            doubled(address.v[0], ps.v[0]),
            doubled(address.v[1], ps.v[1]),
            doubled(address.v[2], ps.v[2]),
        ],
    }
}

// Toward zero.
fn halved(a: i64, s: i64) -> i64
    requires { (nat_abs a ≤ 6000000000000300000) × (nat_abs s ≤ 1) }
    ensures { result ≡ half (a -ℤ s) }
{
    (a - s) / 2
}

// `(address - PS) / 2`, of a double-grid address.
pub fn halve_address(a: [i64; 3], ps: Shift) -> [i64; 3]
    requires { Sized 6000000000000300000 a }
    ensures { result ≡ items (halve (vector_of a) (vector_of ps.v)) }
{
    [
        halved(a[0], ps.v[0]),
        halved(a[1], ps.v[1]),
        halved(a[2], ps.v[2]),
    ]
}

// Fold a double-grid address.
#[inline(always)]
fn double_grid_index(a: [i64; 3], g: Grid, ps: Shift) -> Folded
    requires { Sized 6000000000000300000 a }
    ensures value { result.index ≡ index (sides g) (halve (vector_of a) (vector_of ps.v)) }
    ensures cell_value { result.cell ≡ items (cell (sides g) (halve (vector_of a) (vector_of ps.v))) }
    ensures upper_bound { result.index < size (sides g) }
{
    fold_address(halve_address(a, ps), g)
}

// A doubled address after a rotation, folded.
#[inline(always)]
fn rotated_index(a: Doubled, rotation: Rotation, g: Grid, ps: Shift) -> Folded
    ensures value { result.index ≡ index (sides g) (halve (matrix_of rotation.m ▹ vector_of a.v) (vector_of ps.v)) }
    ensures cell_value { result.cell ≡ items (cell (sides g) (halve (matrix_of rotation.m ▹ vector_of a.v) (vector_of ps.v))) }
    ensures upper_bound { result.index < size (sides g) }
{
    double_grid_index(common::matvec_ii(rotation.m, a.v), g, ps)
}

fn doubled_point(point: GridPoint, ps: Shift) -> Doubled
    ensures { result.v ≡ items (double (address (sides point.g) point.p) (vector_of ps.v)) }
{
    double_grid_address(grid_address_from_index(point), ps)
}

// Where a rotation carries a point.
#[inline(always)]
pub fn rotate_point(point: GridPoint, rotation: Rotation, ps: Shift) -> Folded
    ensures value { result.index ≡ rotate (sides point.g) (vector_of ps.v) (matrix_of rotation.m) point.p }
    ensures cell_value { result.cell ≡ items (cell (sides point.g) (rotated (sides point.g) (vector_of ps.v) (matrix_of rotation.m) point.p)) }
    ensures upper_bound { result.index < size (sides point.g) }
{
    rotated_index(doubled_point(point, ps), rotation, point.g, ps)
}

// Apply an integer rotation to a grid point and return the index of the rotated point, and the cell.
#[tactic(auto, unfolding(crate::specs::Folding::rotate_grid_index))]
pub fn rotate_grid_index(
    point: i64,
    rotation: [[i64; 3]; 3],
    d: [i64; 3],
    ps: [i64; 3],
) -> Result<Folded, Refusal>
    ensures { result ≡ rotate_grid_index point rotation d ps }
{
    if !common::diagonal_fits(d) {
        return Err(Refusal::OutsideLimits);
    }
    let g = grid_of(d);
    if !common::shift_fits(ps) {
        return Err(Refusal::OutsideLimits);
    }
    if !common::matrix_within(rotation, 100000) {
        return Err(Refusal::OutsideLimits);
    }
    if !common::point_fits(point, points(g) as i64) {
        return Err(Refusal::OutsideLimits);
    }
    let at = GridPoint {
        p: point as usize,
        g,
    };
    Ok(rotate_point(at, Rotation { m: rotation }, common::shift(ps)))
}

// Where the first rotation of the list that carries the point lower carries it.
fn first_lower(rotations: Rotations<'_>, point: GridPoint, ps: Shift) -> Option<usize>
    ensures value { result ≡ first_lower (map (rotate (sides point.g) (vector_of ps.v)) (matrices rotations.entry.list.now)) point.p }
    ensures lower { IfSome result (λ q. q < point.p) }
{
    let address = doubled_point(point, ps);
    // A loop: with `map` and `find` the proof would be of two closures.
    for n in 0..rotations.count() {
        let q = rotated_index(address, rotations.at(n), point.g, ps).index;
        if q < point.p {
            return Some(q);
        }
    }
    None
}

// Point by point upwards, a point that is carried lower gets the number found there.
pub fn number_points(rotations: Rotations<'_>, g: Grid, ps: Shift, out: &mut [i64])
    requires { length out.old ≡ size (sides g) }
    ensures { out.new ≡ map pos (class_map_of (sides g) (vector_of ps.v) (matrices rotations.entry.list.now)) }
{
    // By index: a turn reads a lower place of the same list.
    for p in 0..out.len() {
        out[p] = match first_lower(rotations, GridPoint { p, g }, ps) {
            Some(lower) => out[lower],
            None => p as i64,
        };
    }
}

// How many entries of a class map equal their own place.
pub fn own_places(list: &[i64]) -> usize
    ensures value { result ≡ own_places list.now (length list.now) }
    ensures upper_bound { result ≤ length list.now }
{
    let mut r = 0;
    for (i, number) in list.iter().enumerate() {
        if *number == i as i64 {
            r += 1;
        }
    }
    r
}

#[tactic(auto, using(crate::proofs::Refusing::refused, crate::proofs::Refusing::onward), unfolding(crate::specs::IrGridMap::map_tests))]
fn map_tests(rotations: &[i64], d: [i64; 3], ps: [i64; 3], places: usize) -> Result<(), Refusal>
    ensures { result ≡ map_tests rotations.now d ps places }
{
    if !common::whole_matrices(rotations) {
        return Err(Refusal::WrongLength);
    }
    if !common::diagonal_fits(d) {
        return Err(Refusal::OutsideLimits);
    }
    if places != points(grid_of(d)) {
        return Err(Refusal::WrongLength);
    }
    if !common::shift_fits(ps) {
        return Err(Refusal::OutsideLimits);
    }
    if !common::rotations_fit(rotations, 100000) {
        return Err(Refusal::OutsideLimits);
    }
    Ok(())
}

// The class map: the first rotation that lands lower gives a point its number, else it keeps its own. proofs/Classes says when that is the lowest of an orbit.
pub fn ir_grid_map(
    rotations: &[i64],
    d: [i64; 3],
    ps: [i64; 3],
    map: &mut [i64],
) -> Result<i64, Refusal>
    ensures { record { answer = result; map = map.new } ≡ ir_grid_map rotations.now d ps (length map.old) }
{
    let places = map.len();
    match map_tests(rotations, d, ps, places) {
        Ok(()) => {
            let list = Rotations { list: rotations };
            number_points(list, grid_of(d), common::shift(ps), map);
            let classes = own_places(map) as i64;
            Ok(classes)
        }
        Err(r) => {
            map.fill(-1);
            Err(r)
        }
    }
}

// The next point, upwards.
fn next(r: Remainders, g: Grid) -> Remainders
    requires { (r.x < g.x) × (r.y < g.y) × (r.z < g.z) }
    ensures { (result.x < g.x) × (result.y < g.y) × (place (sides g) (remainders result) ≡ place (sides g) (remainders r) + 1) }
{
    let x = r.x + 1;
    if x < g.x {
        return Remainders { x, y: r.y, z: r.z };
    }
    let y = r.y + 1;
    if y < g.y {
        return Remainders { x: 0, y, z: r.z };
    }
    Remainders {
        x: 0,
        y: 0,
        z: r.z + 1,
    }
}

// By index: of what `chunks_exact_mut` lends, a proof knows only the length afterwards. Number by number: a copy goes through a buffer.
fn write_addresses(g: Grid, out: &mut [i64])
    requires { length out.old ≡ size (sides g) * 3 }
    ensures { out.new ≡ addresses (sides g) (size (sides g)) }
{
    let mut r = Remainders { x: 0, y: 0, z: 0 };
    for p in 0..points(g) {
        out[p * 3] = r.x as i64;
        out[p * 3 + 1] = r.y as i64;
        out[p * 3 + 2] = r.z as i64;
        r = next(r, g);
    }
}

#[tactic(auto, using(crate::proofs::Refusing::refused, crate::proofs::Refusing::onward), unfolding(crate::specs::Addresses::address_tests))]
fn address_tests(d: [i64; 3], places: usize) -> Result<(), Refusal>
    ensures { result ≡ address_tests d places }
{
    if !common::diagonal_fits(d) {
        return Err(Refusal::OutsideLimits);
    }
    if places != points(grid_of(d)) * 3 {
        return Err(Refusal::WrongLength);
    }
    Ok(())
}

// The address of each point, in index order.
pub fn all_grid_addresses(d: [i64; 3], out: &mut [i64]) -> Result<(), Refusal>
    ensures { record { answer = result; addresses = out.new } ≡ all_grid_addresses d (length out.old) }
{
    let tested = address_tests(d, out.len());
    match tested {
        Ok(()) => write_addresses(grid_of(d), out),
        Err(_) => out.fill(-1),
    }
    tested
}
