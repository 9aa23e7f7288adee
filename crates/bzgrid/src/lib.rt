// Brillouin-zone grid address construction.
#![tactic(auto)]

pub mod tables;

ghost use Rattle.std.specs.Prelude.{◌≡◌, true, false, ◌+◌, ◌*◌, ◌/◌, ◌≤◌, ◌<◌, T, pos, negsuc, length, replicate, Ok, IfOk, cond};
ghost use Rattle.grgrid.specs.Grid.{size};
ghost use Rattle.grgrid.specs.Sides.{sides};
ghost use Rattle.bzgrid.specs.Table.{images_at, doubled};
ghost use Rattle.bzgrid.specs.Code.Writing.{if_sparse, placed_flat, with_mesh};
ghost use Rattle.bzgrid.specs.Code.Walked.{walk_of, images_in, blank, WrittenTo, lengths_for, judged, MeshFits};
ghost use Rattle.bzsearch.specs.SearchView.{search_view};
ghost use Rattle.bzgrid.specs.BzGridAddresses.{grid_type_of, is_sparse, all_found, within_limits, input_tests, as_told, has_room, built, sizes_of};
ghost use Rattle.bzgrid.specs.BzGridAddresses.{tables_told, bz_grid_addresses, bz_grid_fill, bz_grid_sizes};

use bzsearch::{Basis, BzSearch};
use common::Refusal;
use grgrid::Grid;

// The layout of an image table: type 1 is sparse, type 2 dense.
#[derive(Clone, Copy, Debug, PartialEq, Eq)]
pub enum GridType {
    Sparse,
    Dense,
}

impl TryFrom<i64> for GridType {
    type Error = Refusal;

    ghost try_from_gives = { λ t r. r ≡ grid_type_of t };

    fn try_from(t: i64) -> Result<GridType, Refusal> {
        match t {
            1 => Ok(GridType::Sparse),
            2 => Ok(GridType::Dense),
            _ => Err(Refusal::BadGridType),
        }
    }
}

// In places.
#[derive(Clone, Copy)]
pub struct Lengths {
    pub addresses: usize,
    pub map: usize,
    pub grg: usize,
}

// Which grid a table is of. Who reads the table hands it over, so that it may hold any numbers.
#[derive(Clone, Copy, Debug, PartialEq, Eq)]
pub struct TableRecord {
    pub d: [i64; 3],
    pub ps: [i64; 3],
    pub bz_grid_type: i64,
}

// What is told of tables that were built.
#[derive(Clone, Copy)]
pub struct Built {
    pub lengths: Lengths,
    pub table: TableRecord,
}

fn within_limits(d: [i64; 3], q: [[i64; 3]; 3], ps: [i64; 3], lattice: [[f64; 3]; 3]) -> bool
    ensures { result ≡ within_limits d q ps lattice }
{
    common::diagonal_fits(d)
        && common::matrix_within(q, 1000)
        && common::shift_fits(ps)
        && bzsearch::lattice_fits(lattice)
}

#[tactic(auto, unfolding(crate::specs::BzGridAddresses::input_tests))]
fn input_tests(
    d: [i64; 3],
    q: [[i64; 3]; 3],
    ps: [i64; 3],
    lattice: [[f64; 3]; 3],
    bz_grid_type: i64,
) -> Result<GridType, Refusal>
    ensures { result ≡ input_tests d q ps lattice bz_grid_type }
{
    if !within_limits(d, q, ps, lattice) {
        return Err(Refusal::OutsideLimits);
    }
    let t = GridType::try_from(bz_grid_type)?;
    if !bzsearch::is_unimodular(Basis { m: q }) {
        return Err(Refusal::NotUnimodularQ);
    }
    if bzsearch::is_singular(lattice) {
        return Err(Refusal::SingularReciprocalLattice);
    }
    Ok(t)
}

pub fn is_sparse(t: GridType) -> bool
    ensures { result ≡ is_sparse t }
{
    t == GridType::Sparse
}

// -1 in every place of the three. Outputs as slices: see docs/DECISIONS.md, "Output slices".
pub fn wipe(addresses: &mut [i64], map: &mut [i64], grg: &mut [i64])
    ensures addresses_after { addresses.new ≡ replicate (length addresses.old) (negsuc 0) }
    ensures map_after { map.new ≡ replicate (length map.old) (negsuc 0) }
    ensures grg_after { grg.new ≡ replicate (length grg.old) (negsuc 0) }
{
    addresses.fill(-1);
    map.fill(-1);
    grg.fill(-1);
}

// Whoever was told the lengths beforehand hands them over, in places.
fn as_told(told: Option<[i64; 3]>, l: Lengths) -> bool
    requires { (l.addresses < 9223372036854775808) × (l.map < 9223372036854775808) × (l.grg < 9223372036854775808) }
    ensures { result ≡ as_told told l }
{
    match told {
        None => true,
        Some(n) => n == [l.addresses as i64, l.map as i64, l.grg as i64],
    }
}

fn has_room(l: Lengths, a: usize, b: usize, c: usize) -> bool
    ensures { result ≡ has_room l a b c }
{
    l.addresses <= a && l.map <= b && l.grg <= c
}

// Of m images of n points. A bool here and below: the specs cond by one, and the enum would be a bool again at each use.
fn lengths_of(sparse: bool, n: usize, m: usize) -> Lengths
    requires { (n ≤ 65536) × (m < 2305843009213693952) }
    ensures { result ≡ lengths_for sparse n m }
{
    Lengths {
        addresses: 3 * m,
        map: tables::if_sparse(sparse, 8 * n) + (n + 1),
        grg: m,
    }
}

// The doubled mesh.
pub fn doubled(g: Grid) -> Grid
    requires { (g.x ≤ 256) × (g.y ≤ 256) × (g.z ≤ 256) }
    ensures { sides result ≡ doubled (sides g) }
{
    Grid {
        x: 2 * g.x,
        y: 2 * g.y,
        z: 2 * g.z,
    }
}

// The map over the doubled mesh: the place of the last image that falls at each of its points.
fn fill_mesh(addresses: &[i64], g: Grid, map: &mut [i64])
    requires { length map.old ≡ size (sides g) }
    ensures { map.new ≡ placed_flat (sides g) addresses.now (length addresses.now / 3) (replicate (size (sides g)) (pos (size (sides g)))) }
{
    let empty = map.len() as i64;
    map.fill(empty);
    tables::place_images(addresses, g, map);
}

// In a sparse table the map begins with the doubled mesh, whose grid is g.
fn add_mesh(sparse: bool, addresses: &[i64], g: Grid, map: &mut [i64])
    requires { if_sparse sparse (size (sides g)) ≤ length map.old }
    ensures { map.new ≡ with_mesh sparse (sides g) addresses.now (length addresses.now / 3) map.old }
{
    if sparse {
        let e = grgrid::points(g);
        fill_mesh(addresses, g, &mut map[0..e]);
    }
}

// The tests of the lengths for m images, and the mesh. The third output has c places.
pub fn finish(
    sparse: bool,
    g: Grid,
    m: usize,
    told: Option<[i64; 3]>,
    addresses: &[i64],
    map: &mut [i64],
    c: usize,
) -> Result<Lengths, Refusal>
    requires fact_1 { MeshFits (sides g) }
    requires fact_2 { m < 2305843009213693952 }
    ensures value { result ≡ judged told (lengths_for sparse (size (sides g)) m) (length addresses.now) (length map.old) c }
    ensures map_after { IfOk result (λ _. map.new ≡ with_mesh sparse (doubled (sides g)) addresses.now m map.old) }
{
    let l = lengths_of(sparse, grgrid::points(g), m);
    if !as_told(told, l) {
        return Err(Refusal::OtherSizes);
    }
    if !has_room(l, addresses.len(), map.len(), c) {
        return Err(Refusal::WrongLength);
    }
    add_mesh(sparse, &addresses[0..l.addresses], doubled(g), map);
    Ok(l)
}

// The walk over n points, on outputs of -1 alone.
fn walk_points(
    s: BzSearch,
    sparse: bool,
    n: usize,
    addresses: &mut [i64],
    map: &mut [i64],
    grg: &mut [i64],
) -> Option<usize>
    requires { n ≡ size (search_view s).d }
    ensures value { result ≡ walk_of sparse (images_at (search_view s)) n }
    ensures result_bound { images_in result < 1099511627776 }
    ensures written_to { let g = images_at (search_view s) in
        let a = blank (length addresses.old) in
        let b = blank (length map.old) in
        let c = blank (length grg.old) in
        T (all_found g n) → WrittenTo sparse g n (if_sparse sparse (8 * n)) a b c addresses.new map.new grg.new }
{
    let base = tables::if_sparse(sparse, 8 * n);
    wipe(&mut *addresses, &mut *map, &mut *grg);
    tables::write_table(s, sparse, n, base, addresses, map, grg)
}

// Both layouts, from a search within the limits. Where they are refused the outputs say nothing.
fn fill_tables(
    s: BzSearch,
    t: GridType,
    told: Option<[i64; 3]>,
    addresses: &mut [i64],
    map: &mut [i64],
    grg: &mut [i64],
) -> Result<Lengths, Refusal>
    ensures value { result ≡ (built t (search_view s) told (length addresses.old) (length map.old) (length grg.old)).answer }
    ensures filled { let o = built t (search_view s) told (length addresses.old) (length map.old) (length grg.old) in
        IfOk result (λ l. record { answer = Ok l; addresses = addresses.new; map = map.new; grg = grg.new } ≡ o) }
{
    let d = s.d_diag;
    let g = grgrid::grid_of(d);
    let sparse = is_sparse(t);
    let m = walk_points(
        s,
        sparse,
        grgrid::points(g),
        &mut *addresses,
        &mut *map,
        grg,
    )
    .ok_or(Refusal::SearchFailed)?;
    finish(sparse, g, m, told, addresses, map, grg.len())
}

// The same, with -1 in every place where they are refused.
fn build(
    s: BzSearch,
    t: GridType,
    told: Option<[i64; 3]>,
    addresses: &mut [i64],
    map: &mut [i64],
    grg: &mut [i64],
) -> Result<Lengths, Refusal>
    ensures { let o = built t (search_view s) told (length addresses.old) (length map.old) (length grg.old) in
        record { answer = result; addresses = addresses.new; map = map.new; grg = grg.new } ≡ o }
{
    match fill_tables(s, t, told, &mut *addresses, &mut *map, &mut *grg) {
        Ok(l) => Ok(l),
        Err(r) => {
            wipe(addresses, map, grg);
            Err(r)
        }
    }
}

// Where lengths are told they must be those of the tables.
fn tables_told(
    d: [i64; 3],
    q: [[i64; 3]; 3],
    ps: [i64; 3],
    lattice: [[f64; 3]; 3],
    bz_grid_type: i64,
    told: Option<[i64; 3]>,
    addresses: &mut [i64],
    map: &mut [i64],
    grg: &mut [i64],
) -> Result<Built, Refusal>
    ensures { let o = tables_told d q ps lattice bz_grid_type told (length addresses.old) (length map.old) (length grg.old) in
        record { answer = result; addresses = addresses.new; map = map.new; grg = grg.new } ≡ o }
{
    match input_tests(d, q, ps, lattice, bz_grid_type) {
        Ok(t) => {
            let s = BzSearch::new(d, common::shift(ps), Basis { m: q }, lattice);
            let lengths = build(s, t, told, addresses, map, grg)?;
            Ok(Built {
                lengths,
                table: TableRecord {
                    d,
                    ps,
                    bz_grid_type,
                },
            })
        }
        Err(r) => {
            wipe(addresses, map, grg);
            Err(r)
        }
    }
}

// Image tables: the addresses, the map from the grid (type 2) or from the doubled mesh (type 1) to them, and the grid point of each.
pub fn bz_grid_addresses(
    d: [i64; 3],
    q: [[i64; 3]; 3],
    ps: [i64; 3],
    lattice: [[f64; 3]; 3],
    bz_grid_type: i64,
    addresses: &mut [i64],
    map: &mut [i64],
    grg: &mut [i64],
) -> Result<Built, Refusal>
    ensures { let o = bz_grid_addresses d q ps lattice bz_grid_type (length addresses.old) (length map.old) (length grg.old) in
        record { answer = result; addresses = addresses.new; map = map.new; grg = grg.new } ≡ o }
{
    tables_told(d, q, ps, lattice, bz_grid_type, None, addresses, map, grg)
}

// The same, where the three lengths are known beforehand: any others are refused.
pub fn bz_grid_fill(
    d: [i64; 3],
    q: [[i64; 3]; 3],
    ps: [i64; 3],
    lattice: [[f64; 3]; 3],
    bz_grid_type: i64,
    sizes: [i64; 3],
    addresses: &mut [i64],
    map: &mut [i64],
    grg: &mut [i64],
) -> Result<Built, Refusal>
    ensures { let o = bz_grid_fill d q ps lattice bz_grid_type sizes (length addresses.old) (length map.old) (length grg.old) in
        record { answer = result; addresses = addresses.new; map = map.new; grg = grg.new } ≡ o }
{
    tables_told(
        d,
        q,
        ps,
        lattice,
        bz_grid_type,
        Some(sizes),
        addresses,
        map,
        grg,
    )
}

// The lengths of the tables of a search: the walk, with no room.
fn sizes_of(s: BzSearch, t: GridType) -> Result<Lengths, Refusal>
    ensures { result ≡ sizes_of t (search_view s) }
{
    let sparse = is_sparse(t);
    let n = grgrid::points(grgrid::grid_of(s.d_diag));
    let m = walk_points(s, sparse, n, &mut [], &mut [], &mut []).ok_or(Refusal::SearchFailed)?;
    Ok(lengths_of(sparse, n, m))
}

// The three lengths of the tables alone, in places.
#[tactic(auto, unfolding(crate::specs::BzGridAddresses::bz_grid_sizes))]
pub fn bz_grid_sizes(
    d: [i64; 3],
    q: [[i64; 3]; 3],
    ps: [i64; 3],
    lattice: [[f64; 3]; 3],
    bz_grid_type: i64,
) -> Result<Lengths, Refusal>
    ensures { result ≡ bz_grid_sizes d q ps lattice bz_grid_type }
{
    let t = input_tests(d, q, ps, lattice, bz_grid_type)?;
    sizes_of(
        BzSearch::new(d, common::shift(ps), Basis { m: q }, lattice),
        t,
    )
}
