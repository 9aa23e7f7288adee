// Neighbours of images.
ghost use Rattle.std.specs.Prelude.{◌≡◌, ◌*◌, ◌/◌, ◌<◌, T, eqb, length, IfOk};
ghost use Rattle.common.specs.Tested.{Accepted, giving};
ghost use Rattle.common.specs.Array.{vector_of, items, Sized};
ghost use Rattle.common.specs.Limits.{all_within};
ghost use Rattle.grgrid.specs.Sides.{sides};
ghost use Rattle.bztable.specs.Neighbours.{moved, sparse_neighbour, image_among, dense_neighbour, neighbour};
ghost use Rattle.bztable.specs.Neighbours.{neighbours_from, all_neighbours, input_tests, neighbour_tests};
ghost use Rattle.bztable.specs.Neighbours.{neighbours_in, neighboring_grid_points_many};

use crate::reading::Table;
use crate::{agreement, reading};
use bzgrid::{GridType, TableRecord};
use common::Refusal;
use grgrid::Address;

fn moved(a: Address, o: [i64; 3]) -> [i64; 3]
    requires { Sized 1000 o }
    ensures { result ≡ items (moved (vector_of a.v) (vector_of o)) }
{
    [a.v[0] + o[0], a.v[1] + o[1], a.v[2] + o[2]]
}

// A place of the doubled mesh that holds 8 N is empty.
fn sparse_neighbour(table: &Table, b: [i64; 3]) -> Result<usize, Refusal>
    ensures value { result ≡ sparse_neighbour (sides table.now.g) table.now.map.now (vector_of b) }
    ensures below { IfOk result (λ p. p < 2199023255552) }
{
    let g = table.g;
    let mesh = bzgrid::doubled(g);
    let at = grgrid::fold_address(b, mesh).index;
    let i = reading::place_at(table.map, at)?;
    if i == 8 * grgrid::points(g) {
        return Ok(grgrid::fold_address(b, g).index);
    }
    Ok(i)
}

// Of several images the one at b, or else the first.
fn image_among(table: &Table, b: [i64; 3], lo: usize, hi: usize) -> Result<usize, Refusal>
    requires { (lo < 2199023255552) × (hi < 2199023255552) }
    ensures value { result ≡ image_among table.now.addresses.now (vector_of b) lo hi }
    ensures below { IfOk result (λ p. p < 2199023255552) }
{
    if hi <= lo + 1 {
        return Ok(lo);
    }
    Ok(reading::find(table.addresses, b, lo, hi)?.unwrap_or(lo))
}

fn dense_neighbour(table: &Table, b: [i64; 3]) -> Result<usize, Refusal>
    ensures value { result ≡ dense_neighbour (sides table.now.g) table.now.addresses.now table.now.map.now (vector_of b) }
    ensures below { IfOk result (λ p. p < 2199023255552) }
{
    let p = grgrid::fold_address(b, table.g).index;
    let r = reading::bounded(table.map, p, 0)?;
    image_among(table, b, r.from, r.to)
}

fn neighbour(table: &Table, b: [i64; 3]) -> Result<usize, Refusal>
    ensures value { result ≡ neighbour (sides table.now.g) table.now.addresses.now table.now.map.now (vector_of b) table.now.t }
    ensures below { IfOk result (λ p. p < 2199023255552) }
{
    match table.t {
        GridType::Sparse => sparse_neighbour(table, b),
        GridType::Dense => dense_neighbour(table, b),
    }
}

// Along each offset.
fn fill_row(table: &Table, base: Address, offsets: &[i64], out: &mut [i64]) -> Result<(), Refusal>
    requires fact_1 { T (all_within 1000 offsets.now) }
    requires fact_2 { length out.old ≡ length offsets.now / 3 }
    ensures { giving result out.new ≡ neighbours_from table.now.t (sides table.now.g) offsets.now table.now.addresses.now table.now.map.now (vector_of base.v) }
{
    for (j, at) in out.iter_mut().enumerate() {
        let b = moved(base, common::row_at(offsets, 3 * j));
        *at = neighbour(table, b)? as i64;
    }
    Ok(())
}

// A row for each point.
fn fill_rows(table: &Table, points: &[i64], offsets: &[i64], out: &mut [i64]) -> Result<(), Refusal>
    requires fact_1 { T (all_within 1000 offsets.now) }
    requires fact_2 { length out.old ≡ length points.now * (length offsets.now / 3) }
    ensures { giving result out.new ≡ all_neighbours table.now.t (sides table.now.g) offsets.now table.now.addresses.now table.now.map.now points.now }
{
    let n = offsets.len() / 3;
    let mut at = 0;
    for point in points {
        let base = reading::address_of(table.addresses, *point)?;
        let end = at + n;
        fill_row(table, base, offsets, &mut out[at..end])?;
        at = end;
    }
    Ok(())
}

#[tactic(auto, unfolding(crate::specs::Neighbours::input_tests))]
fn input_tests(
    points: usize,
    offsets: &[i64],
    addresses: &[i64],
    d: [i64; 3],
    places: usize,
) -> Result<(), Refusal>
    ensures { result ≡ input_tests points offsets.now addresses.now d places }
{
    if !reading::whole_addresses(offsets) {
        return Err(Refusal::WrongLength);
    }
    if !reading::whole_addresses(addresses) {
        return Err(Refusal::WrongLength);
    }
    if !common::is_product(places, points, offsets.len() / 3) {
        return Err(Refusal::WrongLength);
    }
    if !common::diagonal_fits(d) {
        return Err(Refusal::OutsideLimits);
    }
    if !common::all_within(offsets, 1000) {
        return Err(Refusal::OutsideLimits);
    }
    Ok(())
}

// With the tests of the input. A refusal may leave anything in the output.
fn neighbour_tests(
    points: &[i64],
    offsets: &[i64],
    addresses: &[i64],
    map: &[i64],
    d: [i64; 3],
    layout: Result<GridType, Refusal>,
    out: &mut [i64],
) -> Result<(), Refusal>
    ensures value { result ≡ neighbour_tests layout points.now offsets.now addresses.now map.now d (length out.old) }
    ensures found { let o = neighbours_in layout points.now offsets.now addresses.now map.now d (length out.old) in
        IfOk result (λ _. record { answer = Accepted; out = out.new } ≡ o) }
{
    input_tests(points.len(), offsets, addresses, d, out.len())?;
    if out.is_empty() {
        return Ok(());
    }
    let t = layout?;
    let table = Table {
        t,
        g: grgrid::grid_of(d),
        addresses,
        map,
    };
    fill_rows(&table, points, offsets, out)
}

// In a table of that layout.
fn neighbours_in(
    layout: Result<GridType, Refusal>,
    points: &[i64],
    offsets: &[i64],
    addresses: &[i64],
    map: &[i64],
    d: [i64; 3],
    out: &mut [i64],
) -> Result<(), Refusal>
    ensures { let o = neighbours_in layout points.now offsets.now addresses.now map.now d (length out.old) in
        record { answer = result; out = out.new } ≡ o }
{
    let answer = neighbour_tests(points, offsets, addresses, map, d, layout, out);
    if answer.is_err() {
        out.fill(-1);
    }
    answer
}

// The neighbours of each point along each offset: place i·n + j holds that of point i along offset j of n.
#[tactic(auto, unfolding(crate::specs::Neighbours::neighboring_grid_points_many))]
pub fn neighboring_grid_points_many(
    points: &[i64],
    offsets: &[i64],
    addresses: &[i64],
    map: &[i64],
    table: TableRecord,
    d: [i64; 3],
    bz_grid_type: i64,
    out: &mut [i64],
) -> Result<(), Refusal>
    ensures { let o = neighboring_grid_points_many points.now offsets.now addresses.now map.now table d bz_grid_type (length out.old) in
        record { answer = result; out = out.new } ≡ o }
{
    let agreed = agreement::agrees_grid(table, d, bz_grid_type);
    let layout = agreement::layout_where(agreed, bz_grid_type);
    neighbours_in(layout, points, offsets, addresses, map, d, out)
}
