// Rotation of an image.
ghost use Rattle.std.specs.Prelude.{◌≡◌, ◌&&◌, ◌≤◌, ◌<◌, T, IfOk, IfSome};
ghost use Rattle.common.specs.Array.{vector_of, items, matrix_of, Sized};
ghost use Rattle.common.specs.Limits.{matrix_within, diagonal_fits, shift_fits};
ghost use Rattle.grgrid.specs.Grid.{size};
ghost use Rattle.grgrid.specs.Sides.{sides};
ghost use Rattle.bztable.specs.Rotate.{turned, among_run, among_images, image_of, rotate_tests, rotated_at, rotate_in, rotate_bz_grid_index};

use crate::reading::Table;
use crate::{agreement, reading};
use bzgrid::{GridType, TableRecord};
use common::{Refusal, Shift};
use grgrid::{Address, Rotation};

// The image's place. A fallback is what the map holds at the point where no image has the rotated address.
#[derive(Clone, Copy, Debug, PartialEq, Eq)]
pub enum Rotated {
    Image(i64),
    Fallback(i64),
}

fn limits_fit(rotation: [[i64; 3]; 3], d: [i64; 3], ps: [i64; 3]) -> bool
    ensures { result ≡ diagonal_fits d && (shift_fits ps && matrix_within 100000 (matrix_of rotation)) }
{
    common::diagonal_fits(d) && common::shift_fits(ps) && common::matrix_within(rotation, 100000)
}

#[tactic(auto, unfolding(crate::specs::Rotate::rotate_tests))]
pub fn rotate_tests(
    rotation: [[i64; 3]; 3],
    addresses: &[i64],
    d: [i64; 3],
    ps: [i64; 3],
    layout: Result<GridType, Refusal>,
) -> Result<GridType, Refusal>
    ensures { result ≡ rotate_tests rotation addresses.now d ps layout }
{
    if !reading::whole_addresses(addresses) {
        return Err(Refusal::WrongLength);
    }
    if !limits_fit(rotation, d, ps) {
        return Err(Refusal::OutsideLimits);
    }
    layout
}

// The address that a rotation carries address a to.
#[inline(always)]
fn turned(a: Address, rotation: Rotation, ps: Shift) -> [i64; 3]
    ensures { result ≡ items (turned (matrix_of rotation.m) (vector_of ps.v) (vector_of a.v)) }
{
    let doubled = grgrid::double_grid_address(a, ps);
    grgrid::halve_address(common::matvec_ii(rotation.m, doubled.v), ps)
}

// Among the images that the map bounds.
#[inline(always)]
fn among_run(table: &Table, a: [i64; 3], p: usize) -> Result<Option<usize>, Refusal>
    requires { p < size (sides table.now.g) }
    ensures value { let n = size (sides table.now.g) in
        result ≡ among_run table.now.addresses.now table.now.map.now (vector_of a) table.now.t p n }
    ensures below { IfOk result (λ f. IfSome f (λ i. i < 4611686018427387904)) }
{
    let r = reading::run_of(table, p)?;
    reading::find(table.addresses, a, r.from, r.to)
}

// The first image of point p is at its own place.
#[inline(always)]
fn among_sparse(table: &Table, a: [i64; 3], p: usize) -> Result<Option<usize>, Refusal>
    requires sparse { table.now.t ≡ GridType.Sparse }
    requires point { p < size (sides table.now.g) }
    ensures value { let n = size (sides table.now.g) in
        result ≡ among_images table.now.addresses.now table.now.map.now (vector_of a) GridType.Sparse p n }
    ensures below { IfOk result (λ f. IfSome f (λ i. i < 4611686018427387904)) }
{
    if reading::address_at(table.addresses, p)?.v == a {
        return Ok(Some(p));
    }
    among_run(table, a, p)
}

// A clause bounds p: a GridPoint has a grid of its own, which would have to be the table's.
#[inline(always)]
fn among_images(table: &Table, a: [i64; 3], p: usize) -> Result<Option<usize>, Refusal>
    requires { p < size (sides table.now.g) }
    ensures value { let n = size (sides table.now.g) in
        result ≡ among_images table.now.addresses.now table.now.map.now (vector_of a) table.now.t p n }
    ensures below { IfOk result (λ f. IfSome f (λ i. i < 4611686018427387904)) }
{
    match table.t {
        GridType::Sparse => among_sparse(table, a, p),
        GridType::Dense => among_run(table, a, p),
    }
}

// The image at address a, among those of the point that it folds to.
#[inline(always)]
fn image_of(table: &Table, a: [i64; 3]) -> Result<Rotated, Refusal>
    ensures { result ≡ image_of table.now.t (sides table.now.g) table.now.addresses.now table.now.map.now (vector_of a) }
{
    let p = grgrid::fold_address(a, table.g).index;
    match among_images(table, a, p)? {
        Some(i) => Ok(Rotated::Image(i as i64)),
        None => Ok(Rotated::Fallback(reading::place_at(table.map, p)? as i64)),
    }
}

// Where the image of that index is carried.
#[inline(always)]
#[tactic(auto, unfolding(crate::specs::Rotate::rotated_at))]
pub fn rotated_at(
    table: &Table,
    rotation: Rotation,
    ps: Shift,
    bz_grid_index: i64,
) -> Result<Rotated, Refusal>
    ensures { let t = table.now in
        result ≡ rotated_at t.t (sides t.g) t.addresses.now t.map.now (matrix_of rotation.m) (vector_of ps.v) bz_grid_index }
{
    let a = reading::address_of(table.addresses, bz_grid_index)?;
    image_of(table, turned(a, rotation, ps))
}

// In a table of that layout.
#[tactic(auto, unfolding(crate::specs::Rotate::rotate_in))]
fn rotate_in(
    layout: Result<GridType, Refusal>,
    bz_grid_index: i64,
    rotation: [[i64; 3]; 3],
    addresses: &[i64],
    map: &[i64],
    d: [i64; 3],
    ps: [i64; 3],
) -> Result<Rotated, Refusal>
    ensures { result ≡ rotate_in layout bz_grid_index rotation addresses.now map.now d ps }
{
    let t = rotate_tests(rotation, addresses, d, ps, layout)?;
    let table = Table {
        t,
        g: grgrid::grid_of(d),
        addresses,
        map,
    };
    let rotation = Rotation { m: rotation };
    rotated_at(&table, rotation, common::shift(ps), bz_grid_index)
}

// Rotate an image and return the place of the image that has the rotated address.
#[tactic(auto, unfolding(crate::specs::Rotate::rotate_bz_grid_index))]
pub fn rotate_bz_grid_index(
    bz_grid_index: i64,
    rotation: [[i64; 3]; 3],
    addresses: &[i64],
    map: &[i64],
    table: TableRecord,
    d: [i64; 3],
    ps: [i64; 3],
    bz_grid_type: i64,
) -> Result<Rotated, Refusal>
    ensures { result ≡ rotate_bz_grid_index bz_grid_index rotation addresses.now map.now table d ps bz_grid_type }
{
    let agreed = agreement::agrees(table, d, ps, bz_grid_type);
    let layout = agreement::layout_where(agreed, bz_grid_type);
    rotate_in(layout, bz_grid_index, rotation, addresses, map, d, ps)
}
