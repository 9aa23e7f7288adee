// Whether a table can be read, and whether it could stand. It may hold anything, so every read is tested.
ghost use Rattle.std.specs.Prelude.{◌≡◌, not, [], ◌≤◌, ◌<◌, IfOk};
ghost use Rattle.common.specs.Array.{vector_of};
ghost use Rattle.common.specs.Every.{every};
ghost use Rattle.common.specs.Matrix.{same_vector};
ghost use Rattle.grgrid.specs.Grid.{size};
ghost use Rattle.grgrid.specs.Sides.{sides};
ghost use Rattle.bzgrid.specs.Table.{empty};
ghost use Rattle.bzgrid.specs.BzGridAddresses.{map_length};
ghost use Rattle.bztable.specs.Access.{place_in};
ghost use Rattle.bztable.specs.Reading.{got, address_at, place_at};
ghost use Rattle.bztable.specs.Code.PlacesView.{places_in};
ghost use Rattle.bzconvert.specs.Layout.{counted, is_read, all_below, all_read, table_read, could_stand};
ghost use Rattle.bzconvert.specs.Code.ByPlaces.{table_view, if_read, holds, falls, image_stands, apart, pairwise, point_stands};
ghost use Rattle.bzconvert.specs.Code.ByPlaces.{first_count, image_falls, mesh_holds, mesh_keeps, mesh_finds, mesh_stands, by_places};

use bzgrid::GridType;
use bztable::places::{Place, Places};
use bztable::reading::Table;
use bztable::{places, reading};
use common::Refusal;
use grgrid::{Address, Grid};

// How many images the map counts.
fn counted(table: &Table) -> Result<usize, Refusal>
    ensures { result ≡ counted table.now.t table.now.map.now (size (sides table.now.g)) }
{
    let n = grgrid::points(table.g);
    match table.t {
        GridType::Sparse => Ok(n + reading::place_at(table.map, 9 * n)?),
        GridType::Dense => reading::place_at(table.map, n),
    }
}

// How many places the map has.
fn map_length(table: &Table) -> usize
    ensures { result ≡ map_length table.now.t (sides table.now.g) }
{
    let n = grgrid::points(table.g);
    match table.t {
        GridType::Sparse => 8 * n + (n + 1),
        GridType::Dense => n + 1,
    }
}

// Place i can be read.
fn place_read(map: &[i64], i: usize) -> bool
    ensures { result ≡ is_read (place_at map.now i) }
{
    reading::place_at(map, i).is_ok()
}

// The i-th address can be read.
fn image_read(addresses: &[i64], i: usize) -> bool
    ensures { result ≡ is_read (address_at addresses.now i) }
{
    reading::address_at(addresses, i).is_ok()
}

// The first k places.
fn map_read(map: &[i64], k: usize) -> bool
    ensures { result ≡ all_below (λ i. is_read (place_at map.now i)) k }
{
    for i in 0..k {
        if !place_read(map, i) {
            return false;
        }
    }
    true
}

// The first m addresses.
fn images_read(addresses: &[i64], m: usize) -> bool
    ensures { result ≡ all_below (λ i. is_read (address_at addresses.now i)) m }
{
    for i in 0..m {
        if !image_read(addresses, i) {
            return false;
        }
    }
    true
}

// The whole map, and m images.
fn all_read(table: &Table, grg: &[i64], m: usize) -> bool
    ensures { result ≡ all_read table.now.t (sides table.now.g) (table_view table.now grg.now) m }
{
    map_read(table.map, map_length(table))
        && m <= 1099511627776
        && m <= grg.len()
        && images_read(table.addresses, m)
}

// How many images a table has that can be read.
#[tactic(auto, unfolding(crate::specs::Layout::table_read))]
pub fn table_read(table: &Table, grg: &[i64]) -> Result<usize, Refusal>
    ensures value { result ≡ table_read table.now.t (sides table.now.g) (table_view table.now grg.now) }
    ensures below { IfOk result (λ m. m ≤ 1099511627776) }
{
    let m = counted(table)?;
    if !all_read(table, grg, m) {
        return Err(Refusal::OutsideTable);
    }
    Ok(m)
}

// Place i holds n.
fn holds(list: &[i64], i: usize, n: usize) -> bool
    ensures { result ≡ holds list.now n i }
{
    match reading::place_at(list, i) {
        Ok(v) => v == n,
        Err(_) => false,
    }
}

// The i-th address folds to p.
fn falls(addresses: &[i64], g: Grid, i: usize, p: usize) -> bool
    ensures { result ≡ falls (sides g) addresses.now p i }
{
    match reading::address_at(addresses, i) {
        Ok(a) => grgrid::fold_address(a.v, g).index == p,
        Err(_) => false,
    }
}

// The image at place i is one of point p.
fn image_stands(table: &Table, grg: &[i64], i: usize, p: usize) -> bool
    ensures { result ≡ image_stands (sides table.now.g) (table_view table.now grg.now) p i }
{
    falls(table.addresses, table.g, i, p) && holds(grg, i, p)
}

// The j-th address is not a.
fn differs(addresses: &[i64], a: Address, j: usize) -> bool
    ensures { result ≡ if_read (λ b. not (same_vector (vector_of a.v) b)) (address_at addresses.now j) }
{
    match reading::address_at(addresses, j) {
        Ok(b) => a.v != b.v,
        Err(_) => false,
    }
}

// The i-th address and the j-th are not the same.
fn apart(addresses: &[i64], i: usize, j: usize) -> bool
    ensures { result ≡ apart addresses.now i j }
{
    match reading::address_at(addresses, i) {
        Ok(a) => differs(addresses, a, j),
        Err(_) => false,
    }
}

// Each of a point's images.
fn every_stands(table: &Table, grg: &[i64], r: Places, p: usize) -> bool
    ensures { result ≡ every (image_stands (sides table.now.g) (table_view table.now grg.now) p) (places_in r) }
{
    for k in 0..r.count {
        if !image_stands(table, grg, places::place_in(r, k).at, p) {
            return false;
        }
    }
    true
}

// The k-th image is none of those before it.
fn is_new(addresses: &[i64], r: Places, k: usize) -> bool
    requires { k < r.count }
    ensures { let at = place_in r.first.at r.others in
        result ≡ all_below (λ j. apart addresses.now (at j) (at k)) k }
{
    let at = places::place_in(r, k).at;
    for j in 0..k {
        if !apart(addresses, places::place_in(r, j).at, at) {
            return false;
        }
    }
    true
}

// No address twice.
fn each_new(addresses: &[i64], r: Places) -> bool
    ensures { result ≡ pairwise (apart addresses.now) (places_in r) }
{
    for k in 0..r.count {
        if !is_new(addresses, r, k) {
            return false;
        }
    }
    true
}

// The images of point p.
fn point_stands(table: &Table, grg: &[i64], p: Place) -> bool
    ensures { result ≡ point_stands table.now.t (sides table.now.g) (table_view table.now grg.now) p.at }
{
    match places::places_at(table, p) {
        Ok(r) => {
            r.count != 0 && every_stands(table, grg, r, p.at) && each_new(table.addresses, r)
        }
        Err(_) => false,
    }
}

// Those of each point.
fn points_stand(table: &Table, grg: &[i64]) -> bool
    ensures { let d = sides table.now.g in
        result ≡ all_below (point_stands table.now.t d (table_view table.now grg.now)) (size d) }
{
    for p in 0..grgrid::points(table.g) {
        if !point_stands(table, grg, Place { at: p }) {
            return false;
        }
    }
    true
}

// The counts start from 0. Where they fall a point has no images.
fn starts(table: &Table) -> bool
    ensures { result ≡ holds table.now.map.now 0 (first_count table.now.t (size (sides table.now.g))) }
{
    match table.t {
        GridType::Sparse => holds(table.map, 8 * grgrid::points(table.g), 0),
        GridType::Dense => holds(table.map, 0, 0),
    }
}

// Image v, of m, falls on place k of the doubled mesh.
fn image_falls(table: &Table, m: usize, k: usize, v: usize) -> bool
    ensures { result ≡ image_falls (sides table.now.g) (table_view table.now []) m k v }
{
    v < m && falls(table.addresses, bzgrid::doubled(table.g), v, k)
}

// Place k holds 8 N, or an image that falls there.
fn mesh_holds(table: &Table, m: usize, k: usize) -> bool
    ensures { result ≡ mesh_holds (sides table.now.g) (table_view table.now []) m k }
{
    match reading::place_at(table.map, k) {
        Ok(v) => v == 8 * grgrid::points(table.g) || image_falls(table, m, k, v),
        Err(_) => false,
    }
}

// Place k holds an image that falls there, and none before image i.
fn mesh_keeps(table: &Table, m: usize, i: usize, k: usize) -> bool
    ensures { result ≡ mesh_keeps (sides table.now.g) (table_view table.now []) m i k }
{
    match reading::place_at(table.map, k) {
        Ok(v) => i <= v && image_falls(table, m, k, v),
        Err(_) => false,
    }
}

// Where image i falls.
fn mesh_finds(table: &Table, m: usize, i: usize) -> bool
    ensures { result ≡ mesh_finds (sides table.now.g) (table_view table.now []) m i }
{
    match reading::address_at(table.addresses, i) {
        Ok(a) => {
            let k = grgrid::fold_address(a.v, bzgrid::doubled(table.g)).index;
            mesh_keeps(table, m, i, k)
        }
        Err(_) => false,
    }
}

// Each place of the doubled mesh.
fn all_hold(table: &Table, m: usize) -> bool
    ensures { let d = sides table.now.g in
        result ≡ all_below (mesh_holds d (table_view table.now []) m) (empty d) }
{
    for k in 0..8 * grgrid::points(table.g) {
        if !mesh_holds(table, m, k) {
            return false;
        }
    }
    true
}

// Each image.
fn all_found(table: &Table, m: usize) -> bool
    ensures { result ≡ all_below (mesh_finds (sides table.now.g) (table_view table.now []) m) m }
{
    for i in 0..m {
        if !mesh_finds(table, m, i) {
            return false;
        }
    }
    true
}

// Each place of the doubled mesh holds the last image that falls there, or 8 N where none does. There may be an image 8 N too, so the value alone says nothing.
fn mesh_stands(table: &Table, m: usize) -> bool
    ensures { result ≡ mesh_stands (sides table.now.g) (table_view table.now []) m table.now.t }
{
    match table.t {
        GridType::Sparse => all_hold(table, m) && all_found(table, m),
        GridType::Dense => true,
    }
}

// All of it, place by place.
fn by_places(table: &Table, grg: &[i64], m: usize) -> bool
    ensures { result ≡ by_places table.now.t (sides table.now.g) (table_view table.now grg.now) m }
{
    points_stand(table, grg) && starts(table) && mesh_stands(table, m)
}

// Whether a table of m images could stand: what could not is no layout of any lists of images.
pub fn could_stand(table: &Table, grg: &[i64], m: usize) -> bool
    requires { table_read table.now.t (sides table.now.g) (table_view table.now grg.now) ≡ got m }
    ensures { result ≡ could_stand table.now.t (sides table.now.g) (table_view table.now grg.now) m }
{
    by_places(table, grg, m)
}
