// The images of a table, laid out for the other type.
ghost use Rattle.std.specs.Prelude.{◌≡◌, ◌+◌, ◌≤◌, ◌<◌, Ok, IfOk, length};
ghost use Rattle.grgrid.specs.Grid.{size};
ghost use Rattle.grgrid.specs.Sides.{sides};
ghost use Rattle.bzgrid.specs.Code.Writing.{tables, stored, if_sparse};
ghost use Rattle.bzgrid.specs.Code.Walked.{before, WrittenTo};
ghost use Rattle.bzconvert.specs.Code.Lists.{images_held, ListsRead, laid_anew};

use bzgrid::tables::Cursor;
use bzgrid::{GridType, Lengths, tables};
use bztable::places::Place;
use bztable::reading::Table;
use bztable::{places, reading};
use common::Refusal;

// The images of point p, in their order. The tests of the table have read them all, so no read is refused.
fn write_list(table: &Table, p: usize, addresses: &mut [i64], grg: &mut [i64], c: Cursor) -> Cursor
    requires lists { ListsRead table.now }
    requires point { p < size (sides table.now.g) }
    requires room { c.next + 2199023321089 ≤ 4611686018427387904 }
    ensures next_after { tables addresses.new grg.new result.at result.next ≡ stored (tables addresses.old grg.old c.at c.next) (images_held table.now p) }
    ensures at_le_next { (c.next ≤ result.next) × (result.next ≤ c.next + 2199023321088) }
{
    let r = places::places_at(table, Place { at: p }).unwrap();
    let mut t = c;
    for k in 0..r.count {
        let a = reading::address_at(table.addresses, places::place_in(r, k).at).unwrap();
        t = tables::store(p, a.v, &mut *addresses, &mut *grg, t);
    }
    t
}

// Those of all n points, with the map as bzgrid's write_table leaves it: how many they are.
fn write_lists(
    table: &Table,
    sparse: bool,
    n: usize,
    base: usize,
    addresses: &mut [i64],
    map: &mut [i64],
    grg: &mut [i64],
) -> usize
    requires lists { ListsRead table.now }
    requires points { n ≡ size (sides table.now.g) }
    requires mesh { base ≤ 524288 }
    ensures value { result ≡ if_sparse sparse n + before sparse (images_held table.now) n }
    ensures few { result < 2305843009213693952 }
    ensures written_to { WrittenTo sparse (images_held table.now) n base addresses.old map.old grg.old addresses.new map.new grg.new }
{
    let from = tables::if_sparse(sparse, n);
    let mut k = from;
    for i in 0..n {
        tables::put_count(&mut *map, base + i, k - from);
        let c = tables::start(sparse, i, k);
        k = write_list(table, i, &mut *addresses, &mut *grg, c).at;
    }
    tables::put_count(map, base + n, k - from);
    k
}

// A table of type t from the same images. Where the outputs have no room they say nothing.
pub fn lay_out(
    table: &Table,
    t: GridType,
    addresses: &mut [i64],
    map: &mut [i64],
    grg: &mut [i64],
) -> Result<Lengths, Refusal>
    requires { ListsRead table.now }
    ensures value { result ≡ (laid_anew table.now t (length addresses.old) (length map.old) (length grg.old)).answer }
    ensures filled { let o = laid_anew table.now t (length addresses.old) (length map.old) (length grg.old) in
        IfOk result (λ l. record { answer = Ok l; addresses = addresses.new; map = map.new; grg = grg.new } ≡ o) }
{
    let sparse = bzgrid::is_sparse(t);
    let n = grgrid::points(table.g);
    bzgrid::wipe(&mut *addresses, &mut *map, &mut *grg);
    let m = write_lists(
        table,
        sparse,
        n,
        tables::if_sparse(sparse, 8 * n),
        &mut *addresses,
        &mut *map,
        &mut *grg,
    );
    bzgrid::finish(sparse, table.g, m, None, addresses, map, grg.len())
}
