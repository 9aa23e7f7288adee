// How image tables are read. They may hold anything, so every read is tested.
ghost use Rattle.std.specs.Prelude.{◌≡◌, ◌-◌, ◌≤◌, ◌<◌, IfOk, IfSome};
ghost use Rattle.common.specs.Array.{vector_of, Sized};
ghost use Rattle.grgrid.specs.Sides.{sides};
ghost use Rattle.bzgrid.specs.Code.Walked.{MeshFits};
ghost use Rattle.grgrid.specs.Grid.{size};
ghost use Rattle.bztable.specs.Access.{bounded, run_of};
ghost use Rattle.bztable.specs.Reading.{vector_read, whole_addresses, address_at, address_of, place_of, place_at, find};

use bzgrid::GridType;
use common::Refusal;
use grgrid::{Address, Grid};

// An image table of a grid, as the walks take it: the addresses of the images, and the map that says which of them a point has.
// The readers take a slice alone, since they ask nothing of the grid.
#[derive(Clone, Copy)]
pub struct Table<'a> {
    pub t: GridType,
    pub g: Grid,
    pub addresses: &'a [i64],
    pub map: &'a [i64],
    ghost fits: { MeshFits (sides g) },
}

// Places of the table, from `from` on and below `to`.
#[derive(Clone, Copy)]
pub struct Run {
    pub from: usize,
    pub to: usize,
}

pub fn whole_addresses(list: &[i64]) -> bool
    ensures { result ≡ whole_addresses list.now }
{
    list.len() % 3 == 0
}

// 0 to 2^40. The bound is a clause and not of a type: each reader of a place reckons with the bare number at once.
#[inline(always)]
fn place_of(n: i64) -> Result<usize, Refusal>
    ensures value { result ≡ place_of n }
    ensures below { IfOk result (λ p. p < 2199023255552) }
{
    if n < 0 || n > 1099511627776 {
        return Err(Refusal::OutsideTable);
    }
    Ok(n as usize)
}

// Each number within 10^13.
#[inline(always)]
pub fn address_at(addresses: &[i64], i: usize) -> Result<Address, Refusal>
    ensures { vector_read result ≡ address_at addresses.now i }
{
    if i < addresses.len() / 3 {
        let a = common::row_at(addresses, 3 * i);
        if common::row_within(a, 10000000000000) {
            return Ok(Address { v: a });
        }
    }
    Err(Refusal::OutsideTable)
}

// Of an index that was asked for.
pub fn address_of(addresses: &[i64], i: i64) -> Result<Address, Refusal>
    ensures { vector_read result ≡ address_of addresses.now i }
{
    if i < 0 {
        return Err(Refusal::OutsideTable);
    }
    address_at(addresses, i as usize)
}

#[inline(always)]
pub fn place_at(map: &[i64], i: usize) -> Result<usize, Refusal>
    ensures value { result ≡ place_at map.now i }
    ensures below { IfOk result (λ p. p < 2199023255552) }
{
    place_of(*map.get(i).ok_or(Refusal::OutsideTable)?)
}

// The places that the map bounds at k and k + 1, counted from `first` on.
#[inline(always)]
pub fn bounded(map: &[i64], k: usize, first: usize) -> Result<Run, Refusal>
    requires { (k < 18446744073709551615) × (first ≤ 65536) }
    ensures value { result ≡ bounded map.now k first }
    ensures below { IfOk result (λ r. (r.from < 2199023321088) × (r.to < 2199023321088)) }
{
    let s = place_at(map, k)?;
    let e = place_at(map, k + 1)?;
    Ok(Run {
        from: s + first,
        to: e + first,
    })
}

// Those of the images of point p: of all, or in a sparse table of all but the first.
#[inline(always)]
pub fn run_of(table: &Table, p: usize) -> Result<Run, Refusal>
    requires { p < 9223372036854775808 }
    ensures value { result ≡ run_of table.now.t table.now.map.now (size (sides table.now.g)) p }
    ensures below { IfOk result (λ r. (r.from < 2199023321088) × (r.to < 2199023321088)) }
{
    let n = grgrid::points(table.g);
    match table.t {
        GridType::Sparse => bounded(table.map, 8 * n + p, n),
        GridType::Dense => bounded(table.map, p, 0),
    }
}

// The first place from `from` on and below `to` that holds address a.
pub fn find(
    addresses: &[i64],
    a: [i64; 3],
    from: usize,
    to: usize,
) -> Result<Option<usize>, Refusal>
    ensures value { result ≡ find addresses.now (vector_of a) from (to - from) }
    ensures below { IfOk result (λ f. IfSome f (λ i. i < to)) }
{
    for i in from..to {
        if address_at(addresses, i)?.v == a {
            return Ok(Some(i));
        }
    }
    Ok(None)
}
