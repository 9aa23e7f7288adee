// The rotation of many images of one table.
ghost use Rattle.std.specs.Prelude.{◌≡◌, length, map as map_list, IfOk};
ghost use Rattle.common.specs.Tested.{giving, Accepted, ◌then◌};
ghost use Rattle.common.specs.Array.{vector_of, matrix_of};
ghost use Rattle.grgrid.specs.Sides.{sides};
ghost use Rattle.bztable.specs.Reading.{got, read_each};
ghost use Rattle.bztable.specs.Rotate.{rotated_at};
ghost use Rattle.bztable.specs.Burst.{place_told, fallback_told, burst_tests, burst_in, rotate_bz_grid_indices};

use crate::reading::Table;
use crate::rotate::Rotated;
use crate::{agreement, rotate};
use bzgrid::{GridType, TableRecord};
use common::{Refusal, Shift};
use grgrid::Rotation;

fn place_told(r: Rotated) -> i64
    ensures { result ≡ place_told r }
{
    match r {
        Rotated::Image(i) => i,
        Rotated::Fallback(i) => i,
    }
}

// 1 for a fallback.
fn fallback_told(r: Rotated) -> i64
    ensures { result ≡ fallback_told r }
{
    match r {
        Rotated::Image(_) => 0,
        Rotated::Fallback(_) => 1,
    }
}

// Of each index, in its place of the outputs.
fn fill_rotated(
    table: &Table,
    rotation: Rotation,
    ps: Shift,
    indices: &[i64],
    out: &mut [i64],
    fallbacks: &mut [i64],
) -> Result<(), Refusal>
    requires room { length out.old ≡ length indices.now }
    requires room_too { length fallbacks.old ≡ length indices.now }
    ensures out_after { let t = table.now in
        let f = rotated_at t.t (sides t.g) t.addresses.now t.map.now (matrix_of rotation.m) (vector_of ps.v) in
        giving result out.new ≡ (read_each f indices.now then λ l. got (map_list place_told l)) }
    ensures fallbacks_after { let t = table.now in
        let f = rotated_at t.t (sides t.g) t.addresses.now t.map.now (matrix_of rotation.m) (vector_of ps.v) in
        giving result fallbacks.new ≡ (read_each f indices.now then λ l. got (map_list fallback_told l)) }
{
    for (i, index) in indices.iter().enumerate() {
        let r = rotate::rotated_at(table, rotation, ps, *index)?;
        out[i] = place_told(r);
        fallbacks[i] = fallback_told(r);
    }
    Ok(())
}

// With the tests of the input. A refusal may leave anything in the outputs.
fn burst_tests(
    layout: Result<GridType, Refusal>,
    indices: &[i64],
    rotation: [[i64; 3]; 3],
    addresses: &[i64],
    map: &[i64],
    d: [i64; 3],
    ps: [i64; 3],
    out: &mut [i64],
    fallbacks: &mut [i64],
) -> Result<(), Refusal>
    ensures value { result ≡ burst_tests layout indices.now rotation addresses.now map.now d ps (length out.old) (length fallbacks.old) }
    ensures told { let o = burst_in layout indices.now rotation addresses.now map.now d ps (length out.old) (length fallbacks.old) in
        IfOk result (λ _. record { answer = Accepted; out = out.new; fallbacks = fallbacks.new } ≡ o) }
{
    if out.len() != indices.len() || fallbacks.len() != indices.len() {
        return Err(Refusal::WrongLength);
    }
    let t = rotate::rotate_tests(rotation, addresses, d, ps, layout)?;
    let table = Table {
        t,
        g: grgrid::grid_of(d),
        addresses,
        map,
    };
    let rotation = Rotation { m: rotation };
    fill_rotated(&table, rotation, common::shift(ps), indices, out, fallbacks)
}

// In a table of that layout.
fn burst_in(
    layout: Result<GridType, Refusal>,
    indices: &[i64],
    rotation: [[i64; 3]; 3],
    addresses: &[i64],
    map: &[i64],
    d: [i64; 3],
    ps: [i64; 3],
    out: &mut [i64],
    fallbacks: &mut [i64],
) -> Result<(), Refusal>
    ensures { let o = burst_in layout indices.now rotation addresses.now map.now d ps (length out.old) (length fallbacks.old) in
        record { answer = result; out = out.new; fallbacks = fallbacks.new } ≡ o }
{
    let answer = burst_tests(
        layout,
        indices,
        rotation,
        addresses,
        map,
        d,
        ps,
        &mut *out,
        &mut *fallbacks,
    );
    if answer.is_err() {
        out.fill(-1);
        fallbacks.fill(-1);
    }
    answer
}

// Rotate many images of one table: in each place of `out` stands what `rotate_bz_grid_index` answers for that index, in `fallbacks` 1 for a fallback, else 0.
pub fn rotate_bz_grid_indices(
    indices: &[i64],
    rotation: [[i64; 3]; 3],
    addresses: &[i64],
    map: &[i64],
    table: TableRecord,
    d: [i64; 3],
    ps: [i64; 3],
    bz_grid_type: i64,
    out: &mut [i64],
    fallbacks: &mut [i64],
) -> Result<(), Refusal>
    ensures { let o = rotate_bz_grid_indices indices.now rotation addresses.now map.now table d ps bz_grid_type (length out.old) (length fallbacks.old) in
        record { answer = result; out = out.new; fallbacks = fallbacks.new } ≡ o }
{
    let agreed = agreement::agrees(table, d, ps, bz_grid_type);
    let layout = agreement::layout_where(agreed, bz_grid_type);
    burst_in(
        layout, indices, rotation, addresses, map, d, ps, out, fallbacks,
    )
}
