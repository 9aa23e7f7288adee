// Image tables from one type to the other.
#![tactic(auto)]

mod judging;
mod writing;

ghost use Rattle.std.specs.Prelude.{◌≡◌, [], Ok, IfOk, length};
ghost use Rattle.bzconvert.specs.Convert.{other, type_number, with_type, layout_tests, convert_bz_grid};

use bzgrid::{Built, GridType, TableRecord};
use bztable::reading;
use bztable::reading::Table;
use common::Refusal;

fn other(t: GridType) -> GridType
    ensures { result ≡ other t }
{
    match t {
        GridType::Sparse => GridType::Dense,
        GridType::Dense => GridType::Sparse,
    }
}

fn type_number(t: GridType) -> i64
    ensures { result ≡ type_number t }
{
    match t {
        GridType::Sparse => 1,
        GridType::Dense => 2,
    }
}

// The record of the same grid, for a table of type t.
fn with_type(t: GridType, table: TableRecord) -> TableRecord
    ensures { result ≡ with_type t table }
{
    let d = table.d;
    let ps = table.ps;
    TableRecord {
        d,
        ps,
        bz_grid_type: type_number(t),
    }
}

// The type of the table.
#[tactic(auto, unfolding(crate::specs::Convert::layout_tests))]
fn layout_tests(table: TableRecord, addresses: &[i64]) -> Result<GridType, Refusal>
    ensures { result ≡ layout_tests table (record { addresses = addresses.now; map = []; grg = [] }) }
{
    if !reading::whole_addresses(addresses) {
        return Err(Refusal::WrongLength);
    }
    if !(common::diagonal_fits(table.d) && common::shift_fits(table.ps)) {
        return Err(Refusal::OutsideLimits);
    }
    GridType::try_from(table.bz_grid_type)
}

// With the tests of the input. A refusal may leave anything in the outputs.
fn converted(
    table: TableRecord,
    addresses: &[i64],
    map: &[i64],
    grg: &[i64],
    out_addresses: &mut [i64],
    out_map: &mut [i64],
    out_grg: &mut [i64],
) -> Result<Built, Refusal>
    ensures value { let o = convert_bz_grid table (record { addresses = addresses.now; map = map.now; grg = grg.now }) in
        result ≡ (o (length out_addresses.old) (length out_map.old) (length out_grg.old)).answer }
    ensures filled { let o = convert_bz_grid table (record { addresses = addresses.now; map = map.now; grg = grg.now })
        (length out_addresses.old) (length out_map.old) (length out_grg.old) in
        IfOk result (λ b. record { answer = Ok b; addresses = out_addresses.new; map = out_map.new; grg = out_grg.new } ≡ o) }
{
    let t = layout_tests(table, addresses)?;
    let held = Table {
        t,
        g: grgrid::grid_of(table.d),
        addresses,
        map,
    };
    let m = judging::table_read(&held, grg)?;
    if !judging::could_stand(&held, grg, m) {
        return Err(Refusal::CouldNotStand);
    }
    let to = other(t);
    let lengths = writing::lay_out(&held, to, out_addresses, out_map, out_grg)?;
    Ok(Built {
        lengths,
        table: with_type(to, table),
    })
}

// The table of the other type, and its record.
pub fn convert_bz_grid(
    table: TableRecord,
    addresses: &[i64],
    map: &[i64],
    grg: &[i64],
    out_addresses: &mut [i64],
    out_map: &mut [i64],
    out_grg: &mut [i64],
) -> Result<Built, Refusal>
    ensures { let o = convert_bz_grid table (record { addresses = addresses.now; map = map.now; grg = grg.now })
        (length out_addresses.old) (length out_map.old) (length out_grg.old) in
        record { answer = result; addresses = out_addresses.new; map = out_map.new; grg = out_grg.new } ≡ o }
{
    match converted(
        table,
        addresses,
        map,
        grg,
        &mut *out_addresses,
        &mut *out_map,
        &mut *out_grg,
    ) {
        Ok(b) => Ok(b),
        Err(r) => {
            bzgrid::wipe(out_addresses, out_map, out_grg);
            Err(r)
        }
    }
}
