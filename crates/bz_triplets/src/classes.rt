// The triplet of a class, and the walk over the classes.
ghost use Rattle.std.specs.Prelude.{◌≡◌, ◌++◌, ◌+◌, ◌*◌, ◌≤◌, ◌<◌, length, take, drop};
ghost use Rattle.common.specs.Tested.{giving, ◌then◌};
ghost use Rattle.common.specs.Array.{vector_of, items, Sized};
ghost use Rattle.grgrid.specs.Grid.{size, cell};
ghost use Rattle.grgrid.specs.Own.{own_points};
ghost use Rattle.grgrid.specs.Sides.{sides};
ghost use Rattle.bztable.specs.Reading.{got, vector_read, read_each};
ghost use Rattle.bz_triplets.specs.BzTriplets.{chosen, first_of, triplet_of, places_of, cells_of, cell_list};
ghost use Rattle.bz_triplets.specs.BzTriplets.{mark_of, length_of, triplet_list, marks, lengths};
ghost use Rattle.bz_triplets.specs.Code.TripletsView.{state_of, state_read, walk_by, step_place, RoomFor};

use crate::choices;
use crate::choices::{Measure, Step, Sum, Triplet};
use bzgrid::GridType;
use bztable::places::Place;
use bztable::reading::Table;
use bztable::{places, reading};
use common::Refusal;
use grgrid::{Address, Grid};

// ---- the triplet of a class

#[tactic(auto, unfolding(crate::specs::BzTriplets::chosen))]
#[inline(always)]
fn chosen(table: &Table, q0: Place, q1: Place, q2: Place, m: Measure) -> Result<Triplet, Refusal>
    ensures { state_read result ≡ chosen table.now.t (size (sides table.now.g)) table.now.map.now (walk_by m table.now.addresses.now) q0.at q1.at q2.at }
{
    let x = places::places_at(table, q0)?;
    let y = places::places_at(table, q1)?;
    let z = places::places_at(table, q2)?;
    choices::search_choices(table, x, y, z, m)
}

// The address of the first image of q1.
fn first_of(table: &Table, q1: usize) -> Result<Address, Refusal>
    ensures { vector_read result ≡ first_of table.now.map.now table.now.addresses.now table.now.t q1 }
{
    match table.t {
        GridType::Sparse => reading::address_at(table.addresses, q1),
        GridType::Dense => reading::address_at(table.addresses, reading::place_at(table.map, q1)?),
    }
}

// Of the class of q1, where a0 is an address of q0.
#[tactic(auto, unfolding(crate::specs::BzTriplets::triplet_of))]
#[inline(always)]
fn triplet_of(
    table: &Table,
    a0: Address,
    q0: Place,
    q1: Place,
    m: Measure,
) -> Result<Triplet, Refusal>
    ensures { let w = walk_by m table.now.addresses.now in
        state_read result ≡ triplet_of table.now.t (sides table.now.g) table.now.map.now w (vector_of a0.v) q0.at q1.at }
{
    let a1 = first_of(table, q1.at)?;
    let q2 = Place {
        at: grgrid::fold_address(triplet_grid::third(a0, a1), table.g).index,
    };
    chosen(table, q0, q1, q2, m)
}

// ---- the walk over the classes

// 1 closed, 0 a length left over, -1 no choice.
fn mark_of(t: Triplet) -> i64
    ensures { result ≡ mark_of (state_of t) }
{
    match t.step {
        Step::Closed => 1,
        Step::Left(_) => 0,
        Step::Empty => -1,
    }
}

fn length_of(t: Triplet) -> f64
    ensures { result ≡ length_of (state_of t) }
{
    match t.step {
        Step::Left(x) => x,
        Step::Closed | Step::Empty => 0.0,
    }
}

fn place_of(s: Step, place: Place) -> i64
    ensures { result ≡ step_place s place.at }
{
    match s {
        Step::Closed | Step::Left(_) => place.at as i64,
        Step::Empty => -1,
    }
}

// The three places of triplet `at`.
#[inline(always)]
fn store_places(out: &mut [i64], at: usize, t: Triplet)
    requires { at * 3 + 3 ≤ length out.old }
    ensures { out.new ≡ take (at * 3) out.old ++ (places_of (state_of t) ++ drop (at * 3 + 3) out.old) }
{
    let s = t.step;
    let c = t.choice;
    out[at * 3] = place_of(s, c.x);
    out[at * 3 + 1] = place_of(s, c.y);
    out[at * 3 + 2] = place_of(s, c.z);
}

// Most sums are zero, which lies in cell (0,0,0): that takes no division.
#[inline(always)]
fn sum_cell(sum: Sum, g: Grid) -> [i64; 3]
    ensures { result ≡ items (cell (sides g) (vector_of sum.v)) }
{
    if choices::is_zero(sum.v) {
        return [0, 0, 0];
    }
    grgrid::fold_address(sum.v, g).cell
}

// The cell of the triplet's sum.
#[inline(always)]
fn cell_of(t: Triplet, g: Grid) -> [i64; 3]
    ensures { result ≡ cells_of (sides g) (state_of t) }
{
    match t.step {
        Step::Closed | Step::Left(_) => sum_cell(t.sum, g),
        Step::Empty => [-1, -1, -1],
    }
}

// The cell of triplet `at`.
#[inline(always)]
fn store_cell(out: &mut [i64], at: usize, t: Triplet, g: Grid)
    requires { at * 3 + 3 ≤ length out.old }
    ensures { out.new ≡ take (at * 3) out.old ++ (cells_of (sides g) (state_of t) ++ drop (at * 3 + 3) out.old) }
{
    out[at * 3..at * 3 + 3].copy_from_slice(&cell_of(t, g));
}

// A triplet for each entry of the class map that equals its own place, from the lowest up.
pub fn fill_triplets(
    table: &Table,
    a0: Address,
    q0: Place,
    m: Measure,
    class_map: &[i64],
    out: &mut [i64],
    left: &mut [i64],
    left_length: &mut [f64],
    cells: &mut [i64],
) -> Result<(), Refusal>
    requires { RoomFor class_map.now (length out.old) (length left.old) (length left_length.old) (length cells.old) }
    ensures out_after { let w = walk_by m table.now.addresses.now in
        let f = triplet_of table.now.t (sides table.now.g) table.now.map.now w (vector_of a0.v) q0.at in
        giving result out.new ≡ (read_each f (own_points class_map.now (length class_map.now)) then λ l. got (triplet_list l)) }
    ensures left_after { let w = walk_by m table.now.addresses.now in
        let f = triplet_of table.now.t (sides table.now.g) table.now.map.now w (vector_of a0.v) q0.at in
        giving result left.new ≡ (read_each f (own_points class_map.now (length class_map.now)) then λ l. got (marks l)) }
    ensures left_length_after { let w = walk_by m table.now.addresses.now in
        let f = triplet_of table.now.t (sides table.now.g) table.now.map.now w (vector_of a0.v) q0.at in
        giving result left_length.new ≡ (read_each f (own_points class_map.now (length class_map.now)) then λ l. got (lengths l)) }
    ensures cells_after { let w = walk_by m table.now.addresses.now in
        let f = triplet_of table.now.t (sides table.now.g) table.now.map.now w (vector_of a0.v) q0.at in
        let d = sides table.now.g in
        giving result cells.new ≡ (read_each f (own_points class_map.now (length class_map.now)) then λ l. got (cell_list d l)) }
{
    let mut at = 0;
    for (q1, class) in class_map.iter().enumerate() {
        if *class == q1 as i64 {
            let found = triplet_of(table, a0, q0, Place { at: q1 }, m)?;
            store_places(&mut *out, at, found);
            left[at] = mark_of(found);
            left_length[at] = length_of(found);
            store_cell(&mut *cells, at, found, table.g);
            at += 1;
        }
    }
    Ok(())
}
