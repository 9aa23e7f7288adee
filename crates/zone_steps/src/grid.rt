// Images, classes and triplets of a grid whose rotations are in its basis.
ghost use Rattle.std.specs.Prelude.{◌≡◌, ◌*◌, ◌≤◌, T, negsuc, length, replicate};
ghost use Rattle.std.specs.Float.{binary64};
ghost use Rattle.std.specs.Float.Ieee.{of_int};
ghost use Rattle.std.specs.Int.Signed.{non_neg};
ghost use Rattle.common.specs.Tested.{Accepted};
ghost use Rattle.common.specs.Array.{sides_of};
ghost use Rattle.grgrid.specs.Grid.{size};
ghost use Rattle.bzgrid.specs.BzGridAddresses.{grid_type_of};
ghost use Rattle.zone_steps.specs.Steps.{start_of, classified, class_map_of, count, chosen, list_tests, lists_of};
ghost use Rattle.zone_steps.specs.StepsView.{input_grid, lists, Roomy, numbered, in_front};

use bzgrid::{GridType, TableRecord};
use common::Refusal;

// A grid, and what is asked of it. The rotations have nine numbers each.
#[derive(Clone, Copy)]
pub struct Input<'a> {
    pub d: [i64; 3],
    pub q: [[i64; 3]; 3],
    pub rotations: &'a [i64],
    pub lattice: [[f64; 3]; 3],
    pub is_time_reversal: bool,
    pub swappable: bool,
    // Any number: a call refuses one that is no grid type.
    pub bz_grid_type: i64,
    pub q0: i64,
}

// In the first n places of the two maps.
fn number_classes(
    input: &Input,
    n: usize,
    classes: &mut [i64],
    points: &mut [i64],
) -> Result<(), Refusal>
    requires grid_points { n ≡ size (sides_of input.now.d) }
    requires room { (n ≤ length classes.old) × (n ≤ length points.old) }
    ensures { record { answer = result; classes = classes.new; points = points.new } ≡ numbered (classified (input_grid input.now)) n classes.old points.old }
{
    triplet_grid::ir_triplets_at_q(
        input.q0,
        input.d,
        input.rotations,
        input.is_time_reversal,
        input.swappable,
        &mut classes[0..n],
        &mut points[0..n],
    )?;
    Ok(())
}

// Type 2 starts from the first image of q0.
fn start_of(bz_grid_type: i64, map: &[i64], q0: i64) -> i64
    requires { T (non_neg q0) }
    ensures { result ≡ start_of (grid_type_of bz_grid_type) map.now q0 }
{
    match GridType::try_from(bz_grid_type) {
        Ok(GridType::Dense) => map.get(q0 as usize).copied().unwrap_or(0),
        _ => q0,
    }
}

// In the front of the outputs, for the classes of the class map.
fn choose_triplets(
    start: i64,
    addresses: &[i64],
    map: &[i64],
    table: TableRecord,
    classes: &[i64],
    input: &Input,
    triplets: &mut [i64],
    left: &mut [i64],
    lengths: &mut [f64],
    cells: &mut [i64],
) -> Result<(), Refusal>
    requires begin { start ≡ start_of (grid_type_of input.now.bz_grid_type) map.now input.now.q0 }
    requires class_map { classes.now ≡ class_map_of (input_grid input.now) }
    requires room { (length classes.now * 3 ≤ length triplets.old) × (length classes.now ≤ length left.old)
        × (length classes.now ≤ length lengths.old) × (length classes.now * 3 ≤ length cells.old) }
    ensures { let g = input_grid input.now in
        let o = in_front (chosen g addresses.now map.now table) (count g) triplets.old left.old lengths.old cells.old in
        record { answer = result; out = triplets.new; left = left.new; left_length = lengths.new; cells = cells.new } ≡ o }
{
    let k = grgrid::own_places(classes);
    bz_triplets::bz_triplets_at_q(
        start,
        addresses,
        map,
        table,
        classes,
        input.d,
        input.q,
        input.lattice,
        input.bz_grid_type,
        &mut triplets[0..k * 3],
        &mut left[0..k],
        &mut lengths[0..k],
        &mut cells[0..k * 3],
    )
}

// -1 in every place.
pub fn wipe_lists(
    classes: &mut [i64],
    points: &mut [i64],
    triplets: &mut [i64],
    left: &mut [i64],
    lengths: &mut [f64],
    cells: &mut [i64],
)
    ensures classes_after { classes.new ≡ replicate (length classes.old) (negsuc 0) }
    ensures points_after { points.new ≡ replicate (length points.old) (negsuc 0) }
    ensures triplets_after { triplets.new ≡ replicate (length triplets.old) (negsuc 0) }
    ensures left_after { left.new ≡ replicate (length left.old) (negsuc 0) }
    ensures lengths_after { lengths.new ≡ replicate (length lengths.old) (of_int binary64 (negsuc 0)) }
    ensures cells_after { cells.new ≡ replicate (length cells.old) (negsuc 0) }
{
    classes.fill(-1);
    points.fill(-1);
    triplets.fill(-1);
    left.fill(-1);
    lengths.fill(-1.0);
    cells.fill(-1);
}

// Classes and triplets of n points, from tables that were built. A refusal may leave anything in the outputs, which are slices: see
// docs/DECISIONS.md, 'Output slices'.
pub fn list_classes(
    input: &Input,
    addresses: &[i64],
    map: &[i64],
    table: TableRecord,
    n: usize,
    classes: &mut [i64],
    points: &mut [i64],
    triplets: &mut [i64],
    left: &mut [i64],
    lengths: &mut [f64],
    cells: &mut [i64],
) -> Result<(), Refusal>
    requires fact_1 { n ≡ size (sides_of input.now.d) }
    requires fact_2 { Roomy n (length classes.old) (length points.old) (length triplets.old) (length left.old) (length lengths.old) (length cells.old) }
    ensures value { result ≡ list_tests (input_grid input.now) addresses.now map.now table }
    ensures lengths_after { let l = lists_of (input_grid input.now) addresses.now map.now table (length classes.old) in
        result ≡ Accepted → lists classes.new points.new triplets.new left.new lengths.new cells.new ≡ l }
{
    wipe_lists(
        &mut *classes,
        &mut *points,
        &mut *triplets,
        &mut *left,
        &mut *lengths,
        &mut *cells,
    );
    number_classes(input, n, &mut *classes, &mut *points)?;
    let start = start_of(input.bz_grid_type, map, input.q0);
    choose_triplets(
        start,
        addresses,
        map,
        table,
        &classes[0..n],
        input,
        triplets,
        left,
        lengths,
        cells,
    )
}
