// The grid of a diagonal matrix: its rotations, images, classes and triplets.
ghost use Rattle.std.specs.Prelude.{◌≡◌, T, length};
ghost use Rattle.common.specs.Limits.{diagonal_fits};
ghost use Rattle.common.specs.Tested.{after, Accepted};
ghost use Rattle.zone_steps.specs.Steps.{rotation_tests, listed};
ghost use Rattle.zone_steps.specs.StepsView.{input_grid, turned_grid, rooms_of, lists, Agreed};

use crate::grid::Input;
use crate::{basis, grid};
use common::Refusal;

// Images, classes and triplets, of rotations in the basis of the grid. A refusal may leave anything in the outputs.
fn list_grid(
    input: &Input,
    ps: [i64; 3],
    addresses: &mut [i64],
    map: &mut [i64],
    grg: &mut [i64],
    classes: &mut [i64],
    points: &mut [i64],
    triplets: &mut [i64],
    left: &mut [i64],
    lengths: &mut [f64],
    cells: &mut [i64],
) -> Result<(), Refusal>
    requires fact_1 { T (diagonal_fits input.now.d) }
    requires fact_2 { Agreed (length classes.old) (length points.old) (length triplets.old) (length left.old) (length lengths.old) (length cells.old) }
    ensures value { let r = rooms_of addresses.old map.old grg.old classes.old points.old triplets.old left.old lengths.old cells.old in
        result ≡ (listed (input_grid input.now) ps r).answer }
    ensures tables { let r = rooms_of addresses.old map.old grg.old classes.old points.old triplets.old left.old lengths.old cells.old in
        let l = lists classes.new points.new triplets.new left.new lengths.new cells.new in
        let o = listed (input_grid input.now) ps r in
        result ≡ Accepted → record { answer = Accepted; addresses = addresses.new; map = map.new; grg = grg.new; lists = l } ≡ o }
{
    let n = grgrid::points(grgrid::grid_of(input.d));
    if classes.len() < n {
        return Err(Refusal::WrongLength);
    }
    let built = bzgrid::bz_grid_addresses(
        input.d,
        input.q,
        ps,
        input.lattice,
        input.bz_grid_type,
        &mut *addresses,
        &mut *map,
        &mut *grg,
    )?;
    grid::list_classes(
        input,
        addresses,
        map,
        built.table,
        n,
        classes,
        points,
        triplets,
        left,
        lengths,
        cells,
    )
}

// Of rotations as they stand.
pub fn list_in_basis(
    input: &Input,
    ps: [i64; 3],
    addresses: &mut [i64],
    map: &mut [i64],
    grg: &mut [i64],
    classes: &mut [i64],
    points: &mut [i64],
    triplets: &mut [i64],
    left: &mut [i64],
    lengths: &mut [f64],
    cells: &mut [i64],
) -> Result<(), Refusal>
    requires { Agreed (length classes.old) (length points.old) (length triplets.old) (length left.old) (length lengths.old) (length cells.old) }
    ensures value { let r = rooms_of addresses.old map.old grg.old classes.old points.old triplets.old left.old lengths.old cells.old in
        let i = input.now in
        result ≡ after (rotation_tests i.rotations.now i.is_time_reversal i.d i.q) (listed (turned_grid i) ps r).answer }
    ensures tables { let r = rooms_of addresses.old map.old grg.old classes.old points.old triplets.old left.old lengths.old cells.old in
        let l = lists classes.new points.new triplets.new left.new lengths.new cells.new in
        let o = listed (turned_grid input.now) ps r in
        result ≡ Accepted → record { answer = Accepted; addresses = addresses.new; map = map.new; grg = grg.new; lists = l } ≡ o }
{
    let mut turned = [0; 432];
    let n = basis::turn_rotations(
        input.rotations,
        input.is_time_reversal,
        input.d,
        input.q,
        &mut turned,
    )?;
    let turned_input = Input {
        d: input.d,
        q: input.q,
        rotations: &turned[0..n * 9],
        lattice: input.lattice,
        is_time_reversal: input.is_time_reversal,
        swappable: input.swappable,
        bz_grid_type: input.bz_grid_type,
        q0: input.q0,
    };
    list_grid(
        &turned_input,
        ps,
        addresses,
        map,
        grg,
        classes,
        points,
        triplets,
        left,
        lengths,
        cells,
    )
}
