// Replays the Rust's answers of the calls on grids and rotations, and of the worst pair: reads the vectors
// of each function, data/FUNCTION, calls the port's export, and prints how many cases there were, how many
// differ, and how many differ once the last number of the line is another one, which must be all. One
// number of data/control is wrong, so that one case of it must differ.
#![tactic(auto)]

mod folding;
mod matrices;
mod outputs;

use replaying::replay;
use std::io;

fn main(rt: HostRuntime) -> io::Result<()> {
    let mut n = [0; 4096];
    replay(
        &rt,
        "reciprocal_point_group",
        &mut n,
        outputs::reciprocal_point_group,
    )?;
    replay(
        &rt,
        "reciprocal_rotations",
        &mut n,
        outputs::reciprocal_rotations,
    )?;
    replay(&rt, "reciprocal_group", &mut n, outputs::reciprocal_group)?;
    replay(&rt, "ir_grid_map", &mut n, outputs::ir_grid_map)?;
    replay(
        &rt,
        "all_grid_addresses",
        &mut n,
        outputs::all_grid_addresses,
    )?;
    replay(
        &rt,
        "grid_index_from_address",
        &mut n,
        folding::grid_index_from_address,
    )?;
    replay(&rt, "rotate_grid_index", &mut n, folding::rotate_grid_index)?;
    replay(&rt, "snf3x3", &mut n, matrices::snf3x3)?;
    replay(&rt, "smith3x3", &mut n, matrices::smith3x3)?;
    replay(&rt, "hermite3x3", &mut n, matrices::hermite3x3)?;
    replay(&rt, "order_forms", &mut n, matrices::order_forms)?;
    replay(&rt, "same_grid", &mut n, matrices::same_grid)?;
    replay(&rt, "worst_pair", &mut n, matrices::worst_pair)?;
    replay(
        &rt,
        "transform_rotations",
        &mut n,
        outputs::transform_rotations,
    )?;
    replay(&rt, "control", &mut n, outputs::ir_grid_map)
}
