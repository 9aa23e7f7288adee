// Replays the Rust's answers of the calls on the images of grid points: reads the vectors of each
// function, data/FUNCTION, calls the port's export, and prints how many cases there were, how many differ,
// and how many differ once the last number of the line is another one, which must be all. One number of
// data/control is wrong, and one of data/burst_control, so that one case of each must differ.
#![tactic(auto)]

mod points;
mod tables;

use replaying::replay;
use std::io;

fn main(rt: HostRuntime) -> io::Result<()> {
    let mut n = [0; 4096];
    replay(&rt, "bz_grid_addresses", &mut n, tables::bz_grid_addresses)?;
    replay(&rt, "bz_grid_sizes", &mut n, tables::bz_grid_sizes)?;
    replay(&rt, "bz_grid_fill", &mut n, tables::bz_grid_fill)?;
    replay(
        &rt,
        "rotate_bz_grid_index",
        &mut n,
        points::rotate_bz_grid_index,
    )?;
    replay(
        &rt,
        "rotate_bz_grid_indices",
        &mut n,
        points::rotate_bz_grid_indices,
    )?;
    replay(
        &rt,
        "neighboring_grid_points",
        &mut n,
        points::neighboring_grid_points,
    )?;
    replay(&rt, "convert_bz_grid", &mut n, tables::convert_bz_grid)?;
    replay(&rt, "control", &mut n, tables::bz_grid_addresses)?;
    replay(&rt, "burst_control", &mut n, points::rotate_bz_grid_indices)
}
