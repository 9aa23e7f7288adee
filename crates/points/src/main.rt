// Runs the points of document 01 that it leaves to programs, the triplets of its listing, and the worst pairs of small limits.
#![tactic(auto)]

mod pairs;

use std::io;

fn round(rt: &impl Print, name: &str, x: f64) -> io::Result<()> {
    println!(rt; "round {name}: {}", numbers_c::zone_nint(x))
}

// The reciprocal point group of a list of rotations, which become shears, no two alike: the answer, and the count told.
fn reciprocal(
    rt: &impl Print,
    name: &str,
    rotations: &mut [[i64; 9]],
    time_reversal: bool,
) -> io::Result<()> {
    for (k, m) in rotations.iter_mut().enumerate() {
        *m = [1, k as i64, 0, 0, 1, 0, 0, 0, 1];
    }
    let mut out = [0; 432];
    let mut told = [0];
    let answer = zone_c::zone_reciprocal_point_group(
        rotations.as_flattened(),
        time_reversal,
        true,
        &mut out,
        &mut told,
    );
    println!(rt; "{name}: {answer}, count {}", told[0])
}

fn print_list(rt: &impl Print, name: &str, list: &[i64]) -> io::Result<()> {
    print!(rt; "{name}")?;
    for n in list {
        print!(rt; " {n}")?;
    }
    println!(rt;)
}

// The images of d (2,1,1), identity Q and lattice.
fn images(rt: &impl Print) -> io::Result<()> {
    let mut addresses = [0i64; 9];
    let mut map = [0i64; 3];
    let mut grg = [0i64; 3];
    let mut told = [0i64; 10];
    let answer = zone_c::zone_bz_grid_addresses(
        &[2, 1, 1],
        &[1, 0, 0, 0, 1, 0, 0, 0, 1],
        &[0, 0, 0],
        &[1.0, 0.0, 0.0, 0.0, 1.0, 0.0, 0.0, 0.0, 1.0],
        2,
        &mut addresses,
        &mut map,
        &mut grg,
        &mut told,
    );
    print_list(rt, "images, d (2,1,1):", &[answer])?;
    print_list(rt, "addresses:", &addresses)?;
    print_list(rt, "dense map:", &map)
}

// The triplets of the listing, in a dense table of three points with one image each.
fn triplets(rt: &impl Print) -> io::Result<()> {
    let mut out = [0i64; 6];
    let mut left = [0i64; 2];
    let mut left_length = [0.0f64; 2];
    let mut cells = [0i64; 6];
    let answer = zone_c::zone_bz_triplets_at_q(
        1,
        &[0, 0, 0, 0, 0, 1, 0, 0, -1],
        &[0, 1, 2, 3],
        &[1, 1, 3, 0, 0, 0, 2],
        &[0, 1, 0],
        &[1, 1, 3],
        &[0, 0, 1, 1, 0, 0, 0, 1, 0],
        &[1.0, 0.0, 0.0, 0.0, 1.0, 0.0, 0.0, 0.0, 1.0],
        2,
        &mut out,
        &mut left,
        &mut left_length,
        &mut cells,
    );
    print_list(rt, "triplets, d (1,1,3), q0 = 1:", &[answer])?;
    print_list(rt, "places:", &out)?;
    print_list(rt, "closed:", &left)?;
    print_list(rt, "cells:", &cells)?;
    round(rt, "the length left over", left_length[1])
}

fn worst_pair(rt: &impl Print, name: &str, limit: i64) -> io::Result<()> {
    let mut told = [0i64; 3];
    let answer = zone_c::zone_worst_pair(limit, &mut told);
    print_list(rt, name, &[answer, told[0], told[1], told[2]])
}

fn main(rt: HostRuntime) -> io::Result<()> {
    round(&rt, "2.5", 2.5)?;
    round(&rt, "-2.5", -2.5)?;
    round(&rt, "0.49999999999999994", 0.49999999999999994)?;
    reciprocal(&rt, "48 rotations", &mut [[0; 9]; 48], false)?;
    reciprocal(&rt, "49 rotations", &mut [[0; 9]; 49], false)?;
    reciprocal(&rt, "24 rotations, time reversal", &mut [[0; 9]; 24], true)?;
    reciprocal(&rt, "25 rotations, time reversal", &mut [[0; 9]; 25], true)?;
    images(&rt)?;
    triplets(&rt)?;
    worst_pair(&rt, "worst pair up to 1000000:", 1000000)?;
    worst_pair(&rt, "up to 0:", 0)?;
    worst_pair(&rt, "up to 1000001:", 1000001)?;
    print_list(
        &rt,
        "limits to 300 whose worst pair the trial of all pairs finds:",
        &[pairs::agreeing()],
    )
}
