// Replays the Rust's answers of the calls on triplets: reads the vectors of each function, data/FUNCTION,
// calls the port's export, and prints how many cases there were, how many differ, and how many differ once
// the last number of the line is another one, which must be all. One number of data/control is wrong, so
// that one case of it must differ.
#![tactic(auto)]

mod choices;
mod classes;

use replaying::replay;
use std::io;

fn main(rt: HostRuntime) -> io::Result<()> {
    let mut n = [0; 4096];
    replay(&rt, "ir_triplets_at_q", &mut n, classes::ir_triplets_at_q)?;
    replay(&rt, "bz_triplets_at_q", &mut n, choices::bz_triplets_at_q)?;
    replay(&rt, "control", &mut n, choices::bz_triplets_at_q)
}
