// Replays the answers of the calls on classes and candidates that the Rust lacks, which the oracle works
// out beside it: reads the vectors of each function, data/FUNCTION, calls the port's export, and prints how
// many cases there were, how many differ, and how many differ once the last number of the line is another
// one, which must be all. One number of data/control is wrong, so that one case of it must differ.
#![tactic(auto)]

mod marks;
mod sheet;
mod weights;

use replaying::replay;
use std::io;

fn main(rt: HostRuntime) -> io::Result<()> {
    let mut n = [0; 4096];
    replay(&rt, "class_weights", &mut n, weights::class_weights)?;
    replay(&rt, "mark_candidates", &mut n, marks::mark_candidates)?;
    replay(&rt, "class_sheet", &mut n, sheet::class_sheet)?;
    replay(&rt, "control", &mut n, weights::class_weights)
}
