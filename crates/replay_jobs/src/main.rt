// Replays the job files of data/zone_list: what the program prints of each, and what the port's export
// answers and writes. Prints how many cases there were, how many differ, and how many differ once the last
// number of the line is another one; the export writes no text of a refused job, so these do not differ
// then. One number of data/control is wrong, so that one case of it must differ.
#![tactic(auto)]

mod job_file;
mod runs;

use replaying::replay_as;
use std::io;

fn main(rt: HostRuntime) -> io::Result<()> {
    let mut n = [0; 4096];
    replay_as(&rt, "zone_list", "print_job", &mut n, job_file::printed)?;
    replay_as(&rt, "zone_list", "zone_list", &mut n, job_file::exported)?;
    replay_as(
        &rt,
        "control",
        "control of print_job",
        &mut n,
        job_file::printed,
    )?;
    replay_as(
        &rt,
        "control",
        "control of zone_list",
        &mut n,
        job_file::exported,
    )
}
