// A job file, from its bytes to its listing.
#![tactic(auto)]

ghost use Rattle.std.specs.Prelude.{◌≡◌, length};
ghost use Rattle.common.specs.Tested.{giving};
ghost use Rattle.job.specs.Writing.{printed};
ghost use Rattle.zone_steps.specs.StepsView.{rooms_of, lists};
ghost use Rattle.zone_list.specs.List.{run_job, text_of, room_tests, Listing, list, Whole};

use common::Refusal;
use zone::{Finished, Job};

// Reads a job and runs the chain on it, without shift. Outputs as slices: see docs/DECISIONS.md, 'Output slices'. A fixed array for the rotations: no heap.
pub fn run_job(
    bytes: &[u8],
    addresses: &mut [i64],
    map: &mut [i64],
    grg: &mut [i64],
    classes: &mut [i64],
    points: &mut [i64],
    triplets: &mut [i64],
    left: &mut [i64],
    lengths: &mut [f64],
    cells: &mut [i64],
) -> Result<Finished, Refusal>
    ensures { let r = rooms_of addresses.old map.old grg.old classes.old points.old triplets.old left.old lengths.old cells.old in
        let l = lists classes.new points.new triplets.new left.new lengths.new cells.new in
        record { answer = result; addresses = addresses.new; map = map.new; grg = grg.new; lists = l } ≡ run_job bytes.now r }
{
    let mut rotations = [0i64; 1728];
    match job::read_job(bytes, &mut rotations) {
        Ok(j) => {
            let a = j.a;
            let lattice = j.lattice;
            let n = 9 * j.count;
            let asked = Job {
                a: integer_matrix::nested(a),
                rotations: &rotations[0..n],
                lattice: common::nested(lattice),
                ps: [0, 0, 0],
                is_time_reversal: j.time_reversal,
                swappable: j.swapping,
                bz_grid_type: j.grid_type,
                q0: j.q0,
            };
            zone::finished_list(
                &asked, addresses, map, grg, classes, points, triplets, left, lengths, cells,
            )
        }
        Err(r) => {
            zone::wipe(
                addresses, map, grg, classes, points, triplets, left, lengths, cells,
            );
            Err(r)
        }
    }
}

// The class of each point, and the triplets of the classes.
fn print_finished(
    f: Finished,
    classes: &[i64],
    triplets: &[i64],
    text: &mut [u8],
) -> Result<usize, Refusal>
    requires { Whole f (length classes.now) (length triplets.now) }
    ensures value { let t = text_of f classes.now triplets.now in result ≡ giving (room_tests t (length text.old)) (length t) }
    ensures text_after { text.new ≡ (printed (text_of f classes.now triplets.now) (length text.old)).text }
{
    let d = f.d;
    let n = grgrid::points(grgrid::grid_of(d));
    let k = f.num_ir as usize * 3;
    job::print_listing(d, &classes[0..n], f.num_ir, &triplets[0..k], text).ok_or(
        Refusal::WrongLength,
    )
}

// Reads a job, runs the chain without shift, and prints the finished list. The buffers are the chain's outputs.
pub fn list(
    job: &[u8],
    addresses: &mut [i64],
    map: &mut [i64],
    grg: &mut [i64],
    classes: &mut [i64],
    points: &mut [i64],
    triplets: &mut [i64],
    left: &mut [i64],
    lengths: &mut [f64],
    cells: &mut [i64],
    text: &mut [u8],
) -> Result<usize, Refusal>
    ensures { let r = rooms_of addresses.old map.old grg.old classes.old points.old triplets.old left.old lengths.old cells.old in
        let l = lists classes.new points.new triplets.new left.new lengths.new cells.new in
        let o : Listing = record {
          answer = result;
          addresses = addresses.new;
          map = map.new;
          grg = grg.new;
          lists = l;
          text = text.new;
        } in
        o ≡ list job.now r (length text.old) }
{
    text.fill(0);
    let f = run_job(
        job,
        &mut *addresses,
        &mut *map,
        &mut *grg,
        &mut *classes,
        &mut *points,
        &mut *triplets,
        &mut *left,
        &mut *lengths,
        &mut *cells,
    )?;
    let printed = print_finished(f, classes, triplets, text);
    if printed.is_err() {
        zone::wipe(
            addresses, map, grg, classes, points, triplets, left, lengths, cells,
        );
    }
    printed
}
