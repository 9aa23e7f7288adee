// The program's one call, from the bytes that it read to the text that it prints.
#![tactic(auto)]

ghost use Rattle.std.specs.Prelude.{◌≡◌, ◌≤◌, length};
ghost use Rattle.job.specs.Listing.{refusal};
ghost use Rattle.zone_steps.specs.StepsView.{lists};
ghost use Rattle.zone_print.specs.JobText.{printed_text, PrintedJob, printed_job};

use common::Refusal;

// The line of a refusal, and how many bytes it is: 0 without room.
pub fn print_refused(r: Refusal, text: &mut [u8]) -> usize
    ensures { record { bytes = result; text = text.new } ≡ printed_text (refusal r) (length text.old) }
{
    job::print_refusal(r, text).unwrap_or(0)
}

// What zonelist prints of the bytes that it read, and how many bytes that is. Outputs as slices: see docs/DECISIONS.md,
// 'Output slices'.
pub fn print_job(
    job: &[u8],
    addresses: &mut [i64; 3072],
    map: &mut [i64; 2305],
    grg: &mut [i64; 1024],
    classes: &mut [i64; 256],
    points: &mut [i64; 256],
    triplets: &mut [i64; 768],
    left: &mut [i64; 256],
    lengths: &mut [f64; 256],
    cells: &mut [i64; 768],
    text: &mut [u8; 8192],
) -> usize
    ensures o_after { let l = lists classes.new points.new triplets.new left.new lengths.new cells.new in
        let o : PrintedJob = record {
          bytes = result;
          text = text.new;
          addresses = addresses.new;
          map = map.new;
          grg = grg.new;
          lists = l;
        } in
        o ≡ printed_job job.now }
    ensures upper_bound { result ≤ length text.new }
{
    match zone_list::list(
        job, addresses, map, grg, classes, points, triplets, left, lengths, cells, &mut *text,
    ) {
        Ok(n) => n,
        Err(r) => print_refused(r, text),
    }
}
