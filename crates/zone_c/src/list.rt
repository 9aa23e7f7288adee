// The export of a job's listing.
ghost use Rattle.std.specs.Prelude.{◌≡◌, length};
ghost use Rattle.zone_list.specs.List.{list_rooms, list};
ghost use Rattle.zone_c.specs.Lists.{zone_list};

use common::Refusal;

// In arrays for 256 points and 1,024 images. Fixed arrays: no heap.
fn list_job(job: &[u8], text: &mut [u8]) -> Result<usize, Refusal>
    ensures value { result ≡ (list job.now list_rooms (length text.old)).answer }
    ensures text_after { text.new ≡ (list job.now list_rooms (length text.old)).text }
{
    let mut addresses = [0; 3072];
    let mut map = [-1; 2305];
    let mut grg = [0; 1024];
    let mut classes = [0; 256];
    let mut points = [0; 256];
    let mut triplets = [0; 768];
    let mut left = [0; 256];
    let mut lengths = [0.0; 256];
    let mut cells = [0; 768];
    zone_list::list(
        job,
        &mut addresses,
        &mut map,
        &mut grg,
        &mut classes,
        &mut points,
        &mut triplets,
        &mut left,
        &mut lengths,
        &mut cells,
        text,
    )
}

pub fn zone_list(job: &[u8], text: &mut [u8], told: &mut [i64]) -> i64
    ensures { record { answer = result; text = text.new; told = told.new } ≡ zone_list job.now (length text.old) (length told.old) }
{
    if told.len() != 1 {
        text.fill(0);
        return answers::refuse(told);
    }
    answers::tell_count(list_job(job, text), told)
}
