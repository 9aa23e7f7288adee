// The program's one call, from the bytes that it read to the class sheet that it prints.
#![tactic(auto)]

ghost use Rattle.std.specs.Prelude.{◌≡◌, ◌≤◌, ◌<◌, map, nat_abs, length};
ghost use Rattle.std.specs.List.{All};
ghost use Rattle.common.specs.Tested.{giving, without_value};
ghost use Rattle.class_sheet.specs.Sheet.{place_count};
ghost use Rattle.zone_steps.specs.StepsView.{rooms_of, lists};
ghost use Rattle.zone_print.specs.JobText.{printed_text};
ghost use Rattle.sheet_print.specs.SheetText.{sheet_of, both_rooms, sheet_for, LaidSheet, lay_job, PrintedSheet, printed_sheet};
ghost use Rattle.sheet_print.specs.SheetView.{Sheeted};

use common::Refusal;
use zone::Finished;

// How many places the sheet of k classes has.
fn place_count(k: usize) -> usize
    requires { k ≤ 65536 }
    ensures { result ≡ place_count k }
{
    46 * (k + k.div_ceil(40))
}

// The sheet of a finished list in the first places, and how many it has, which may be at most `room`.
fn lay_sheet(
    f: Finished,
    classes: &[i64],
    triplets: &[i64],
    room: usize,
    sheet: &mut [i64],
) -> Result<usize, Refusal>
    requires { Sheeted f classes.now triplets.now }
    ensures value { let t = sheet_of f classes.now triplets.now in result ≡ giving (both_rooms t (length sheet.old) room) (length t) }
    ensures sheet_after { sheet.new ≡ sheet_for (without_value result) (sheet_of f classes.now triplets.now) (length sheet.old) }
{
    sheet.fill(-1);
    let k = f.num_ir as usize;
    let n = place_count(k);
    if sheet.len() < n || room < n {
        return Err(Refusal::WrongLength);
    }
    let points = grgrid::points(grgrid::grid_of(f.d));
    class_sheet::class_sheet(&classes[..points], &triplets[..k * 3], &mut sheet[..n])?;
    Ok(n)
}

// Runs a job and lays out the sheet of its finished list, whose text may have at most `room` places.
fn lay_job(
    job: &[u8],
    addresses: &mut [i64],
    map: &mut [i64],
    grg: &mut [i64],
    classes: &mut [i64],
    points: &mut [i64],
    triplets: &mut [i64],
    left: &mut [i64],
    lengths: &mut [f64],
    cells: &mut [i64],
    sheet: &mut [i64],
    room: usize,
) -> Result<usize, Refusal>
    ensures { let r = rooms_of addresses.old map.old grg.old classes.old points.old triplets.old left.old lengths.old cells.old in
        let l = lists classes.new points.new triplets.new left.new lengths.new cells.new in
        let o : LaidSheet = record {
          answer = result;
          addresses = addresses.new;
          map = map.new;
          grg = grg.new;
          lists = l;
          sheet = sheet.new;
        } in
        o ≡ lay_job job.now r (length sheet.old) room }
{
    sheet.fill(-1);
    let f = zone_list::run_job(
        job,
        &mut *addresses,
        &mut *map,
        &mut *grg,
        &mut *classes,
        &mut *points,
        &mut *triplets,
        &mut *left,
        &mut *lengths,
        &mut *cells,
    )?;
    let laid = lay_sheet(f, classes, triplets, room, sheet);
    if laid.is_err() {
        zone::wipe(
            addresses, map, grg, classes, points, triplets, left, lengths, cells,
        );
    }
    laid
}

// Codes as bytes, and 0 after them.
fn put_codes(codes: &[i64], text: &mut [u8])
    requires small { All (λ z. nat_abs z < 256) codes.now }
    requires room { length codes.now ≤ length text.old }
    ensures { text.new ≡ (printed_text (map nat_abs codes.now) (length text.old)).text }
{
    text.fill(0);
    for (i, c) in codes.iter().enumerate() {
        text[i] = c.unsigned_abs() as u8;
    }
}

// What the program sheet prints of the bytes that it read, and how many bytes that is. Outputs as slices: see docs/DECISIONS.md,
// 'Output slices'.
pub fn print_sheet(
    job: &[u8],
    addresses: &mut [i64],
    map: &mut [i64],
    grg: &mut [i64],
    classes: &mut [i64],
    points: &mut [i64],
    triplets: &mut [i64],
    left: &mut [i64],
    lengths: &mut [f64],
    cells: &mut [i64],
    sheet: &mut [i64],
    text: &mut [u8],
) -> usize
    ensures o_after { let r = rooms_of addresses.old map.old grg.old classes.old points.old triplets.old left.old lengths.old cells.old in
        let l = lists classes.new points.new triplets.new left.new lengths.new cells.new in
        let o : PrintedSheet = record {
          bytes = result;
          text = text.new;
          addresses = addresses.new;
          map = map.new;
          grg = grg.new;
          lists = l;
          sheet = sheet.new;
        } in
        o ≡ printed_sheet job.now r (length sheet.old) (length text.old) }
    ensures upper_bound { result ≤ length text.new }
{
    match lay_job(
        job,
        addresses,
        map,
        grg,
        classes,
        points,
        triplets,
        left,
        lengths,
        cells,
        &mut *sheet,
        text.len(),
    ) {
        Ok(n) => {
            put_codes(&sheet[..n], text);
            n
        }
        Err(r) => zone_print::print_refused(r, text),
    }
}
