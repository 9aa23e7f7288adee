// The chain of calls, from a matrix and its rotations to the finished list.
#![tactic(auto)]

ghost use Rattle.std.specs.Prelude.{◌≡◌, ◌&&◌, ◌*◌, eqb, negsuc, length, replicate, OnOk, IfOk};
ghost use Rattle.zone.specs.Chain.{wiped, finished_list};
ghost use Rattle.zone.specs.ChainFinished.{FinishedChain};
ghost use Rattle.zone_steps.specs.StepsView.{rooms_of, lists};
ghost use Rattle.zone.specs.ChainView.{asked};

use common::Refusal;
use zone_steps::Input;

// What a job asks for. The rotations have nine numbers each.
#[derive(Clone, Copy)]
pub struct Job<'a> {
    pub a: [[i64; 3]; 3],
    pub rotations: &'a [i64],
    pub lattice: [[f64; 3]; 3],
    pub ps: [i64; 3],
    pub is_time_reversal: bool,
    pub swappable: bool,
    // Any number: a call refuses one that is no grid type.
    pub bz_grid_type: i64,
    pub q0: i64,
}

// The diagonal and the number of classes.
#[derive(Clone, Copy)]
pub struct Finished {
    pub d: [i64; 3],
    pub num_ir: i64,
}

// Room for as many points in each.
fn rooms_agree(
    classes: usize,
    points: usize,
    triplets: usize,
    left: usize,
    lengths: usize,
    cells: usize,
) -> bool
    ensures { result ≡ eqb points classes && (eqb triplets (classes * 3) && (eqb left classes && (eqb lengths classes && eqb cells (classes * 3)))) }
{
    points == classes
        && common::is_thrice(triplets, classes)
        && left == classes
        && lengths == classes
        && common::is_thrice(cells, classes)
}

// A refusal may leave anything in the outputs, which are slices: see docs/DECISIONS.md, 'Output slices'.
fn run_chain(
    job: &Job,
    addresses: &mut [i64],
    map: &mut [i64],
    grg: &mut [i64],
    classes: &mut [i64],
    points: &mut [i64],
    triplets: &mut [i64],
    left: &mut [i64],
    lengths: &mut [f64],
    cells: &mut [i64],
) -> Result<Finished, Refusal>
    ensures value { let r = rooms_of addresses.old map.old grg.old classes.old points.old triplets.old left.old lengths.old cells.old in
        let j = asked job.now in
        result ≡ (finished_list j r).answer }
    ensures tables { let r = rooms_of addresses.old map.old grg.old classes.old points.old triplets.old left.old lengths.old cells.old in
        let j = asked job.now in
        let l = lists classes.new points.new triplets.new left.new lengths.new cells.new in
        OnOk result (record { answer = result; addresses = addresses.new; map = map.new; grg = grg.new; lists = l } ≡ finished_list j r) }
{
    if !rooms_agree(
        classes.len(),
        points.len(),
        triplets.len(),
        left.len(),
        lengths.len(),
        cells.len(),
    ) {
        return Err(Refusal::WrongLength);
    }
    let s = snf3x3::snf3x3(job.a)?;
    let d = s.d_diag;
    let q = s.q;
    let input = Input {
        d,
        q: integer_matrix::nested(q),
        rotations: job.rotations,
        lattice: job.lattice,
        is_time_reversal: job.is_time_reversal,
        swappable: job.swappable,
        bz_grid_type: job.bz_grid_type,
        q0: job.q0,
    };
    zone_steps::list_in_basis(
        &input,
        job.ps,
        addresses,
        map,
        grg,
        &mut *classes,
        points,
        triplets,
        left,
        lengths,
        cells,
    )?;
    // The places past the class map hold -1, which is no place.
    let num_ir = grgrid::own_places(classes) as i64;
    Ok(Finished { d, num_ir })
}

// -1 in every place of the outputs.
pub fn wipe(
    addresses: &mut [i64],
    map: &mut [i64],
    grg: &mut [i64],
    classes: &mut [i64],
    points: &mut [i64],
    triplets: &mut [i64],
    left: &mut [i64],
    lengths: &mut [f64],
    cells: &mut [i64],
)
    ensures addresses_after { addresses.new ≡ replicate (length addresses.old) (negsuc 0) }
    ensures map_after { map.new ≡ replicate (length map.old) (negsuc 0) }
    ensures grg_after { grg.new ≡ replicate (length grg.old) (negsuc 0) }
    ensures lengths_after { let r = rooms_of addresses.old map.old grg.old classes.old points.old triplets.old left.old lengths.old cells.old in
        lists classes.new points.new triplets.new left.new lengths.new cells.new ≡ wiped r }
{
    bzgrid::wipe(addresses, map, grg);
    zone_steps::wipe_lists(classes, points, triplets, left, lengths, cells);
}

// Diagonalises the matrix, takes the reciprocal rotations of a list that must be a group, transforms them, and runs images, classes and triplets. An output
// may be longer than needed. The last promise is demand 3, said of these slices.
pub fn finished_list(
    job: &Job,
    addresses: &mut [i64],
    map: &mut [i64],
    grg: &mut [i64],
    classes: &mut [i64],
    points: &mut [i64],
    triplets: &mut [i64],
    left: &mut [i64],
    lengths: &mut [f64],
    cells: &mut [i64],
) -> Result<Finished, Refusal>
    ensures value { let r = rooms_of addresses.old map.old grg.old classes.old points.old triplets.old left.old lengths.old cells.old in
        let j = asked job.now in
        let l = lists classes.new points.new triplets.new left.new lengths.new cells.new in
        record { answer = result; addresses = addresses.new; map = map.new; grg = grg.new; lists = l } ≡ finished_list j r }
    ensures finished_chain { let j = asked job.now in
        let l = lists classes.new points.new triplets.new left.new lengths.new cells.new in
        IfOk result (λ v. FinishedChain j v addresses.new map.new l (length classes.old)) }
{
    let f = run_chain(
        job,
        &mut *addresses,
        &mut *map,
        &mut *grg,
        &mut *classes,
        &mut *points,
        &mut *triplets,
        &mut *left,
        &mut *lengths,
        &mut *cells,
    );
    if f.is_err() {
        wipe(
            addresses, map, grg, classes, points, triplets, left, lengths, cells,
        );
    }
    f
}
