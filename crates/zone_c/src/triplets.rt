// The exports of triplet_grid and bz_triplets.
ghost use Rattle.std.specs.Prelude.{◌≡◌, length};
ghost use Rattle.answers.specs.Triplets.{zone_ir_triplets_at_q, zone_bz_triplets_at_q};

pub fn zone_ir_triplets_at_q(
    q0: i64,
    d: &[i64],
    rotations: &[i64],
    time_reversal: bool,
    swappable: bool,
    map_triplets: &mut [i64],
    map_q: &mut [i64],
    told: &mut [i64],
) -> i64
    ensures { record { answer = result; map_triplets = map_triplets.new; map_q = map_q.new; told = told.new }
        ≡ zone_ir_triplets_at_q q0 d.now rotations.now time_reversal swappable (length map_triplets.old) (length map_q.old) (length told.old) }
{
    if !answers::triplet_class_lengths(d.len(), told.len()) {
        return answers::refuse_three(map_triplets, map_q, told);
    }
    answers::tell_classes(
        triplet_grid::ir_triplets_at_q(
            q0,
            common::row_at(d, 0),
            rotations,
            time_reversal,
            swappable,
            map_triplets,
            map_q,
        ),
        told,
    )
}

pub fn zone_bz_triplets_at_q(
    q0: i64,
    addresses: &[i64],
    map: &[i64],
    table: &[i64],
    class_map: &[i64],
    d: &[i64],
    q: &[i64],
    lattice: &[f64],
    bz_grid_type: i64,
    out: &mut [i64],
    left: &mut [i64],
    left_length: &mut [f64],
    cells: &mut [i64],
) -> i64
    ensures { let n = length out.old in
        let m = length left.old in
        let l = length left_length.old in
        let k = length cells.old in
        record { answer = result; out = out.new; left = left.new; left_length = left_length.new; cells = cells.new }
        ≡ zone_bz_triplets_at_q q0 addresses.now map.now table.now class_map.now d.now q.now lattice.now bz_grid_type n m l k }
{
    if !answers::triplet_lengths(table.len(), d.len(), q.len(), lattice.len()) {
        return answers::refuse_triplets(out, left, left_length, cells);
    }
    answers::number(bz_triplets::bz_triplets_at_q(
        q0,
        addresses,
        map,
        answers::table_at(table),
        class_map,
        common::row_at(d, 0),
        common::matrix_at(q, 0),
        answers::lattice_at(lattice),
        bz_grid_type,
        out,
        left,
        left_length,
        cells,
    ))
}
