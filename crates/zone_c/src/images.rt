// The exports of bzgrid, and of what reads its tables.
ghost use Rattle.std.specs.Prelude.{◌≡◌, length};
ghost use Rattle.answers.specs.Images.{zone_bz_grid_addresses, zone_bz_grid_fill, zone_bz_grid_sizes, zone_convert_bz_grid};
ghost use Rattle.answers.specs.Images.{zone_rotate_bz_grid_index, zone_rotate_bz_grid_indices, zone_neighboring_grid_points};

pub fn zone_bz_grid_addresses(
    d: &[i64],
    q: &[i64],
    ps: &[i64],
    lattice: &[f64],
    bz_grid_type: i64,
    addresses: &mut [i64],
    map: &mut [i64],
    grg: &mut [i64],
    told: &mut [i64],
) -> i64
    ensures { record { answer = result; addresses = addresses.new; map = map.new; grg = grg.new; told = told.new }
        ≡ zone_bz_grid_addresses d.now q.now ps.now lattice.now bz_grid_type (length addresses.old) (length map.old) (length grg.old) (length told.old) }
{
    if !answers::image_lengths(d.len(), q.len(), ps.len(), lattice.len(), told.len(), 10) {
        return answers::refuse_four(addresses, map, grg, told);
    }
    answers::tell_built(
        bzgrid::bz_grid_addresses(
            common::row_at(d, 0),
            common::matrix_at(q, 0),
            common::row_at(ps, 0),
            answers::lattice_at(lattice),
            bz_grid_type,
            addresses,
            map,
            grg,
        ),
        told,
    )
}

pub fn zone_bz_grid_sizes(
    d: &[i64],
    q: &[i64],
    ps: &[i64],
    lattice: &[f64],
    bz_grid_type: i64,
    told: &mut [i64],
) -> i64
    ensures { record { answer = result; told = told.new } ≡ zone_bz_grid_sizes d.now q.now ps.now lattice.now bz_grid_type (length told.old) }
{
    if !answers::image_lengths(d.len(), q.len(), ps.len(), lattice.len(), told.len(), 3) {
        return answers::refuse(told);
    }
    answers::tell_sizes(
        bzgrid::bz_grid_sizes(
            common::row_at(d, 0),
            common::matrix_at(q, 0),
            common::row_at(ps, 0),
            answers::lattice_at(lattice),
            bz_grid_type,
        ),
        told,
    )
}

pub fn zone_bz_grid_fill(
    d: &[i64],
    q: &[i64],
    ps: &[i64],
    lattice: &[f64],
    bz_grid_type: i64,
    sizes: &[i64],
    addresses: &mut [i64],
    map: &mut [i64],
    grg: &mut [i64],
    told: &mut [i64],
) -> i64
    ensures { record { answer = result; addresses = addresses.new; map = map.new; grg = grg.new; told = told.new }
        ≡ zone_bz_grid_fill d.now q.now ps.now lattice.now bz_grid_type sizes.now (length addresses.old) (length map.old) (length grg.old) (length told.old) }
{
    if sizes.len() != 3
        || !answers::image_lengths(d.len(), q.len(), ps.len(), lattice.len(), told.len(), 10)
    {
        return answers::refuse_four(addresses, map, grg, told);
    }
    answers::tell_built(
        bzgrid::bz_grid_fill(
            common::row_at(d, 0),
            common::matrix_at(q, 0),
            common::row_at(ps, 0),
            answers::lattice_at(lattice),
            bz_grid_type,
            common::row_at(sizes, 0),
            addresses,
            map,
            grg,
        ),
        told,
    )
}

pub fn zone_rotate_bz_grid_index(
    index: i64,
    rotation: &[i64],
    addresses: &[i64],
    map: &[i64],
    table: &[i64],
    d: &[i64],
    ps: &[i64],
    bz_grid_type: i64,
    told: &mut [i64],
) -> i64
    ensures { record { answer = result; told = told.new }
        ≡ zone_rotate_bz_grid_index index rotation.now addresses.now map.now table.now d.now ps.now bz_grid_type (length told.old) }
{
    if !answers::rotate_lengths(rotation.len(), table.len(), d.len(), ps.len(), told.len()) {
        return answers::refuse(told);
    }
    answers::tell_rotated(
        bztable::rotate_bz_grid_index(
            index,
            common::matrix_at(rotation, 0),
            addresses,
            map,
            answers::table_at(table),
            common::row_at(d, 0),
            common::row_at(ps, 0),
            bz_grid_type,
        ),
        told,
    )
}

pub fn zone_rotate_bz_grid_indices(
    indices: &[i64],
    rotation: &[i64],
    addresses: &[i64],
    map: &[i64],
    table: &[i64],
    d: &[i64],
    ps: &[i64],
    bz_grid_type: i64,
    out: &mut [i64],
    fallbacks: &mut [i64],
) -> i64
    ensures { let n = length out.old in
        let m = length fallbacks.old in
        record { answer = result; out = out.new; fallbacks = fallbacks.new }
        ≡ zone_rotate_bz_grid_indices indices.now rotation.now addresses.now map.now table.now d.now ps.now bz_grid_type n m }
{
    if !answers::burst_lengths(rotation.len(), table.len(), d.len(), ps.len()) {
        return answers::refuse_two(out, fallbacks);
    }
    answers::number(bztable::rotate_bz_grid_indices(
        indices,
        common::matrix_at(rotation, 0),
        addresses,
        map,
        answers::table_at(table),
        common::row_at(d, 0),
        common::row_at(ps, 0),
        bz_grid_type,
        out,
        fallbacks,
    ))
}

pub fn zone_neighboring_grid_points(
    points: &[i64],
    offsets: &[i64],
    addresses: &[i64],
    map: &[i64],
    table: &[i64],
    d: &[i64],
    bz_grid_type: i64,
    out: &mut [i64],
) -> i64
    ensures { record { answer = result; out = out.new }
        ≡ zone_neighboring_grid_points points.now offsets.now addresses.now map.now table.now d.now bz_grid_type (length out.old) }
{
    if table.len() != 7 || d.len() != 3 {
        return answers::refuse(out);
    }
    answers::number(bztable::neighboring_grid_points_many(
        points,
        offsets,
        addresses,
        map,
        answers::table_at(table),
        common::row_at(d, 0),
        bz_grid_type,
        out,
    ))
}

pub fn zone_convert_bz_grid(
    table: &[i64],
    addresses: &[i64],
    map: &[i64],
    grg: &[i64],
    out_addresses: &mut [i64],
    out_map: &mut [i64],
    out_grg: &mut [i64],
    told: &mut [i64],
) -> i64
    ensures { let a = length out_addresses.old in
        let b = length out_map.old in
        let c = length out_grg.old in
        record { answer = result; addresses = out_addresses.new; map = out_map.new; grg = out_grg.new; told = told.new }
        ≡ zone_convert_bz_grid table.now addresses.now map.now grg.now a b c (length told.old) }
{
    if table.len() != 7 || told.len() != 10 {
        return answers::refuse_four(out_addresses, out_map, out_grg, told);
    }
    answers::tell_built(
        bzconvert::convert_bz_grid(
            answers::table_at(table),
            addresses,
            map,
            grg,
            out_addresses,
            out_map,
            out_grg,
        ),
        told,
    )
}
