// The exports of bzgrid, and of what reads its tables.
ghost use Rattle.std.specs.Prelude.{◌≡◌, length};
ghost use Rattle.answers.specs.Images.{zone_bz_grid_addresses, zone_bz_grid_fill, zone_bz_grid_sizes, zone_convert_bz_grid};
ghost use Rattle.answers.specs.Images.{zone_rotate_bz_grid_index, zone_rotate_bz_grid_indices, zone_neighboring_grid_points};

#[unsafe(no_mangle)]
pub extern "C" fn zone_bz_grid_addresses(
    d: &[i64],
    q: &[i64],
    ps: &[i64],
    lattice: &[f64],
    bz_grid_type: i64,
    addresses: &mut [i64],
    map: &mut [i64],
    grg: &mut [i64],
    told: &mut [i64],
) -> i64
    ensures { record { answer = result; addresses = addresses.new; map = map.new; grg = grg.new; told = told.new }
        ≡ zone_bz_grid_addresses d.now q.now ps.now lattice.now bz_grid_type (length addresses.old) (length map.old) (length grg.old) (length told.old) }
{
    zone_c::zone_bz_grid_addresses(d, q, ps, lattice, bz_grid_type, addresses, map, grg, told)
}

#[unsafe(no_mangle)]
pub extern "C" fn zone_bz_grid_sizes(
    d: &[i64],
    q: &[i64],
    ps: &[i64],
    lattice: &[f64],
    bz_grid_type: i64,
    told: &mut [i64],
) -> i64
    ensures { record { answer = result; told = told.new } ≡ zone_bz_grid_sizes d.now q.now ps.now lattice.now bz_grid_type (length told.old) }
{
    zone_c::zone_bz_grid_sizes(d, q, ps, lattice, bz_grid_type, told)
}

#[unsafe(no_mangle)]
pub extern "C" fn zone_bz_grid_fill(
    d: &[i64],
    q: &[i64],
    ps: &[i64],
    lattice: &[f64],
    bz_grid_type: i64,
    sizes: &[i64],
    addresses: &mut [i64],
    map: &mut [i64],
    grg: &mut [i64],
    told: &mut [i64],
) -> i64
    ensures { record { answer = result; addresses = addresses.new; map = map.new; grg = grg.new; told = told.new }
        ≡ zone_bz_grid_fill d.now q.now ps.now lattice.now bz_grid_type sizes.now (length addresses.old) (length map.old) (length grg.old) (length told.old) }
{
    zone_c::zone_bz_grid_fill(
        d,
        q,
        ps,
        lattice,
        bz_grid_type,
        sizes,
        addresses,
        map,
        grg,
        told,
    )
}

#[unsafe(no_mangle)]
pub extern "C" fn zone_rotate_bz_grid_index(
    index: i64,
    rotation: &[i64],
    addresses: &[i64],
    map: &[i64],
    table: &[i64],
    d: &[i64],
    ps: &[i64],
    bz_grid_type: i64,
    told: &mut [i64],
) -> i64
    ensures { record { answer = result; told = told.new }
        ≡ zone_rotate_bz_grid_index index rotation.now addresses.now map.now table.now d.now ps.now bz_grid_type (length told.old) }
{
    zone_c::zone_rotate_bz_grid_index(
        index,
        rotation,
        addresses,
        map,
        table,
        d,
        ps,
        bz_grid_type,
        told,
    )
}

#[unsafe(no_mangle)]
pub extern "C" fn zone_rotate_bz_grid_indices(
    indices: &[i64],
    rotation: &[i64],
    addresses: &[i64],
    map: &[i64],
    table: &[i64],
    d: &[i64],
    ps: &[i64],
    bz_grid_type: i64,
    out: &mut [i64],
    fallbacks: &mut [i64],
) -> i64
    ensures { let n = length out.old in
        let m = length fallbacks.old in
        record { answer = result; out = out.new; fallbacks = fallbacks.new }
        ≡ zone_rotate_bz_grid_indices indices.now rotation.now addresses.now map.now table.now d.now ps.now bz_grid_type n m }
{
    zone_c::zone_rotate_bz_grid_indices(
        indices,
        rotation,
        addresses,
        map,
        table,
        d,
        ps,
        bz_grid_type,
        out,
        fallbacks,
    )
}

#[unsafe(no_mangle)]
pub extern "C" fn zone_neighboring_grid_points(
    points: &[i64],
    offsets: &[i64],
    addresses: &[i64],
    map: &[i64],
    table: &[i64],
    d: &[i64],
    bz_grid_type: i64,
    out: &mut [i64],
) -> i64
    ensures { record { answer = result; out = out.new }
        ≡ zone_neighboring_grid_points points.now offsets.now addresses.now map.now table.now d.now bz_grid_type (length out.old) }
{
    zone_c::zone_neighboring_grid_points(
        points,
        offsets,
        addresses,
        map,
        table,
        d,
        bz_grid_type,
        out,
    )
}

#[unsafe(no_mangle)]
pub extern "C" fn zone_convert_bz_grid(
    table: &[i64],
    addresses: &[i64],
    map: &[i64],
    grg: &[i64],
    out_addresses: &mut [i64],
    out_map: &mut [i64],
    out_grg: &mut [i64],
    told: &mut [i64],
) -> i64
    ensures { let a = length out_addresses.old in
        let b = length out_map.old in
        let c = length out_grg.old in
        record { answer = result; addresses = out_addresses.new; map = out_map.new; grg = out_grg.new; told = told.new }
        ≡ zone_convert_bz_grid table.now addresses.now map.now grg.now a b c (length told.old) }
{
    zone_c::zone_convert_bz_grid(
        table,
        addresses,
        map,
        grg,
        out_addresses,
        out_map,
        out_grg,
        told,
    )
}
