// The exports of grgrid.
ghost use Rattle.std.specs.Prelude.{◌≡◌, length};
ghost use Rattle.answers.specs.Grids.{zone_ir_grid_map, zone_all_grid_addresses, zone_grid_index_from_address, zone_rotate_grid_index};

#[unsafe(no_mangle)]
pub extern "C" fn zone_ir_grid_map(
    rotations: &[i64],
    d: &[i64],
    ps: &[i64],
    map: &mut [i64],
    told: &mut [i64],
) -> i64
    ensures { record { answer = result; map = map.new; told = told.new } ≡ zone_ir_grid_map rotations.now d.now ps.now (length map.old) (length told.old) }
{
    zone_c::zone_ir_grid_map(rotations, d, ps, map, told)
}

#[unsafe(no_mangle)]
pub extern "C" fn zone_all_grid_addresses(d: &[i64], out: &mut [i64]) -> i64
    ensures { record { answer = result; out = out.new } ≡ zone_all_grid_addresses d.now (length out.old) }
{
    zone_c::zone_all_grid_addresses(d, out)
}

#[unsafe(no_mangle)]
pub extern "C" fn zone_grid_index_from_address(address: &[i64], d: &[i64], told: &mut [i64]) -> i64
    ensures { record { answer = result; told = told.new } ≡ zone_grid_index_from_address address.now d.now (length told.old) }
{
    zone_c::zone_grid_index_from_address(address, d, told)
}

#[unsafe(no_mangle)]
pub extern "C" fn zone_rotate_grid_index(
    point: i64,
    rotation: &[i64],
    d: &[i64],
    ps: &[i64],
    told: &mut [i64],
) -> i64
    ensures { record { answer = result; told = told.new } ≡ zone_rotate_grid_index point rotation.now d.now ps.now (length told.old) }
{
    zone_c::zone_rotate_grid_index(point, rotation, d, ps, told)
}
