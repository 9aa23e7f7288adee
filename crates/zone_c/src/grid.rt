// The exports of grgrid.
ghost use Rattle.std.specs.Prelude.{◌≡◌, length};
ghost use Rattle.answers.specs.Grids.{zone_ir_grid_map, zone_all_grid_addresses, zone_grid_index_from_address, zone_rotate_grid_index};

pub fn zone_ir_grid_map(
    rotations: &[i64],
    d: &[i64],
    ps: &[i64],
    map: &mut [i64],
    told: &mut [i64],
) -> i64
    ensures { record { answer = result; map = map.new; told = told.new } ≡ zone_ir_grid_map rotations.now d.now ps.now (length map.old) (length told.old) }
{
    if !answers::class_lengths(d.len(), ps.len(), told.len()) {
        map.fill(-1);
        return answers::refuse(told);
    }
    answers::tell_classes(
        grgrid::ir_grid_map(rotations, common::row_at(d, 0), common::row_at(ps, 0), map),
        told,
    )
}

pub fn zone_all_grid_addresses(d: &[i64], out: &mut [i64]) -> i64
    ensures { record { answer = result; out = out.new } ≡ zone_all_grid_addresses d.now (length out.old) }
{
    if d.len() != 3 {
        return answers::refuse(out);
    }
    answers::number(grgrid::all_grid_addresses(common::row_at(d, 0), out))
}

pub fn zone_grid_index_from_address(address: &[i64], d: &[i64], told: &mut [i64]) -> i64
    ensures { record { answer = result; told = told.new } ≡ zone_grid_index_from_address address.now d.now (length told.old) }
{
    if !answers::folding_lengths(address.len(), d.len(), told.len()) {
        return answers::refuse(told);
    }
    answers::tell_folded(
        grgrid::grid_index_from_address(common::row_at(address, 0), common::row_at(d, 0)),
        told,
    )
}

pub fn zone_rotate_grid_index(
    point: i64,
    rotation: &[i64],
    d: &[i64],
    ps: &[i64],
    told: &mut [i64],
) -> i64
    ensures { record { answer = result; told = told.new } ≡ zone_rotate_grid_index point rotation.now d.now ps.now (length told.old) }
{
    if !answers::point_lengths(rotation.len(), d.len(), ps.len(), told.len()) {
        return answers::refuse(told);
    }
    answers::tell_folded(
        grgrid::rotate_grid_index(
            point,
            common::matrix_at(rotation, 0),
            common::row_at(d, 0),
            common::row_at(ps, 0),
        ),
        told,
    )
}
