// Irreducible triplet search on a generalized regular grid.
#![tactic(auto)]

ghost use Rattle.std.specs.Prelude.{IfOk, ◌≡◌, true, false, map, ◌+◌, ◌*◌, ◌≤◌, ◌<◌, T, pos, nat_abs, length, get_or, Ok, Err};
ghost use Rattle.common.specs.Tested.{Accepted};
ghost use Rattle.common.specs.Matrix.{◌▹◌};
ghost use Rattle.common.specs.Array.{vector_of, matrix_of, items, matrices};
ghost use Rattle.common.specs.Limits.{all_within, whole_matrices, rotations_fit};
ghost use Rattle.grgrid.specs.Grid.{size, index, address};
ghost use Rattle.grgrid.specs.Sides.{sides};
ghost use Rattle.grgrid.specs.ClassMap.{Numbered};
ghost use Rattle.grgrid.specs.Own.{own_places};
ghost use Rattle.recip_rotations.specs.Flat.{laid};
ghost use Rattle.recip_rotations.specs.PointGroup.{room_tests};
ghost use Rattle.triplet_grid.specs.Partner.{stabilizer, third};
ghost use Rattle.triplet_grid.specs.IrTriplets.{map_q_of, lower_of, map_triplets_of, input_tests, classes_at, ir_triplets_at_q};

use common::Refusal;
use grgrid::{Address, Grid, GridPoint, Rotation, Rotations};

// The classes under the operations that keep q0. A number in `map_q` is the lowest point that bears it, which comes first.
#[derive(Clone, Copy)]
struct Classes<'a> {
    map_q: &'a [i64],
    q0: GridPoint,
    ghost places: { length map_q.now ≡ size (sides q0.g) },
    ghost numbered: { Numbered (size (sides q0.g)) map_q.now },
}

// `-a - b`.
pub fn third(a: Address, b: Address) -> [i64; 3]
    ensures { result ≡ items (third (vector_of a.v) (vector_of b.v)) }
{
    [-a.v[0] - b.v[0], -a.v[1] - b.v[1], -a.v[2] - b.v[2]]
}

// Where a rotation carries the point at an address.
fn carried(rotation: Rotation, address: Address, g: Grid) -> usize
    ensures { result ≡ index (sides g) (matrix_of rotation.m ▹ vector_of address.v) }
{
    grgrid::fold_address(common::matvec_ii(rotation.m, address.v), g).index
}

// Moves the matrices that keep q0 to the front, and answers how many there are.
// The limits of `group` are a clause, and no type: only this and its caller ask for them.
fn keep_stabilizer(group: &mut [i64], q0: GridPoint) -> usize
    requires { T (all_within 100000 group.old) }
    ensures group_after { group.new ≡ laid (stabilizer (sides q0.g) q0.p (matrices group.old)) group.old }
    ensures value { result ≡ length (stabilizer (sides q0.g) q0.p (matrices group.old)) }
{
    let address = grgrid::grid_address_from_index(q0);
    let mut kept = 0;
    // By index: the matrices move within the list.
    for n in 0..group.len() / 9 {
        let rotation = Rotation {
            m: common::matrix_at(group, n),
        };
        if carried(rotation, address, q0.g) == q0.p {
            group[kept * 9..kept * 9 + 9].copy_from_slice(&integer_matrix::flat(rotation.m));
            kept += 1;
        }
    }
    kept
}

// The classes under those matrices of `group` that keep q0.
fn number_classes(group: &mut [i64], q0: GridPoint, map_q: &mut [i64])
    requires within { T (all_within 100000 group.old) }
    requires places { length map_q.old ≡ size (sides q0.g) }
    ensures { map_q.new ≡ map pos (map_q_of (sides q0.g) q0.p (matrices group.old)) }
{
    let kept = keep_stabilizer(&mut *group, q0);
    let rotations = Rotations {
        list: &group[..kept * 9],
    };
    grgrid::number_points(rotations, q0.g, common::shift([0, 0, 0]), map_q);
}

// The class number of q1, which is its own, or that of its partner if it is lower.
// A clause bounds q1: a GridPoint has a grid of its own, which would have to be that of `classes`.
fn swapped_number(classes: &Classes<'_>, address0: Address, q1: usize) -> i64
    requires { q1 < size (sides classes.now.q0.g) }
    ensures { let d = sides classes.now.q0.g in
        result ≡ pos (lower_of (get_or (map nat_abs classes.now.map_q.now) (index d (third (vector_of address0.v) (address d q1))) 0) q1) }
{
    let g = classes.q0.g;
    let address1 = grgrid::grid_address_from_index(GridPoint { p: q1, g });
    let q2 = grgrid::fold_address(third(address0, address1), g).index;
    classes.map_q[q2].min(q1 as i64)
}

// Swappable case: q1 and q2 can be exchanged.
fn ir_triplets_at_q_perm_q1q2(classes: &Classes<'_>, map_triplets: &mut [i64])
    requires { length map_triplets.old ≡ size (sides classes.now.q0.g) }
    ensures { map_triplets.new ≡ map pos (map_triplets_of true (sides classes.now.q0.g) classes.now.q0.p (map nat_abs classes.now.map_q.now)) }
{
    let q0 = classes.q0;
    let address0 = grgrid::grid_address_from_index(q0);
    // By index: a place may take what another one has.
    for q1 in 0..map_triplets.len() {
        let own = classes.map_q[q1];
        map_triplets[q1] = if own == q1 as i64 {
            swapped_number(classes, address0, q1)
        } else {
            map_triplets[own as usize]
        };
    }
}

// Non-swappable case: the classes as they are. By index: `copy_from_slice` would have an archive for C need memmove.
fn ir_triplets_at_q_noperm(map_q: &[i64], map_triplets: &mut [i64])
    requires { length map_q.now ≡ length map_triplets.old }
    ensures { map_triplets.new ≡ map_q.now }
{
    for q1 in 0..map_q.len() {
        map_triplets[q1] = map_q[q1];
    }
}

#[tactic(auto, using(crate::proofs::Outcome::refused, crate::proofs::Outcome::onward), unfolding(crate::specs::IrTriplets::input_tests))]
fn triplet_tests(
    q0: i64,
    d: [i64; 3],
    rotations: &[i64],
    triplets: usize,
    classes: usize,
) -> Result<(), Refusal>
    ensures { result ≡ input_tests q0 d rotations.now triplets classes }
{
    if !common::whole_matrices(rotations) {
        return Err(Refusal::WrongLength);
    }
    if !common::diagonal_fits(d) {
        return Err(Refusal::OutsideLimits);
    }
    let n = grgrid::points(grgrid::grid_of(d));
    if triplets != n || classes != n {
        return Err(Refusal::WrongLength);
    }
    if !common::point_fits(q0, n as i64) {
        return Err(Refusal::OutsideLimits);
    }
    if !common::rotations_fit(rotations, 100000) {
        return Err(Refusal::OutsideLimits);
    }
    Ok(())
}

// The classes under the operations that keep q0, or why there is no such group.
fn classes_at(
    q0: GridPoint,
    rotations: &[i64],
    is_time_reversal: bool,
    map_q: &mut [i64],
) -> Result<(), Refusal>
    requires whole { T (whole_matrices rotations.now) }
    requires limits { T (rotations_fit 100000 rotations.now) }
    requires places { length map_q.old ≡ size (sides q0.g) }
    ensures value { result ≡ room_tests (matrices rotations.now) is_time_reversal false }
    ensures map_q_after { result ≡ Accepted → map_q.new ≡ map pos (classes_at q0.p (sides q0.g) (matrices rotations.now) is_time_reversal) }
{
    // A fixed array: no heap.
    let mut group = [0; 432];
    let count = recip_rotations::get_reciprocal_point_group(
        rotations,
        is_time_reversal,
        false,
        &mut group,
    )?;
    number_classes(&mut group[..count * 9], q0, map_q);
    Ok(())
}

fn number_triplets(swappable: bool, classes: &Classes<'_>, map_triplets: &mut [i64]) -> i64
    requires { length map_triplets.old ≡ size (sides classes.now.q0.g) }
    ensures map_triplets_after { let triplets = map_triplets_of swappable (sides classes.now.q0.g) classes.now.q0.p (map nat_abs classes.now.map_q.now) in
        map_triplets.new ≡ map pos triplets }
    ensures value { let d = sides classes.now.q0.g in
        result ≡ pos (own_places (map pos (map_triplets_of swappable d classes.now.q0.p (map nat_abs classes.now.map_q.now))) (size d)) }
{
    if swappable {
        ir_triplets_at_q_perm_q1q2(classes, &mut *map_triplets);
    } else {
        ir_triplets_at_q_noperm(classes.map_q, &mut *map_triplets);
    }
    grgrid::own_places(map_triplets) as i64
}

// The answer and both maps, which mean nothing where there is no answer.
fn fill_maps(
    q0: i64,
    d: [i64; 3],
    rotations: &[i64],
    is_time_reversal: bool,
    swappable: bool,
    map_triplets: &mut [i64],
    map_q: &mut [i64],
) -> Result<i64, Refusal>
    ensures value { result ≡ (ir_triplets_at_q q0 d rotations.now is_time_reversal swappable (length map_triplets.old) (length map_q.old)).answer }
    ensures maps { let n = length map_triplets.old in
        let m = length map_q.old in
        let o = ir_triplets_at_q q0 d rotations.now is_time_reversal swappable n m in
        IfOk result (λ k. record { answer = Ok k; map_triplets = map_triplets.new; map_q = map_q.new } ≡ o) }
{
    triplet_tests(q0, d, rotations, map_triplets.len(), map_q.len())?;
    let g = grgrid::grid_of(d);
    let point = GridPoint { p: q0 as usize, g };
    classes_at(point, rotations, is_time_reversal, &mut *map_q)?;
    let classes = Classes { map_q, q0: point };
    Ok(number_triplets(swappable, &classes, map_triplets))
}

// Search symmetry-reduced triplets at a fixed q-point: `map_q` has the classes under the operations that keep q0, `map_triplets` those of the triplets.
pub fn ir_triplets_at_q(
    q0: i64,
    d: [i64; 3],
    rotations: &[i64],
    is_time_reversal: bool,
    swappable: bool,
    map_triplets: &mut [i64],
    map_q: &mut [i64],
) -> Result<i64, Refusal>
    ensures { let n = length map_triplets.old in
        let m = length map_q.old in
        let o = ir_triplets_at_q q0 d rotations.now is_time_reversal swappable n m in
        record { answer = result; map_triplets = map_triplets.new; map_q = map_q.new } ≡ o }
{
    let answer = fill_maps(
        q0,
        d,
        rotations,
        is_time_reversal,
        swappable,
        &mut *map_triplets,
        &mut *map_q,
    );
    if answer.is_err() {
        map_triplets.fill(-1);
        map_q.fill(-1);
    }
    answer
}
