// Of the image tables, the rotation of an image and its neighbours.
ghost use Rattle.std.specs.Prelude.{◌≡◌, length, IfOk};
ghost use Rattle.common.specs.Tested.{answer_of};
ghost use Rattle.common.specs.Array.{rows};
ghost use Rattle.bzsearch.specs.SearchView.{float_nine};
ghost use Rattle.answers.specs.Images.{image_lengths, table_at, images_told, sizes_told, Held, rotate_lengths, rotated_told, burst_lengths};

use crate::tell;
use bzgrid::{Built, Lengths, TableRecord};
use bztable::Rotated;
use common::Refusal;

// Nine numbers by rows. Of f64 alone, as `common::matrix_at` is of i64: a generic callee would ask of every caller that sizes fit.
pub fn lattice_at(l: &[f64]) -> [[f64; 3]; 3]
    requires { length l.now ≡ 9 }
    ensures { result ≡ rows (float_nine l.now) }
{
    [[l[0], l[1], l[2]], [l[3], l[4], l[5]], [l[6], l[7], l[8]]]
}

// Of told, n are wanted.
pub fn image_lengths(d: usize, q: usize, ps: usize, lattice: usize, told: usize, n: usize) -> bool
    ensures { result ≡ image_lengths d q ps lattice told n }
{
    d == 3 && (q == 9 && ps == 3 && lattice == 9) && told == n
}

// A table's record, of seven numbers.
pub fn table_at(l: &[i64]) -> TableRecord
    requires { length l.now ≡ 7 }
    ensures { result ≡ table_at l.now }
{
    TableRecord {
        d: common::row_at(l, 0),
        ps: common::row_at(l, 3),
        bz_grid_type: l[6],
    }
}

// The three lengths, then the record.
pub fn tell_built(answer: Result<Built, Refusal>, told: &mut [i64]) -> i64
    requires fact_1 { length told.old ≡ 10 }
    requires fact_2 { IfOk answer (λ b. Held b.lengths) }
    ensures value { result ≡ answer_of answer }
    ensures told_after { told.new ≡ images_told answer }
{
    match answer {
        Ok(b) => {
            let l = b.lengths;
            let [dx, dy, dz] = b.table.d;
            let [sx, sy, sz] = b.table.ps;
            let t = b.table.bz_grid_type;
            tell(
                Ok([
                    l.addresses as i64,
                    l.map as i64,
                    l.grg as i64,
                    dx,
                    dy,
                    dz,
                    sx,
                    sy,
                    sz,
                    t,
                ]),
                told,
            )
        }
        Err(r) => tell::<10>(Err(r), told),
    }
}

pub fn tell_sizes(answer: Result<Lengths, Refusal>, told: &mut [i64]) -> i64
    requires fact_1 { length told.old ≡ 3 }
    requires fact_2 { IfOk answer Held }
    ensures value { result ≡ answer_of answer }
    ensures told_after { told.new ≡ sizes_told answer }
{
    match answer {
        Ok(l) => tell(Ok([l.addresses as i64, l.map as i64, l.grg as i64]), told),
        Err(r) => tell::<3>(Err(r), told),
    }
}

pub fn rotate_lengths(rotation: usize, table: usize, d: usize, ps: usize, told: usize) -> bool
    ensures { result ≡ rotate_lengths rotation table d ps told }
{
    rotation == 9 && table == 7 && d == 3 && ps == 3 && told == 2
}

pub fn burst_lengths(rotation: usize, table: usize, d: usize, ps: usize) -> bool
    ensures { result ≡ burst_lengths rotation table d ps }
{
    rotation == 9 && table == 7 && d == 3 && ps == 3
}

// The index, and 1 for a fallback.
pub fn tell_rotated(answer: Result<Rotated, Refusal>, told: &mut [i64]) -> i64
    requires { length told.old ≡ 2 }
    ensures value { result ≡ answer_of answer }
    ensures told_after { told.new ≡ rotated_told answer }
{
    match answer {
        Ok(Rotated::Image(i)) => tell(Ok([i, 0]), told),
        Ok(Rotated::Fallback(i)) => {
            let fallback = 1;
            tell(Ok([i, fallback]), told)
        }
        Err(r) => tell::<2>(Err(r), told),
    }
}
