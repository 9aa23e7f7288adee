// Of the grid, its class map, and what an address folds to.
ghost use Rattle.std.specs.Prelude.{◌≡◌, ◌<◌, length, IfOk};
ghost use Rattle.common.specs.Tested.{answer_of};
ghost use Rattle.answers.specs.Grids.{classes_told, class_lengths, folded_told, folding_lengths, point_lengths};

use crate::tell;
use common::Refusal;
use grgrid::Folded;

pub fn class_lengths(d: usize, ps: usize, told: usize) -> bool
    ensures { result ≡ class_lengths d ps told }
{
    d == 3 && ps == 3 && told == 1
}

// The number of classes, of a class map or of the triplets.
pub fn tell_classes(answer: Result<i64, Refusal>, told: &mut [i64]) -> i64
    requires { length told.old ≡ 1 }
    ensures value { result ≡ answer_of answer }
    ensures told_after { told.new ≡ classes_told answer }
{
    match answer {
        Ok(n) => tell(Ok([n]), told),
        Err(r) => tell::<1>(Err(r), told),
    }
}

pub fn folding_lengths(address: usize, d: usize, told: usize) -> bool
    ensures { result ≡ folding_lengths address d told }
{
    address == 3 && d == 3 && told == 4
}

pub fn point_lengths(rotation: usize, d: usize, ps: usize, told: usize) -> bool
    ensures { result ≡ point_lengths rotation d ps told }
{
    rotation == 9 && d == 3 && ps == 3 && told == 4
}

// The index, and the three quotients of the cell.
pub fn tell_folded(answer: Result<Folded, Refusal>, told: &mut [i64]) -> i64
    requires four_places { length told.old ≡ 4 }
    requires index_fits { IfOk answer (λ f. f.index < 0x8000000000000000) }
    ensures value { result ≡ answer_of answer }
    ensures told_after { told.new ≡ folded_told answer }
{
    match answer {
        Ok(f) => tell(Ok([f.index as i64, f.cell[0], f.cell[1], f.cell[2]]), told),
        Err(r) => tell::<4>(Err(r), told),
    }
}
