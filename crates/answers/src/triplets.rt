// What the exports of triplet_grid and bz_triplets tell.
ghost use Rattle.std.specs.Prelude.{◌≡◌, negsuc, length, replicate};
ghost use Rattle.std.specs.Float.{binary64};
ghost use Rattle.std.specs.Float.Ieee.{of_int};
ghost use Rattle.answers.specs.Lengths.{wrong_length, unwritten};
ghost use Rattle.answers.specs.Triplets.{triplet_class_lengths, triplet_lengths};

use crate::refuse_three;

pub fn triplet_class_lengths(d: usize, told: usize) -> bool
    ensures { result ≡ triplet_class_lengths d told }
{
    d == 3 && told == 1
}

pub fn triplet_lengths(table: usize, d: usize, q: usize, lattice: usize) -> bool
    ensures { result ≡ triplet_lengths table d q lattice }
{
    table == 7 && d == 3 && q == 9 && lattice == 9
}

// Four outputs: see docs/DECISIONS.md, 'Output slices'.
pub fn refuse_triplets(
    out: &mut [i64],
    left: &mut [i64],
    left_length: &mut [f64],
    cells: &mut [i64],
) -> i64
    ensures value { result ≡ wrong_length }
    ensures out_after { out.new ≡ unwritten (length out.old) }
    ensures left_after { left.new ≡ unwritten (length left.old) }
    ensures left_length_after { left_length.new ≡ replicate (length left_length.old) (of_int binary64 (negsuc 0)) }
    ensures cells_after { cells.new ≡ unwritten (length cells.old) }
{
    left_length.fill(-1.0);
    refuse_three(out, left, cells)
}
