// How the answer of a call is told: a number, and what stands in the caller's slices.
#![tactic(auto)]

mod diagonal;
mod form;
mod grid;
mod images;
mod marks;
mod pair;
mod recip;
mod transform;
mod triplets;
mod weights;

ghost use Rattle.std.specs.Prelude.{◌≡◌, length};
ghost use Rattle.common.specs.Tested.{answer_of, told_of};
ghost use Rattle.answers.specs.Lengths.{wrong_length, unwritten};

use common::Refusal;
pub use diagonal::{diagonal_lengths, smith_lengths, tell_diagonal, tell_smith};
pub use form::{form_lengths, tell_order, tell_same};
pub use grid::{class_lengths, folding_lengths, point_lengths, tell_classes, tell_folded};
pub use images::{
    burst_lengths, image_lengths, lattice_at, rotate_lengths, table_at, tell_built, tell_rotated,
    tell_sizes,
};
pub use marks::{mark_lengths, ranges_at};
pub use pair::tell_pair;
pub use recip::{tell_count, tell_group};
pub use transform::transform_lengths;
pub use triplets::{refuse_triplets, triplet_class_lengths, triplet_lengths};
pub use weights::{tell_weights, weight_lengths};

// 0, or the number of the refusal.
pub fn number(answer: Result<(), Refusal>) -> i64
    ensures { result ≡ answer_of answer }
{
    match answer {
        Ok(()) => 0,
        Err(r) => r.answer(),
    }
}

// What is told beside: the numbers of an accepted call, or -1 in every place. Callers match and do not `map`: of an array that a
// closure without clauses returns, a proof knows nothing.
pub fn tell<const N: usize>(answer: Result<[i64; N], Refusal>, told: &mut [i64]) -> i64
    requires { length told.old ≡ N }
    ensures value { result ≡ answer_of answer.entry }
    ensures told_after { told.new ≡ told_of (λ a. a) N answer.entry }
{
    match answer {
        Ok(a) => {
            told.copy_from_slice(&a);
            0
        }
        Err(r) => {
            told.fill(-1);
            r.answer()
        }
    }
}

// Slices of other lengths: -1 in every place of the outputs.
pub fn refuse(out: &mut [i64]) -> i64
    ensures value { result ≡ wrong_length }
    ensures out_after { out.new ≡ unwritten (length out.old) }
{
    out.fill(-1);
    Refusal::WrongLength.answer()
}

// Two outputs: see docs/DECISIONS.md, 'Output slices'.
pub fn refuse_two(a: &mut [i64], b: &mut [i64]) -> i64
    ensures value { result ≡ wrong_length }
    ensures a_after { a.new ≡ unwritten (length a.old) }
    ensures b_after { b.new ≡ unwritten (length b.old) }
{
    a.fill(-1);
    refuse(b)
}

// Three.
pub fn refuse_three(a: &mut [i64], b: &mut [i64], c: &mut [i64]) -> i64
    ensures value { result ≡ wrong_length }
    ensures a_after { a.new ≡ unwritten (length a.old) }
    ensures b_after { b.new ≡ unwritten (length b.old) }
    ensures c_after { c.new ≡ unwritten (length c.old) }
{
    a.fill(-1);
    refuse_two(b, c)
}

// Four outputs: see docs/DECISIONS.md, 'Output slices'.
pub fn refuse_four(a: &mut [i64], b: &mut [i64], c: &mut [i64], d: &mut [i64]) -> i64
    ensures value { result ≡ wrong_length }
    ensures a_after { a.new ≡ unwritten (length a.old) }
    ensures b_after { b.new ≡ unwritten (length b.old) }
    ensures c_after { c.new ≡ unwritten (length c.old) }
    ensures d_after { d.new ≡ unwritten (length d.old) }
{
    a.fill(-1);
    refuse_three(b, c, d)
}
