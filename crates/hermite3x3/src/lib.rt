// The Hermite form of a 3 by 3 integer matrix, the order of two forms, and whether two matrices have the same points.
#![tactic(auto)]

mod steps;

ghost use Rattle.std.specs.Prelude.{◌≡◌, ◌↔◌};
ghost use Rattle.std.specs.declared.cmp.Ordering.TheVariants.{Equal};
ghost use Rattle.common.specs.Array.{matrix_of};
ghost use Rattle.hermite3x3.specs.Hermite3x3 as walk;
ghost use Rattle.hermite3x3.specs.Hermite3x3.{Promised};
ghost use Rattle.hermite3x3.specs.OrderForms.{order_forms};
ghost use Rattle.hermite3x3.specs.SameGrid.{same_grid, Says};

use common::Refusal;
use std::cmp::Ordering;

// The form of an accepted matrix, by rows.
#[tactic(auto, unfolding(crate::specs::Hermite3x3::hermite3x3))]
pub fn hermite3x3(a: [[i64; 3]; 3]) -> Result<[i64; 9], Refusal>
    ensures value { result ≡ walk.hermite3x3 (matrix_of a) }
    ensures promised { Promised (matrix_of a) result }
{
    if !common::matrix_within(a, 1000000) {
        return Err(Refusal::OutsideLimits);
    }
    if integer_matrix::det_i(a) == 0 {
        return Err(Refusal::Singular);
    }
    let h = steps::steps(a).ok_or(Refusal::Overflow)?;
    Ok(common::flat(h))
}

// The first place that differs decides.
#[tactic(auto, using(crate::proofs::Ordering::forms_equal))]
pub fn order_forms(g: [i64; 9], h: [i64; 9]) -> Ordering
    ensures value { result ≡ order_forms g h }
    ensures variant { result ≡ Equal ↔ g ≡ h }
{
    g.cmp(&h)
}

// Whether two matrices make the same grid.
pub fn same_grid(a: [[i64; 3]; 3], b: [[i64; 3]; 3]) -> Result<bool, Refusal>
    ensures value { result ≡ same_grid (matrix_of a) (matrix_of b) }
    ensures says { Says (matrix_of a) (matrix_of b) result }
{
    let g = hermite3x3(a)?;
    let h = hermite3x3(b)?;
    Ok(order_forms(g, h).is_eq())
}
