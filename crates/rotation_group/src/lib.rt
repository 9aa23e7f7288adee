// Whether a list of rotations is a group as it stands, and the reciprocal group of one that is.
#![tactic(auto)]

mod members;
mod products;

ghost use Rattle.std.specs.Prelude.{◌≡◌, ◌≤◌, T, length};
ghost use Rattle.common.specs.Array.{matrices};
ghost use Rattle.common.specs.Limits.{all_within};
ghost use Rattle.rotation_group.specs.Group.{is_group};
ghost use Rattle.rotation_group.specs.ReciprocalGroup.{given_tests, reciprocal_group};

use common::Refusal;
use grgrid::Rotations;

// Within the limits; a part of a matrix at the end does not count.
#[tactic(auto, unfolding(crate::specs::Group::is_group))]
pub fn is_group(rotations: &[i64]) -> bool
    requires fact_1 { length rotations.now ≤ 1728 }
    requires fact_2 { T (all_within 100000 rotations.now) }
    ensures { result ≡ is_group (matrices rotations.now) }
{
    let identity = [1, 0, 0, 0, 1, 0, 0, 0, 1];
    let l = Rotations { list: rotations };
    recip_rotations::contains(&identity, 0, rotations, l.count())
        && members::no_repeats(l)
        && members::units(l)
        && products::products_inside(l)
}

// Of the list as given.
#[tactic(auto, unfolding(crate::specs::ReciprocalGroup::given_tests))]
fn given_tests(rotations: &[i64], places: usize) -> Result<(), Refusal>
    ensures { result ≡ given_tests rotations.now places }
{
    recip_rotations::input_tests(rotations, places)?;
    if !is_group(rotations) {
        return Err(Refusal::NotGroup);
    }
    Ok(())
}

// `reciprocal_rotations` of a list that must be a group as given: the reciprocal step of the chain.
pub fn reciprocal_group(
    rotations: &[i64],
    is_time_reversal: bool,
    out: &mut [i64],
) -> Result<usize, Refusal>
    ensures { record { answer = result; out = out.new } ≡ reciprocal_group rotations.now is_time_reversal (length out.old) }
{
    match given_tests(rotations, out.len()) {
        Ok(()) => recip_rotations::reciprocal_rotations(rotations, is_time_reversal, out),
        Err(r) => {
            out.fill(-1);
            Err(r)
        }
    }
}
